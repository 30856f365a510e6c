//! What holds of the block-list model after every trace that it permits, with no world in sight.
//!
//! The functions of this crate are laws: they have no parameters and an empty body, and their contracts
//! are the theorems.
#![tactic(auto)]

ghost use Rattle.law_model.specs.ImagesStay.{ImagesStay};
ghost use Rattle.law_model.specs.Sound.{ModelsAreSound};

/// After every permitted trace an owner of a slot has a session of it, and a change under way is reported
/// otherwise than its image.
pub fn models_are_sound()
    ensures { ModelsAreSound }
{}

/// An entry changes the image in a slot only where its command changes that image or attaches it.
pub fn images_stay()
    ensures { ImagesStay }
{}
