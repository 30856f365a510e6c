//! The law of trees: what holds of the trees of images on the device, in every world that events lead to.
#![tactic(auto)]
