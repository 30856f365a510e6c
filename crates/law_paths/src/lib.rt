//! Copy-on-write trees keep what they share: a link, and changes of roots, keep the levels and the marked paths.
#![tactic(auto)]

ghost use Rattle.law_paths.specs.Roots.{RootsKeep, RootsReach};
ghost use Rattle.law_paths.specs.Links.{LinksKeep};

/// A link keeps the facts on levels and marked paths.
pub fn links_keep()
    ensures { LinksKeep }
{}

/// So do a snapshot, a clone, a drop and a delete.
pub fn roots_keep()
    ensures kept { RootsKeep }
    ensures reached { RootsReach }
{}
