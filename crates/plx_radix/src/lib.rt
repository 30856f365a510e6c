//! Nodes of radix trees, and the paths that they make.
#![tactic(auto)]

ghost use Rattle.plx_radix.specs.Paths.{PathsAgree};

/// The path by marks that are and-ed on the way down leads where the bytes lead, and its end carries the mark
/// exactly where all its pointers do.
pub fn paths_agree()
    ensures { PathsAgree }
{}
