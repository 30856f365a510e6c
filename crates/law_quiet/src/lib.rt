//! Commands that nothing disturbs.
//!
//! The functions of this crate are laws: they have no parameters and an empty body, and their contracts
//! are the theorems. They say when a command has its Ok, by the world in which it starts.
#![tactic(auto)]

ghost use Rattle.law_quiet.specs.Quiet.{OkWhereUndisturbed};

/// A command that is undisturbed has its own Ok where what it claims is clear as it starts, and nothing
/// in its log refuses it: no fact, no fault, no miss, no late reading, no last claim, and no bytes
/// outside the format.
pub fn undisturbed_commands_are_answered()
    ensures { OkWhereUndisturbed }
{}
