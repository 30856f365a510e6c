//! What each boot's log shows of its commands, however its asks were answered: the asks were allowed, each reply
//! has its cause, refusals come in order, a command keeps its bound, and an Ok shows its work on the known bytes.
//!
//! The functions of this crate are laws: they have no parameters and an empty body, and their contracts
//! are the theorems.
#![tactic(auto)]

ghost use Rattle.law_run.specs.ClaimEnds.{ClaimsKeepRules};
ghost use Rattle.law_run.specs.Completeness.{OkWithoutCause};
ghost use Rattle.law_run.specs.OneImage.{StoresOneImage};
ghost use Rattle.law_run.specs.Configurations.{ConfigurationsAgree};
ghost use Rattle.law_run.specs.Releases.{ReleasesKeepRules};
ghost use Rattle.law_run.specs.Renewals.{RenewalsKeepRules};
ghost use Rattle.law_run.specs.RetireRules.{RetiresKeepRules};
ghost use Rattle.law_run.specs.Rules.{RunsKeepRules};
ghost use Rattle.law_run.specs.Takes.{TakesKeepRules};
ghost use Rattle.law_run.specs.Worlds.{BootsKeepRules};

/// Each run keeps the rules, whatever its answers were.
pub fn runs_keep_rules()
    ensures { RunsKeepRules }
{}

/// A command that has its reply has a cause in its log, or the reply is its own Ok.
pub fn ok_without_cause()
    ensures { OkWithoutCause }
{}

/// Given bytes store one image at most, so "the image that the known bytes stored" is one.
pub fn stores_one_image()
    ensures { StoresOneImage }
{}

/// What a boot holds and has in hand, which images have a session, and how many claims were begun, is the same by a
/// log's commands and by where the log leads.
pub fn configurations_agree()
    ensures { ConfigurationsAgree }
{}

/// The log of each boot keeps the rules, in every world that events lead to.
pub fn boots_keep_rules()
    ensures { BootsKeepRules }
{}

/// Each claim of a lease keeps the rules by itself, within any command: its asks are allowed, at most six are
/// answered, and its end has its cause.
pub fn claims_keep_rules()
    ensures { ClaimsKeepRules }
{}

/// So does each renewal of a lease: its write is allowed, it is the one ask, and its end has its cause.
pub fn renewals_keep_rules()
    ensures { RenewalsKeepRules }
{}

/// So does each release of a lease: its write is allowed, it is the one ask, and its end has its cause.
pub fn releases_keep_rules()
    ensures { ReleasesKeepRules }
{}

/// So does each take of fresh blocks: its asks are allowed and of maps and leases of extents alone, at most eight
/// for each extent are answered, and its end has its cause in its own exchanges.
pub fn takes_keep_rules()
    ensures { TakesKeepRules }
{}

/// So does the giving up of all extents: its asks are allowed and of one extent each, at most three for each extent
/// are answered, and its end has its cause; where the command goes on, no extent's lease is held, and no block is
/// in hand.
pub fn retires_keep_rules()
    ensures { RetiresKeepRules }
{}
