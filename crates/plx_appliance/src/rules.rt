//! The rules on the log of an appliance.
ghost use Rattle.plx_appliance.specs.Appliance.{AppliancesKeepRules};

/// Each log that an appliance stands for is a run, and keeps the rules of runs: its asks were
/// allowed, and each reply has its cause.
pub fn appliances_keep_rules()
    ensures { AppliancesKeepRules }
{}
