//! What the work on space keeps by itself, within any command.
ghost use Rattle.plx_alloc.specs.GiveBackRules.{GiveBacksKeepRules};
ghost use Rattle.plx_alloc.specs.GiveRules.{ExtentGivesKeepRules};
ghost use Rattle.plx_alloc.specs.TakeRules.{ExtentTakesKeepRules};

/// The giving back of an extent's blocks keeps the rules by itself, within any command in which it
/// may begin: its asks are allowed and of the extent's map alone, at most two are answered, and its
/// end has its cause.
pub fn extent_gives_keep_rules()
    ensures { ExtentGivesKeepRules }
{}

/// So does the giving back of all blocks in hand: its asks are allowed and of one map each, at most
/// two for each extent are answered, and its end has its cause; where the command goes on, only such
/// blocks are left in hand as the work has read with a clear bit, and all leases are held as before.
pub fn give_backs_keep_rules()
    ensures { GiveBacksKeepRules }
{}

/// So does the taking of blocks of an extent whose lease is held: its asks are allowed and of the
/// extent's map alone, at most two are answered, and its end has its cause.
pub fn extent_takes_keep_rules()
    ensures { ExtentTakesKeepRules }
{}
