use crate::{Command, Reply};
use plx_base::ApplianceNo;

/// One entry of a trace.
#[derive(Drop)]
pub enum Entry {
    /// The appliance was given this command.
    Start {
        appliance: ApplianceNo,
        command: Command,
    },
    /// The appliance gave this reply to the command that it was in.
    Reply {
        appliance: ApplianceNo,
        reply: Reply,
    },
    /// The appliance lost all that it had in memory.
    Crash {
        appliance: ApplianceNo,
    },
}
