//! The laws of all texts, as the contract of a function of no work.
ghost use Rattle.plx_cli.specs.Program.{TextsTell};

use plx_text::{schedule_once, trace_once};

/// A trace's text is that of no other trace, nor is what was written, and a schedule's bytes are those of no other schedule.
pub(crate) fn texts()
    ensures { TextsTell }
{
    trace_once();
    schedule_once();
}
