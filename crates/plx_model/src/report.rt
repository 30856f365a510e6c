//! Whether two reports are the same.
ghost use Rattle.std.specs.Prelude.{◌≡◌};
ghost use Rattle.plx_commands.specs.Reports.{same_report};

use crate::content::is_label;
use plx_commands::Report;

// Whether the reports are the same.
pub fn is_same(report: &Report, other: &Report) -> bool
    ensures { result ≡ same_report report.now other.now }
{
    report.writes == other.writes
        && report.generation == other.generation
        && report.size == other.size
        && report.taken == other.taken
        && report.dropped == other.dropped
        && report.live == other.live
        && is_label(&report.label, &other.label)
}
