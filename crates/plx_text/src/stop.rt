//! The words of stops.

ghost use Rattle.plx_text.specs.Stops.{ReadsStop};

use crate::word::is;
use plx_base::WriteKind;
use plx_commands::{Region, Stop};

/// The stop that a word is.
pub(crate) fn read_stop(word: &[u8]) -> Option<Stop>
    ensures { ReadsStop result word.now }
{
    if is(word, b"claim") {
        return Some(Stop::Write(WriteKind::Claim));
    }
    if is(word, b"renew") {
        return Some(Stop::Write(WriteKind::Renew));
    }
    if is(word, b"release") {
        return Some(Stop::Write(WriteKind::Release));
    }
    if is(word, b"take") {
        return Some(Stop::Write(WriteKind::Take));
    }
    if is(word, b"give") {
        return Some(Stop::Write(WriteKind::Give));
    }
    if is(word, b"record") {
        return Some(Stop::Write(WriteKind::Record));
    }
    if is(word, b"jdata") {
        return Some(Stop::Write(WriteKind::JData));
    }
    if is(word, b"jcommit") {
        return Some(Stop::Write(WriteKind::JCommit));
    }
    if is(word, b"r-lease") {
        return Some(Stop::Read(Region::Lease));
    }
    if is(word, b"r-record") {
        return Some(Stop::Read(Region::Record));
    }
    if is(word, b"r-journal") {
        return Some(Stop::Read(Region::Journal));
    }
    if is(word, b"r-map") {
        return Some(Stop::Read(Region::Map));
    }
    None
}
