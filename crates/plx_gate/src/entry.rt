//! The entries of a snapshot log.
ghost use Rattle.std.specs.Prelude.{◌≡◌, ◌≢◌, ◌<◌, ℕ, length, Some, IfSome, IfNone, false};
ghost use Rattle.plx_base.specs.Spelling.{IsReading, OnlySector};
ghost use Rattle.plx_gate.specs.Entries.{IsEntry, entry_bytes, entry_fields, entry_part, entry_sector, entry_of, found_entry, is_entry, with_entry};
ghost use Rattle.plx_gate.specs.Entries.{read_entry as entry_in};

use plx_base::{Field, Ptr, get_u32, get_u64, put_fields};

/// The bytes of an entry.
const ENTRY_LEN: usize = 32;

/// An entry of a snapshot log.
#[derive(Clone, Copy, PartialEq, Eq)]
pub struct LogEntry {
    /// The root of the snapshot's tree, without the mark.
    pub root: Ptr,
    /// Whether the snapshot was dropped.
    pub dropped: bool,
    /// The clock reading at which the snapshot was begun, in milliseconds.
    pub stamp: u64,
}

/// What a log block of 4,096 bytes says at an entry's place, entries counted from 0, or `None` where
/// the bytes there are outside the format.
pub fn read_entry(bytes: &[u8], index: u32) -> Option<LogEntry>
    requires long { length bytes.now ≡ 4096 }
    requires index { index < 128 }
    ensures same { result ≡ entry_in index bytes.now }
    ensures grammar { IsReading IsEntry entry_bytes (entry_part index bytes.now) result }
{
    let start = ENTRY_LEN * index as usize;
    read_part(&bytes[start..start + ENTRY_LEN])
}

/// Writes an entry at its place in a log block of 4,096 bytes. All other bytes stay, and the entry's
/// sector tells all.
pub fn write_entry(value: &LogEntry, index: u32, bytes: &mut [u8])
    requires long { length bytes.old ≡ 4096 }
    requires index { index < 128 }
    requires limits { IsEntry value.now }
    ensures written { bytes.new ≡ with_entry index value.now bytes.old }
    ensures here { entry_in index bytes.new ≡ Some value.now }
    ensures others { (other : ℕ) → other ≢ index
        → entry_in other bytes.new ≡ entry_in other bytes.old }
    ensures sector { OnlySector (entry_sector index) bytes.new bytes.old }
{
    put_fields(bytes, ENTRY_LEN * index as usize, &fields(value));
}

// What the 32 bytes of an entry say.
fn read_part(bytes: &[u8]) -> Option<LogEntry>
    requires { length bytes.now ≡ 32 }
    ensures { result ≡ entry_of bytes.now }
{
    let entry = found(bytes)?;
    let mut spelled = [0; ENTRY_LEN];
    put_fields(&mut spelled, 0, &fields(&entry));
    if bytes != spelled.as_slice() {
        return None;
    }
    Some(entry)
}

// The entry whose numbers stand at the places of the fields, where it is within its limits.
fn found(bytes: &[u8]) -> Option<LogEntry>
    requires { length bytes.now ≡ 32 }
    ensures same { IfSome result (λ entry. entry ≡ found_entry bytes.now) }
    ensures limits { IfSome result IsEntry }
    ensures past { IfNone result (is_entry (found_entry bytes.now) ≡ false) }
{
    let root = Ptr::read(get_u64(bytes, 0))?;
    if root.is_writable() {
        return None;
    }
    Some(LogEntry {
        root,
        dropped: get_u32(bytes, 8) != 0,
        stamp: get_u64(bytes, 16),
    })
}

// The fields of an entry.
fn fields(entry: &LogEntry) -> [Field; 5]
    ensures { result ≡ entry_fields entry.now }
{
    [
        Field::U64(entry.root.value()),
        Field::U32(u32::from(entry.dropped)),
        Field::U32(0),
        Field::U64(entry.stamp),
        Field::U64(0),
    ]
}
