//! Records of the device whose bytes are written out by hand.
ghost use Rattle.plx_gate.specs.Entries.{IsEntry};
ghost use Rattle.plx_gate.specs.Images.{IsImage};

use plx_base::{BlockNo, Boot, Claim, Label, LeaseRecord, Ptr};
use plx_gate::{
    Descriptor, ImageRecord, LiveRecord, LogEntry, read_descriptor, read_entry, read_image,
    read_lease, write_descriptor, write_entry, write_image, write_lease,
};

const LEASE: LeaseRecord = LeaseRecord::Claimed {
    claim: Claim {
        boot: Boot(1),
        number: 0,
        sample: 1_000,
    },
    until: 11_000,
};

/// The lease whose numbers are the last ones.
const LAST_LEASE: LeaseRecord = LeaseRecord::Claimed {
    claim: Claim {
        boot: Boot(u128::MAX),
        number: (1 << 40) - 1,
        sample: (1 << 48) - 1,
    },
    until: (1 << 49) - 1,
};

const DESCRIPTOR: Descriptor = Descriptor {
    generation: 3,
    vblock: 0x0102_0304,
    number: 0x1122_3344_5566,
};

/// What a block has.
#[derive(Clone, Copy)]
enum Record {
    FreeLease,
    Lease,
    LastLease,
    /// The record of a slot that is free, after five images.
    FreeImage,
    /// The record of an image of eight blocks, named `a`, whose root is block 14.
    Image,
    /// The last entry of a log, of a dropped snapshot.
    Entry,
    Descriptor,
}

/// The record, written over a block of sevens.
fn written(record: Record) -> [u8; 4096] {
    let mut bytes = [7; 4096];
    match record {
        Record::FreeLease => write_lease(&LeaseRecord::Free, &mut bytes),
        Record::Lease => write_lease(&LEASE, &mut bytes),
        Record::LastLease => write_lease(&LAST_LEASE, &mut bytes),
        Record::FreeImage => write_image(&ImageRecord::Free { generation: 5 }, &mut bytes),
        Record::Image => write_image(&image(), &mut bytes),
        Record::Entry => write_entry(&entry(), 127, &mut bytes),
        Record::Descriptor => write_descriptor(&DESCRIPTOR, &mut bytes),
    }
    bytes
}

fn image() -> ImageRecord
    ensures { IsImage result }
{
    ImageRecord::Live(LiveRecord {
        generation: 1,
        size: 8,
        taken: 0,
        root: Ptr::writable(BlockNo(14)),
        applied: 1,
        label: Label::new(b"a").unwrap_or(Label::empty()),
    })
}

fn entry() -> LogEntry
    ensures { IsEntry result }
{
    LogEntry {
        root: Ptr::frozen(BlockNo(14)),
        dropped: true,
        stamp: 0x0102,
    }
}

/// Whether the record is what the block is read as.
fn is_read(record: Record, bytes: &[u8; 4096]) -> bool {
    match record {
        Record::FreeLease => read_lease(bytes) == Some(LeaseRecord::Free),
        Record::Lease => read_lease(bytes) == Some(LEASE),
        Record::LastLease => read_lease(bytes) == Some(LAST_LEASE),
        Record::FreeImage => matches!(read_image(bytes), Some(ImageRecord::Free { generation: 5 })),
        Record::Image => matches!(
            read_image(bytes),
            Some(ImageRecord::Live(LiveRecord {
                generation: 1,
                size: 8,
                taken: 0,
                applied: 1,
                ..
            }))
        ),
        Record::Entry => read_entry(bytes, 127) == Some(entry()),
        Record::Descriptor => read_descriptor(bytes) == Some(Some(DESCRIPTOR)),
    }
}

/// Whether the block is read as nothing.
fn is_refused(record: Record, bytes: &[u8; 4096]) -> bool {
    match record {
        Record::FreeLease | Record::Lease | Record::LastLease => read_lease(bytes) == None,
        Record::FreeImage | Record::Image => read_image(bytes).is_none(),
        Record::Entry => read_entry(bytes, 127) == None,
        Record::Descriptor => read_descriptor(bytes) == None,
    }
}

/// The bytes with others from a place on.
fn changed(mut bytes: [u8; 4096], place: usize, others: &[u8]) -> [u8; 4096] {
    if let Some(changed) = bytes.get_mut(place..place.saturating_add(others.len())) {
        changed.copy_from_slice(others);
    }
    bytes
}

/// A byte or a number that stands at a place instead of what is there.
#[derive(Clone, Copy)]
enum Change {
    Byte(usize, u8),
    Number(usize, u64),
}

use Change::{Byte, Number};

/// The block of the record with the change.
fn with(record: Record, change: Change) -> [u8; 4096] {
    match change {
        Byte(place, byte) => changed(written(record), place, &[byte]),
        Number(place, number) => changed(written(record), place, &number.to_le_bytes()),
    }
}

/// The changes with which the block of a record is outside the format.
const CHANGES: &[(Record, Change)] = &[
    // A free lease with leftovers, and no lease.
    (Record::FreeLease, Byte(12, 0x01)),
    (Record::FreeLease, Byte(16, 0x01)),
    (Record::FreeLease, Byte(31, 0x01)),
    (Record::FreeLease, Byte(32, 0x01)),
    (Record::FreeLease, Byte(40, 0x01)),
    (Record::FreeLease, Byte(48, 0x01)),
    (Record::FreeLease, Byte(55, 0x01)),
    (Record::FreeLease, Byte(56, 0x01)),
    (Record::FreeLease, Number(0, 0)),
    // The magic, the state, the unnamed bytes, a number of 2^40, a sample of 2^48, an `until` of
    // 2^49, one less than the sample and 10,000, and bytes after the fields.
    (Record::Lease, Byte(7, b'2')),
    (Record::Lease, Byte(8, 0)),
    (Record::Lease, Byte(8, 0x02)),
    (Record::Lease, Byte(12, 0x01)),
    (Record::Lease, Byte(15, 0x01)),
    (Record::Lease, Byte(37, 0x01)),
    (Record::Lease, Byte(46, 0x01)),
    (Record::Lease, Byte(54, 0x02)),
    (Record::Lease, Byte(48, 0xf7)),
    (Record::Lease, Byte(56, 0x01)),
    (Record::Lease, Byte(4095, 0x01)),
    // A number of 2^40, a sample of 2^48, and an `until` of 2^49.
    (Record::LastLease, Number(32, 1 << 40)),
    (Record::LastLease, Number(40, 1 << 48)),
    (Record::LastLease, Number(48, 1 << 49)),
    // A free slot with leftovers of an image.
    (Record::FreeImage, Byte(16, 0x01)),
    (Record::FreeImage, Byte(20, 0x01)),
    (Record::FreeImage, Byte(24, 0x01)),
    (Record::FreeImage, Byte(32, 0x01)),
    (Record::FreeImage, Byte(40, 0x01)),
    (Record::FreeImage, Byte(44, 0x01)),
    (Record::FreeImage, Byte(48, 0x01)),
    (Record::FreeImage, Byte(79, 0x01)),
    (Record::FreeImage, Byte(80, 0x01)),
    // The magic, the state, generation 0, size 0, a size above 2^27, 129 snapshots, a root of 2^26
    // and block 0 with the mark, 2^48 applied, labels that are too long, too short and not padded,
    // and bytes after the fields.
    (Record::Image, Byte(0, b'Q')),
    (Record::Image, Byte(8, 0x02)),
    (Record::Image, Byte(12, 0)),
    (Record::Image, Byte(16, 0)),
    (Record::Image, Byte(19, 0x08)),
    (Record::Image, Byte(20, 0x81)),
    (Record::Image, Byte(27, 0x04)),
    (Record::Image, Byte(24, 0)),
    (Record::Image, Byte(38, 0x01)),
    (Record::Image, Byte(40, 0x21)),
    (Record::Image, Byte(40, 0)),
    (Record::Image, Byte(40, 0x02)),
    (Record::Image, Byte(44, 0x01)),
    (Record::Image, Byte(48, b'-')),
    (Record::Image, Byte(48, b' ')),
    (Record::Image, Byte(48, 0x7f)),
    (Record::Image, Byte(49, b'b')),
    (Record::Image, Byte(79, 0x01)),
    (Record::Image, Byte(80, 0x01)),
    (Record::Image, Byte(4095, 0x01)),
    // The mark, a root of 2^26, a flag of 2, and the unnamed bytes.
    (Record::Entry, Byte(4071, 0x80)),
    (Record::Entry, Byte(4067, 0x04)),
    (Record::Entry, Byte(4072, 0x02)),
    (Record::Entry, Byte(4075, 0x01)),
    (Record::Entry, Byte(4076, 0x01)),
    (Record::Entry, Byte(4079, 0x01)),
    (Record::Entry, Byte(4088, 0x01)),
    (Record::Entry, Byte(4095, 0x01)),
    // The magic, generation 0, a virtual block of 2^27, a number of 2^48, and bytes after the
    // fields.
    (Record::Descriptor, Byte(0, b'Q')),
    (Record::Descriptor, Byte(8, 0)),
    (Record::Descriptor, Byte(15, 0x08)),
    (Record::Descriptor, Byte(22, 0x01)),
    (Record::Descriptor, Byte(24, 0x01)),
    (Record::Descriptor, Byte(4095, 0x01)),
];

/// A record, the byte that fills the block around it, where the record begins, and its bytes but
/// for zeros at the end.
type Spelling = (Record, u8, usize, &'static [u8]);

const SPELLINGS: &[Spelling] = &[
    (Record::FreeLease, 0, 0, b"PLXLEAS1"),
    (
        Record::Lease,
        0,
        0,
        b"PLXLEAS1\x01\0\0\0\0\0\0\0\x01\0\0\0\0\0\0\0\0\0\0\0\0\0\0\0\0\0\0\0\0\0\0\0\xe8\x03\0\0\0\0\0\0\xf8\x2a\0\0\0\0\0\0",
    ),
    (
        Record::LastLease,
        0,
        0,
        b"PLXLEAS1\x01\0\0\0\0\0\0\0\xff\xff\xff\xff\xff\xff\xff\xff\xff\xff\xff\xff\xff\xff\xff\xff\xff\xff\xff\xff\xff\0\0\0\xff\xff\xff\xff\xff\xff\0\0\xff\xff\xff\xff\xff\xff\x01\0",
    ),
    (Record::FreeImage, 0, 0, b"PLXIMAG1\0\0\0\0\x05\0\0\0"),
    (
        Record::Image,
        0,
        0,
        b"PLXIMAG1\x01\0\0\0\x01\0\0\0\x08\0\0\0\0\0\0\0\x0e\0\0\0\0\0\0\x80\x01\0\0\0\0\0\0\0\x01\0\0\0\0\0\0\0a",
    ),
    (
        Record::Entry,
        7,
        4064,
        b"\x0e\0\0\0\0\0\0\0\x01\0\0\0\0\0\0\0\x02\x01\0\0\0\0\0\0\0\0\0\0\0\0\0\0",
    ),
    (
        Record::Descriptor,
        0,
        0,
        b"PLXJRNL1\x03\x00\x00\x00\x04\x03\x02\x01\x66\x55\x44\x33\x22\x11\x00\x00",
    ),
];

/// Whether the record is written as these bytes, and read from them.
fn is_spelled(spelling: &Spelling) -> bool {
    let (record, fill, place, spelled) = *spelling;
    let bytes = changed([fill; 4096], place, spelled);
    written(record) == bytes && is_read(record, &bytes)
}

#[test]
fn each_record_is_written_and_read_as_spelled(rt: HostRuntime) {
    for (case, spelling) in SPELLINGS.iter().enumerate() {
        assert!(rt; is_spelled(spelling), "{case}");
    }
}

#[test]
fn bytes_outside_the_format_are_refused(rt: HostRuntime) {
    for (case, &(record, change)) in CHANGES.iter().enumerate() {
        assert!(rt; is_refused(record, &with(record, change)), "{case}");
    }
}

/// An entry that stands for none.
fn no_entry() -> LogEntry {
    LogEntry {
        root: Ptr::hole(),
        dropped: false,
        stamp: 0,
    }
}

/// Whether a block of zeros is an empty descriptor, and its first entry stands for none.
fn are_empty(zeros: &[u8; 4096]) -> bool {
    read_descriptor(zeros) == Some(None) && read_entry(zeros, 0) == Some(no_entry())
}

#[test]
fn zeros_are_an_empty_descriptor_and_an_entry(rt: HostRuntime) {
    assert!(rt; are_empty(&[0; 4096]), "zeros");
    assert!(rt; read_entry(&[7; 4096], 126).is_none(), "sevens");
}
