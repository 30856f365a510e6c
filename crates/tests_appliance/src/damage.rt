//! Bytes outside the format, which no schedule can put on a device: an attach ends with them after
//! one more reading, as damaged or, where the lease is over then, as lost.
use crate::boot::{CLAIMED, CLAIMED_AGAIN, SAMPLED, WAITED, play};
use crate::content::Content;
use crate::content::Content::{Descriptor, Filled, Lease, LiveSlot, NoSlot, Zeros};
use crate::machine::Asked::Attach;
use crate::machine::Step;
use crate::machine::Step::{Begins, Bytes, Clock, Ends};

/// Blocks that are no lease.
const NO_LEASES: &[(&str, Content)] = &[
    ("zeros", Zeros),
    (
        "an end less than 10,000 ms after the sample",
        Lease(7, 0, 1_000, 10_999),
    ),
    (
        "a number that no claim has",
        Lease(7, 1 << 40, 1_000, 11_000),
    ),
];

/// No lease is in use yet, so that no reading is too late.
const NOT_LATE: &[Step] = &[Clock(90_000), Ends(b"damaged block=2")];

/// One more reading ends the command: before the lease's end as damaged, from it on as lost.
const DAMAGED: &[Step] = &[Clock(10_999), Ends(b"damaged block=2")];

const LOST: &[Step] = &[
    Clock(11_000),
    Ends(b"lost lease=image:0 until=11000 reading=11000"),
];

#[test]
fn what_is_no_lease_is_neither_claimed_nor_held(rt: HostRuntime) {
    for &(name, content) in NO_LEASES {
        let alloc = rt.alloc();
        let found = [Bytes(2, content)];
        play(&rt, alloc, name, &[SAMPLED], &found, &[NOT_LATE]);
        let waited = [SAMPLED, WAITED];
        play(&rt, alloc, name, &waited, &found, &[DAMAGED, CLAIMED_AGAIN]);
        play(&rt, alloc, name, &waited, &found, &[LOST, CLAIMED_AGAIN]);
    }
}

/// What an attach reads from the record on, and how it ends before the end of the lease.
const JOURNALS: &[(&str, &[Step], &[Step])] = &[
    (
        "no record",
        &[Bytes(4, NoSlot(2))],
        &[Clock(10_999), Ends(b"damaged block=4")],
    ),
    (
        "no descriptor",
        &[Bytes(4, LiveSlot(2, 0)), Bytes(6, Descriptor(0, 3, 1))],
        &[Clock(10_999), Ends(b"damaged block=6")],
    ),
    (
        "another slot's descriptor",
        &[
            Bytes(4, LiveSlot(2, 0)),
            Bytes(6, Descriptor(2, 3, 1)),
            Bytes(7, Filled(9)),
            Bytes(8, Descriptor(2, 3, 3)),
        ],
        &[Clock(10_999), Ends(b"damaged block=8")],
    ),
    (
        "a virtual block past the image's end",
        &[Bytes(4, LiveSlot(2, 0)), Bytes(6, Descriptor(2, 8, 1))],
        &[Clock(10_999), Ends(b"damaged block=6")],
    ),
    (
        "a write without the one before it",
        &[
            Bytes(4, LiveSlot(2, 0)),
            Bytes(6, Descriptor(1, 3, 1)),
            Bytes(8, Descriptor(2, 3, 2)),
            Bytes(9, Filled(9)),
        ],
        &[Clock(10_999), Ends(b"damaged block=8")],
    ),
];

/// A damaged image's lease is held still: the next attach reads the record.
const HELD: &[Step] = &[Begins(Attach), Clock(1_700), Bytes(4, LiveSlot(2, 0))];

/// A lost one is claimed anew.
const ANEW: &[Step] = &[Begins(Attach), Clock(1_700), Clock(1_700)];

#[test]
fn an_image_whose_journal_is_damaged_is_not_attached(rt: HostRuntime) {
    for &(name, found, damaged) in JOURNALS {
        let alloc = rt.alloc();
        play(&rt, alloc, name, &[CLAIMED], found, &[damaged, HELD]);
        play(&rt, alloc, name, &[CLAIMED], found, &[LOST, ANEW]);
    }
}
