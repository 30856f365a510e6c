//! What each command asks, with the bytes that it writes, where all goes well.
use crate::boot::{CLAIMED, CLAIMED_AGAIN, LIVE, Story, play_each};
use crate::content::Content::{Descriptor, Filled, FreeLease, FreeSlot, Lease, LiveSlot};
use crate::machine::Asked::{Attach, Create, Delete, Detach, Read, Renew, Write};
use crate::machine::Step;
use crate::machine::Step::{Begins, Bytes, Clock, Done, Ends, Until};
use plx_base::WriteKind;

const LIFE: &[Step] = &[
    Bytes(4, FreeSlot(4)),
    Clock(10_999),
    Ends(b"attached live=0 gen=4 size=0 writes=0 taken=0 dropped=0 label=-"),
    Begins(Create),
    Clock(2_000),
    Done(WriteKind::Record, 4, 11_000, LiveSlot(5, 0)),
    Clock(2_001),
    Ends(b"created"),
    // Two writes fill the journal's two slots, and a third one has no room.
    Begins(Write(1)),
    Clock(2_000),
    Done(WriteKind::JData, 7, 11_000, Filled(1)),
    Done(WriteKind::JCommit, 6, 11_000, Descriptor(5, 3, 1)),
    Clock(2_000),
    Ends(b"written 1"),
    Begins(Write(2)),
    Clock(2_000),
    Done(WriteKind::JData, 9, 11_000, Filled(2)),
    Done(WriteKind::JCommit, 8, 11_000, Descriptor(5, 3, 2)),
    Clock(2_000),
    Ends(b"written 2"),
    Begins(Write(3)),
    Clock(2_000),
    Ends(b"full"),
    Begins(Read),
    Clock(2_000),
    Clock(2_000),
    Ends(b"data all:02"),
    Begins(Delete),
    Clock(2_000),
    Done(WriteKind::Record, 4, 11_000, FreeSlot(5)),
    Clock(2_000),
    Ends(b"deleted"),
    Begins(Read),
    Clock(2_000),
    Ends(b"no-image"),
];

const DETACHED: &[Step] = &[
    Begins(Attach),
    Clock(2_000),
    Ends(b"already-attached"),
    Begins(Detach),
    Clock(2_000),
    Done(WriteKind::Release, 2, 11_000, FreeLease),
    Ends(b"detached"),
    Begins(Detach),
    Clock(2_000),
    Ends(b"not-attached"),
];

// A reading of a renew, and the moment up to which the lease is held then: the guard of the next
// write.

const RENEWED_AT_900: &[Step] = &[
    Begins(Renew),
    Clock(900),
    Done(WriteKind::Renew, 2, 11_000, Lease(7, 0, 1_000, 11_000)),
    Ends(b"renewed"),
    Begins(Write(9)),
    Clock(2_000),
    Done(WriteKind::JData, 7, 11_000, Filled(9)),
];

const RENEWED_AT_4_000: &[Step] = &[
    Begins(Renew),
    Clock(4_000),
    Done(WriteKind::Renew, 2, 11_000, Lease(7, 0, 1_000, 14_000)),
    Ends(b"renewed"),
    Begins(Write(9)),
    Clock(2_000),
    Done(WriteKind::JData, 7, 14_000, Filled(9)),
];

const RENEWED_AT_10_999: &[Step] = &[
    Begins(Renew),
    Clock(10_999),
    Done(WriteKind::Renew, 2, 11_000, Lease(7, 0, 1_000, 20_999)),
    Ends(b"renewed"),
    Begins(Write(9)),
    Clock(2_000),
    Done(WriteKind::JData, 7, 20_999, Filled(9)),
];

// What an attach finds of an image of generation 2: the number of the last write that its tree
// has, and both descriptors, with the data of those of its generation. Each write filled the block
// with its number.

const WRITES_1_AND_2: &[Step] = &[
    Bytes(4, LiveSlot(2, 0)),
    Bytes(6, Descriptor(2, 3, 1)),
    Bytes(7, Filled(1)),
    Bytes(8, Descriptor(2, 3, 2)),
    Bytes(9, Filled(2)),
    Clock(10_999),
    Ends(b"attached live=1 gen=2 size=8 writes=2 taken=0 dropped=0 label=a"),
    Begins(Read),
    Clock(2_000),
    Clock(2_000),
    Ends(b"data all:02"),
];

const WRITES_3_AND_2: &[Step] = &[
    Bytes(4, LiveSlot(2, 1)),
    Bytes(6, Descriptor(2, 3, 3)),
    Bytes(7, Filled(3)),
    Bytes(8, Descriptor(2, 3, 2)),
    Bytes(9, Filled(2)),
    Clock(10_999),
    Ends(b"attached live=1 gen=2 size=8 writes=3 taken=0 dropped=0 label=a"),
    Begins(Read),
    Clock(2_000),
    Clock(2_000),
    Ends(b"data all:03"),
];

const WRITE_1: &[Step] = &[
    Bytes(4, LiveSlot(2, 0)),
    Bytes(6, Descriptor(2, 3, 1)),
    Bytes(7, Filled(1)),
    Bytes(8, Descriptor(1, 3, 2)),
    Clock(10_999),
    Ends(b"attached live=1 gen=2 size=8 writes=1 taken=0 dropped=0 label=a"),
    Begins(Read),
    Clock(2_000),
    Clock(2_000),
    Ends(b"data all:01"),
];

const NO_WRITE: &[Step] = &[
    Bytes(4, LiveSlot(2, 0)),
    Bytes(6, Descriptor(1, 3, 1)),
    Bytes(8, Descriptor(3, 3, 2)),
    Clock(10_999),
    Ends(b"attached live=1 gen=2 size=8 writes=0 taken=0 dropped=0 label=a"),
    Begins(Read),
    Clock(2_000),
    Clock(2_000),
    Ends(b"data all:00"),
];

/// A lease of another boot at the last moment at which it may still be held, and at the first at
/// which it isn't.
const WAITED_FOR: &[Step] = &[
    Begins(Attach),
    Clock(20_000),
    Clock(11_100),
    Bytes(2, Lease(8, 5, 900, 11_000)),
    Ends(b"busy lease=image:0 boot=8 claim=5 sample=900 until=11000"),
    Begins(Attach),
    Clock(11_050),
    Clock(11_101),
    Bytes(2, Lease(8, 5, 900, 11_000)),
    Done(WriteKind::Claim, 2, 11_301, Lease(7, 1, 11_101, 21_101)),
    // A reading before the wait is over doesn't fit, and changes nothing.
    Until(11_702, 11_701),
    Until(11_702, 11_702),
    Bytes(2, Lease(7, 1, 11_101, 21_101)),
];

const STORIES: &[Story] = &[
    ("claimed anew", &[CLAIMED, LIVE, DETACHED, CLAIMED_AGAIN]),
    ("made, written, read and deleted", &[CLAIMED, LIFE]),
    (
        "renewed by an earlier reading",
        &[CLAIMED, LIVE, RENEWED_AT_900],
    ),
    ("renewed early", &[CLAIMED, LIVE, RENEWED_AT_4_000]),
    (
        "renewed at its last moment",
        &[CLAIMED, LIVE, RENEWED_AT_10_999],
    ),
    ("two writes", &[CLAIMED, WRITES_1_AND_2]),
    ("a write after the tree's", &[CLAIMED, WRITES_3_AND_2]),
    ("one write", &[CLAIMED, WRITE_1]),
    ("writes of other generations", &[CLAIMED, NO_WRITE]),
    ("a lease of another boot", &[WAITED_FOR]),
];

#[test]
fn commands_ask_for_what_they_need(rt: HostRuntime) {
    play_each(&rt, rt.alloc(), STORIES);
}
