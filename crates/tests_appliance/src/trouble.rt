//! A fault, a missed write or a late reading, at each ask of a command, and what is held after it.
use crate::boot::{CLAIMED, CREATES, LIVE, Story, UNREAD, play, play_each};
use crate::content::Content::{Descriptor, Filled, FreeLease, Lease, LiveSlot, Zeros};
use crate::machine::Asked::{Attach, Detach, Read, Renew, Write};
use crate::machine::Outcome::{Goes, Stands, Told};
use crate::machine::Step::{Begins, Bytes, Clock, Done, Ends, Gets, Until};
use crate::machine::Trouble::{Fault, Missed, Reading};
use crate::machine::{Outcome, Step, Trouble};
use plx_base::WriteKind;
use std::alloc::Global;
use std::process::Abort;

/// After these parts a boot's ask is answered by trouble, with this outcome; and where that ended a command,
/// this comes next.
fn play_troubled(
    rt: &impl Abort,
    alloc: Global,
    name: &str,
    parts: &[&[Step]],
    (trouble, outcome): (Trouble, Outcome),
    next: &[Step],
) {
    let after = match outcome {
        Told(_) => next,
        Stands | Goes => &[],
    };
    play(rt, alloc, name, parts, &[Gets(trouble, outcome)], &[after]);
}

/// An attach of an image that was written once.
const WRITTEN_ONCE: &[Step] = &[
    Begins(Attach),
    Clock(1_000),
    Clock(1_000),
    Bytes(2, FreeLease),
    Done(WriteKind::Claim, 2, 1_200, Lease(7, 0, 1_000, 11_000)),
    Until(1_601, 1_601),
    Bytes(2, Lease(7, 0, 1_000, 11_000)),
    Bytes(4, LiveSlot(1, 0)),
    Bytes(6, Descriptor(1, 3, 1)),
    Bytes(7, Filled(9)),
    Bytes(8, Zeros),
];

/// The next attach holds the lease still: it reads the record.
const HOLDS: &[Step] = &[Begins(Attach), Clock(1_700), Bytes(4, LiveSlot(1, 0))];

/// The next attach claims the lease.
const CLAIMS: &[Step] = &[Begins(Attach), Clock(1_700), Clock(1_700)];

const LATE: Outcome = Told(b"lost lease=image:0 until=11000 reading=11000");

/// How many steps there are up to an ask of that attach, what follows a fault, a missed write, and
/// a reading at the lease's end, and what comes next after a fault.
const ATTACHING: &[(usize, Outcome, Outcome, Outcome, &[Step])] = &[
    (1, Stands, Stands, Goes, CLAIMS),
    (2, Stands, Stands, Goes, CLAIMS),
    (3, Told(b"read-fault block=2"), Stands, Stands, CLAIMS),
    (
        4,
        Told(b"write-fault block=2"),
        Told(b"lost lease=image:0 until=1200 reading=1201"),
        Stands,
        CLAIMS,
    ),
    (5, Stands, Stands, LATE, CLAIMS),
    (6, Told(b"read-fault block=2"), Stands, Stands, CLAIMS),
    (7, Told(b"read-fault block=4"), Stands, Stands, HOLDS),
    (8, Told(b"read-fault block=6"), Stands, Stands, HOLDS),
    (9, Told(b"read-fault block=7"), Stands, Stands, HOLDS),
    (10, Told(b"read-fault block=8"), Stands, Stands, HOLDS),
    (11, Stands, Stands, LATE, HOLDS),
];

#[test]
fn trouble_at_each_ask_of_an_attach(rt: HostRuntime) {
    for &(at, fault, missed, late, next) in ATTACHING {
        let alloc = rt.alloc();
        let up_to = WRITTEN_ONCE.get(..at).unwrap_or(WRITTEN_ONCE);
        let ask = [up_to];
        play_troubled(&rt, alloc, "a fault", &ask, (Fault, fault), next);
        play_troubled(&rt, alloc, "a miss", &ask, (Missed(1_201), missed), CLAIMS);
        play_troubled(&rt, alloc, "late", &ask, (Reading(11_000), late), CLAIMS);
    }
}

/// A command on an attached image up to one of its asks.
const WRITES: &[Step] = &[
    Begins(Write(9)),
    Clock(1_700),
    Done(WriteKind::JData, 7, 11_000, Filled(9)),
    Done(WriteKind::JCommit, 6, 11_000, Descriptor(1, 3, 1)),
];

const READS: &[Step] = &[Begins(Read), Clock(1_700)];

const RENEWS: &[Step] = &[Begins(Renew), Clock(1_700)];

const DETACHES: &[Step] = &[Begins(Detach), Clock(1_700)];

const MISSED: Outcome = Told(b"lost lease=image:0 until=11000 reading=11001");

/// A command, its steps up to one of its asks, and what follows a fault, a missed write, and a
/// reading at the lease's end.
const ATTACHED: &[(&str, &[Step], usize, Outcome, Outcome, Outcome)] = &[
    ("write", WRITES, 1, Stands, Stands, LATE),
    (
        "write",
        WRITES,
        2,
        Told(b"write-fault block=7"),
        MISSED,
        Stands,
    ),
    (
        "write",
        WRITES,
        3,
        Told(b"write-fault block=6"),
        MISSED,
        Stands,
    ),
    ("write", WRITES, 4, Stands, Stands, LATE),
    ("read", READS, 1, Stands, Stands, LATE),
    ("read", READS, 2, Stands, Stands, LATE),
    ("renew", RENEWS, 1, Stands, Stands, LATE),
    (
        "renew",
        RENEWS,
        2,
        Told(b"write-fault block=2"),
        MISSED,
        Stands,
    ),
    ("detach", DETACHES, 1, Stands, Stands, LATE),
    (
        "detach",
        DETACHES,
        2,
        Told(b"write-fault block=2"),
        MISSED,
        Stands,
    ),
];

/// Nothing is attached, and the next attach claims the lease.
const NOT_ATTACHED: &[Step] = &[
    Begins(Read),
    Clock(1_700),
    Ends(b"not-attached"),
    Begins(Attach),
    Clock(1_700),
    Clock(1_700),
];

#[test]
fn trouble_on_an_attached_image(rt: HostRuntime) {
    for &(name, steps, at, fault, missed, late) in ATTACHED {
        let alloc = rt.alloc();
        let up_to = steps.get(..at).unwrap_or(steps);
        let ask = [CLAIMED, LIVE, up_to];
        play_troubled(&rt, alloc, name, &ask, (Fault, fault), NOT_ATTACHED);
        play_troubled(
            &rt,
            alloc,
            name,
            &ask,
            (Missed(11_001), missed),
            NOT_ATTACHED,
        );
        play_troubled(
            &rt,
            alloc,
            name,
            &ask,
            (Missed(11_000), Stands),
            NOT_ATTACHED,
        );
        play_troubled(
            &rt,
            alloc,
            name,
            &ask,
            (Reading(11_000), late),
            NOT_ATTACHED,
        );
    }
}

const STORIES: &[Story] = &[
    // What the ask to write the record of a create is answered.
    (
        "a create whose write gets a read",
        &[
            CLAIMED,
            CREATES,
            &[
                Gets(Trouble::Read(Zeros), Stands),
                Done(WriteKind::Record, 4, 11_000, LiveSlot(1, 0)),
            ],
        ],
    ),
    (
        "a create whose write fails",
        &[
            CLAIMED,
            CREATES,
            &[Gets(Fault, Told(b"write-fault block=4"))],
        ],
    ),
    (
        "a create whose write is missed",
        &[CLAIMED, CREATES, &[Gets(Missed(11_001), MISSED)]],
    ),
    // The lease is claimed up to 11,000 ms. Then, where it is held and where it is over: a command
    // that is refused drops it too, and a renew renews it or nothing.
    (
        "a read while the lease is held",
        &[
            CLAIMED,
            UNREAD,
            &[
                Begins(Read),
                Clock(10_999),
                Ends(b"not-attached"),
                Begins(Attach),
                Clock(1_700),
                Bytes(4, LiveSlot(1, 0)),
            ],
        ],
    ),
    (
        "a read once the lease is over",
        &[
            CLAIMED,
            UNREAD,
            &[
                Begins(Read),
                Clock(11_000),
                Ends(b"not-attached"),
                Begins(Attach),
                Clock(1_700),
                Clock(1_700),
            ],
        ],
    ),
    (
        "a renew while the lease is held",
        &[
            CLAIMED,
            UNREAD,
            &[
                Begins(Renew),
                Clock(10_999),
                Done(WriteKind::Renew, 2, 11_000, Lease(7, 0, 1_000, 20_999)),
                Ends(b"renewed"),
                Begins(Attach),
                Clock(1_700),
                Bytes(4, LiveSlot(1, 0)),
            ],
        ],
    ),
    (
        "a renew once the lease is over",
        &[
            CLAIMED,
            UNREAD,
            &[
                Begins(Renew),
                Clock(11_000),
                Ends(b"renewed"),
                Begins(Attach),
                Clock(1_700),
                Clock(1_700),
            ],
        ],
    ),
];

#[test]
fn trouble_at_a_create_and_without_a_session(rt: HostRuntime) {
    play_each(&rt, rt.alloc(), STORIES);
}
