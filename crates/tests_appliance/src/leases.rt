//! Leases that are claimed, renewed and released by hand, with their records written out.
ghost use Rattle.std.specs.Prelude.{◌≡◌, ◌<◌, ◌^◌, IfSome};

use crate::content::Content;
use crate::content::Content::{FreeBut, FreeLease, Lease, LeaseBut, Zeros};
use crate::machine::Outcome::{Stands, Told};
use crate::machine::Step::{Bytes, Clock, Done, Ends, Gets, Until};
use crate::machine::Trouble::{Fault, Missed, Read, Reading};
use crate::machine::{Machine, Step, first_wrong};
use plx_base::{Block, BlockNo, Boot, Claim, LeaseName, LeaseRecord, SlotNo, WriteKind};
use plx_commands::Reply;
use plx_disk::{Answer, Ask, Turn};
use plx_lease::{
    ClaimEnd, Claiming, InUse, LeaseClaim, LeaseRelease, ReleaseEnd, Renewing, RenewingEnd, Tokens,
};
use plx_token::{Claimed, Grant, Held, Image, Root, Unconfirmed};
use std::alloc::Global;
use std::process::Abort;

/// The block of the lease that is claimed: that of image 2.
const BLOCK: BlockNo = BlockNo(4);

const LEASE: Image = Image(SlotNo(2));

const BOOT: Boot = Boot(7);

/// The claim that boot 7 makes at 5,000 ms.
const CLAIM: Claim = Claim {
    boot: BOOT,
    number: 3,
    sample: 5_000,
};

/// What a claim of a free lease asks, and what it is answered.
const FIVE: &[Step] = &[
    Clock(5_000),
    Bytes(4, FreeLease),
    Done(WriteKind::Claim, 4, 5_200, Lease(7, 3, 5_000, 15_000)),
    Until(5_601, 5_601),
    Bytes(4, Lease(7, 3, 5_000, 15_000)),
];

impl Machine for LeaseClaim<Image> {
    fn asks(&mut self) -> Option<Ask> {
        Some(self.ask())
    }

    fn writes(&mut self, bytes: &[u8]) -> bool {
        self.out() == bytes
    }

    fn gets(&mut self, answer: &Answer) -> Option<Reply> {
        match self.answer(answer) {
            Some(end) => reply(end),
            None => None,
        }
    }
}

/// The reply of an attach whose claim ends so; none where the lease is held.
fn reply(end: ClaimEnd<Image>) -> Option<Reply> {
    let lease = LeaseName::Image(SlotNo(2));
    Some(match end {
        ClaimEnd::Held(_) => return None,
        ClaimEnd::Busy { seen } => Reply::Busy { lease, seen },
        ClaimEnd::Lost { due, reading } => Reply::Lost {
            lease: lease_name(due.lease),
            until: due.until,
            reading,
        },
        ClaimEnd::ReadFault => Reply::ReadFault { block: BLOCK },
        ClaimEnd::WriteFault => Reply::WriteFault { block: BLOCK },
        ClaimEnd::Damaged => Reply::Damaged { block: BLOCK },
    })
}

/// What the lease of this number is called: the root's is 0, and those of the images follow.
fn lease_name(number: u32) -> LeaseName {
    match number.checked_sub(1) {
        Some(slot) => LeaseName::Image(SlotNo(slot)),
        None => LeaseName::Root,
    }
}

/// After so many steps of the claim of a free lease it takes these. The root's lease may be in use
/// beside it, up to a moment.
fn claims(
    rt: &impl Abort,
    alloc: Global,
    name: &str,
    beside: Option<u64>,
    at: usize,
    steps: &[Step],
) {
    let others = match beside {
        Some(until) => Some(InUse { lease: 0, until }),
        None => None,
    };
    let before = FIVE.get(..at).unwrap_or(FIVE);
    assert_eq!(rt;
        first_wrong_step(alloc, others, before, steps),
        None,
        "{name}"
    );
}

/// The first step that isn't as it should be, of those before or else of those that follow.
fn first_wrong_step(
    alloc: Global,
    others: Option<InUse>,
    before: &[Step],
    steps: &[Step],
) -> Option<usize> {
    let Ok(out) = Block::zeros(alloc) else {
        return Some(0);
    };
    let mut claim = LeaseClaim::begin(LEASE, BLOCK, BOOT, 3, others, out);
    first_wrong(alloc, &mut claim, &[before]).or(first_wrong(alloc, &mut claim, &[steps]))
}

/// Blocks that are no lease.
const OUTSIDE: &[(&str, Content)] = &[
    ("zeros", Zeros),
    ("another magic", FreeBut(7, b'2')),
    ("another state", LeaseBut(8, 2)),
    ("a claim in a lease that is free", LeaseBut(8, 0)),
    ("a byte after the fields", LeaseBut(56, 1)),
    ("a byte between the fields", LeaseBut(12, 1)),
    (
        "an end less than 10,000 ms after the sample",
        Lease(8, 0, 900, 10_899),
    ),
    ("a number past its limit", Lease(8, 1 << 40, 900, 10_900)),
    (
        "a sample past its limit",
        Lease(8, 0, 1 << 48, (1 << 48) + 10_000),
    ),
    ("an end past its limit", Lease(8, 0, 900, 1 << 49)),
];

#[test]
fn bytes_that_are_no_lease_end_a_claim_after_one_more_reading(rt: HostRuntime) {
    for &(name, content) in OUTSIDE {
        let found = Bytes(4, content);
        let damaged = Ends(b"damaged block=4");
        let early = [found, Clock(20_000), damaged];
        claims(&rt, rt.alloc(), name, None, 1, &early);
        let late = [found, Clock(14_999), damaged];
        claims(&rt, rt.alloc(), name, None, 4, &late);
    }
}

/// A claim's last number, and the least moment up to which it can be held.
const LAST: Content = Lease(8, (1 << 40) - 1, 900, 10_900);

/// How long the root's lease is in use beside a claim, how many steps the claim has taken, and what
/// comes next.
const CLAIMS: &[(&str, Option<u64>, usize, &[Step])] = &[
    // A lease is busy up to 100 ms after its end.
    (
        "a lease that is over since 100 ms",
        None,
        0,
        &[
            Clock(11_000),
            Bytes(4, LAST),
            Ends(b"busy lease=image:2 boot=8 claim=1099511627775 sample=900 until=10900"),
        ],
    ),
    (
        "a lease that is over since 101 ms",
        None,
        0,
        &[
            Clock(11_001),
            Bytes(4, LAST),
            Done(WriteKind::Claim, 4, 11_201, Lease(7, 3, 11_001, 21_001)),
        ],
    ),
    // A claim that another record replaced is busy.
    (
        "replaced by a release",
        None,
        4,
        &[Bytes(4, FreeLease), Ends(b"busy lease=image:2 free")],
    ),
    (
        "replaced by another boot",
        None,
        4,
        &[
            Bytes(4, Lease(8, 3, 5_000, 15_000)),
            Ends(b"busy lease=image:2 boot=8 claim=3 sample=5000 until=15000"),
        ],
    ),
    (
        "replaced by another claim",
        None,
        4,
        &[
            Bytes(4, Lease(7, 4, 5_000, 15_000)),
            Ends(b"busy lease=image:2 boot=7 claim=4 sample=5000 until=15000"),
        ],
    ),
    (
        "replaced by another sample",
        None,
        4,
        &[
            Bytes(4, Lease(7, 3, 4_999, 15_000)),
            Ends(b"busy lease=image:2 boot=7 claim=3 sample=4999 until=15000"),
        ],
    ),
    (
        "replaced by another end",
        None,
        4,
        &[
            Bytes(4, Lease(7, 3, 5_000, 15_001)),
            Ends(b"busy lease=image:2 boot=7 claim=3 sample=5000 until=15001"),
        ],
    ),
    // A reading at the end of the claim's own lease loses it, and one before doesn't.
    ("a last moment", None, 3, &[Until(5_601, 14_999)]),
    (
        "a wait that is too long",
        None,
        3,
        &[
            Until(5_601, 15_000),
            Ends(b"lost lease=image:2 until=15000 reading=15000"),
        ],
    ),
    (
        "damaged too late",
        None,
        4,
        &[
            Bytes(4, Zeros),
            Clock(15_000),
            Ends(b"lost lease=image:2 until=15000 reading=15000"),
        ],
    ),
    // Faults and a missed write end a claim.
    (
        "a fault of the first read",
        None,
        1,
        &[Gets(Fault, Told(b"read-fault block=4"))],
    ),
    (
        "a fault of the second read",
        None,
        4,
        &[Gets(Fault, Told(b"read-fault block=4"))],
    ),
    (
        "a fault of the write",
        None,
        2,
        &[Gets(Fault, Told(b"write-fault block=4"))],
    ),
    (
        "a missed write",
        None,
        2,
        &[Gets(
            Missed(5_201),
            Told(b"lost lease=image:2 until=5200 reading=5201"),
        )],
    ),
    (
        "answers that don't fit",
        None,
        2,
        &[
            Gets(Reading(9), Stands),
            Gets(Read(FreeLease), Stands),
            Done(WriteKind::Claim, 4, 5_200, Lease(7, 3, 5_000, 15_000)),
        ],
    ),
    // A lease in use beside it: at its end, and where both are over the one that ended first.
    (
        "the root's lease is over",
        Some(5_000),
        0,
        &[
            Clock(5_000),
            Ends(b"lost lease=root until=5000 reading=5000"),
        ],
    ),
    (
        "both leases are over at once",
        Some(15_000),
        3,
        &[
            Until(5_601, 20_000),
            Ends(b"lost lease=root until=15000 reading=20000"),
        ],
    ),
    (
        "the claimed lease is over first",
        Some(15_001),
        3,
        &[
            Until(5_601, 20_000),
            Ends(b"lost lease=image:2 until=15000 reading=20000"),
        ],
    ),
];

#[test]
fn claims_are_busy_lost_and_failed(rt: HostRuntime) {
    for &(name, beside, at, steps) in CLAIMS {
        claims(&rt, rt.alloc(), name, beside, at, steps);
    }
}

impl Machine for Claiming<Image> {
    fn asks(&mut self) -> Option<Ask> {
        match self.turn() {
            Turn::Again => Some(self.ask()),
            Turn::Ended => None,
        }
    }

    fn writes(&mut self, bytes: &[u8]) -> bool {
        self.turn() == Turn::Again && self.out() == bytes
    }

    fn gets(&mut self, answer: &Answer) -> Option<Reply> {
        if self.turn() == Turn::Again {
            let _ = self.answer(answer);
        }
        None
    }
}

/// Whether a free lease is claimed in five steps, and held then.
fn is_claimed(alloc: Global) -> bool {
    let Ok(out) = Block::zeros(alloc) else {
        return false;
    };
    let mut claiming = Claiming::begin(LEASE, BLOCK, BOOT, 3, out);
    let wrong = first_wrong(alloc, &mut claiming, &[FIVE]);
    if wrong.is_some() || claiming.turn() == Turn::Again {
        return false;
    }
    match claiming.end() {
        ClaimEnd::Held(held) => is_held(&held, 15_000),
        _ => false,
    }
}

#[test]
fn a_free_lease_is_claimed_in_five_steps(rt: HostRuntime) {
    assert!(rt; is_claimed(rt.alloc()), "five steps");
}

/// Whether the lease is held by that claim up to this moment.
fn is_held(held: &Held<Image>, until: u64) -> bool {
    held.name() == LeaseName::Image(SlotNo(2)) && held.claim() == CLAIM && held.until() == until
}

/// The record of that claim.
const RECORD: LeaseRecord = LeaseRecord::Claimed {
    claim: CLAIM,
    until: 15_000,
};

/// The same with another end.
const LONGER: LeaseRecord = LeaseRecord::Claimed {
    claim: CLAIM,
    until: 15_001,
};

#[test]
fn a_claim_is_confirmed_by_its_own_record_before_its_end(rt: HostRuntime) {
    let late = Some(Unconfirmed::TooLate { now: 15_000 });
    let longer = Some(Unconfirmed::NotMine { seen: LONGER });
    assert!(rt; refusal(&RECORD, 14_999).is_none(), "its own record");
    assert!(rt; refusal(&LONGER, 15_000) == late, "at its end");
    assert!(rt; refusal(&LONGER, 14_999) == longer, "another record");
}

/// Why that claim isn't confirmed by this record after this reading.
fn refusal(seen: &LeaseRecord, now: u64) -> Option<Unconfirmed> {
    Claimed::new(Root, CLAIM).confirm(seen, now).err()
}

/// The lease as it is held by that claim.
fn held() -> Option<Held<Image>>
    ensures { IfSome result (λ held. held.lease.0.0 ≡ 2) }
{
    Claimed::new(LEASE, CLAIM).confirm(&RECORD, 14_999).ok()
}

/// Whether the lease is renewed at this reading, held up to this moment then, and released.
fn is_renewed(alloc: Global, reading: u64, until: u64) -> bool
    requires { reading < 2 ^ 48 }
{
    let Some(lease) = held() else {
        return false;
    };
    let Ok(out) = Block::zeros(alloc) else {
        return false;
    };
    let mut renewing = Renewing::begin(lease, BLOCK, reading, out);
    if !renews(alloc, &mut renewing, until) || renewing.turn() == Turn::Again {
        return false;
    }
    match renewing.end() {
        RenewingEnd::Held(lease) => is_released(alloc, lease, until),
        _ => false,
    }
}

/// Whether the renewal asks for the write of a lease that is held up to this moment. That is done.
fn renews(alloc: Global, renewing: &mut Renewing<Image>, until: u64) -> bool {
    if renewing.turn() == Turn::Ended {
        return false;
    }
    let asked = Ask::Write {
        kind: WriteKind::Renew,
        block: BLOCK,
        guard: 15_000,
    };
    let is_asked = renewing.ask() == asked && Lease(7, 3, 5_000, until).is(alloc, renewing.out());
    renewing.answer(&Answer::Done);
    is_asked
}

/// Whether the lease is held up to this moment, and released by the write of a lease that is free.
fn is_released(alloc: Global, lease: Held<Image>, until: u64) -> bool {
    let is_held = is_held(&lease, until);
    let Ok(out) = Block::zeros(alloc) else {
        return false;
    };
    let mut release = LeaseRelease::begin(lease, BLOCK, out);
    let asked = Ask::Write {
        kind: WriteKind::Release,
        block: BLOCK,
        guard: until,
    };
    is_held
        && release.ask() == asked
        && FreeLease.is(alloc, release.out())
        && matches!(release.answer(&Answer::Done), Some(ReleaseEnd::Released))
}

#[test]
fn a_held_lease_is_renewed_and_released(rt: HostRuntime) {
    assert!(rt; is_renewed(rt.alloc(), 4_999, 15_000), "held no longer");
    assert!(rt; is_renewed(rt.alloc(), 9_000, 19_000), "held longer");
}

/// Whether the lease of an image is held in its slot alone, until it is taken out.
fn is_kept(alloc: Global) -> bool {
    let Some(lease) = held() else {
        return false;
    };
    let Ok(mut tokens) = Tokens::new(alloc, 3) else {
        return false;
    };
    let is_empty = !has(&tokens, 2) && !has(&tokens, 3);
    tokens.put_image(lease);
    let is_put = has(&tokens, 2) && !has(&tokens, 1);
    let is_taken = takes(&mut tokens) && !has(&tokens, 2);
    tokens.drop_all();
    is_empty && is_put && is_taken && is_without_lease(&mut tokens)
}

#[test]
fn held_leases_are_kept_by_slot(rt: HostRuntime) {
    assert!(rt; is_kept(rt.alloc()), "slots");
}

/// Whether the lease is taken out, and grants what a claim's does.
fn takes(tokens: &mut Tokens) -> bool {
    match tokens.take_image(SlotNo(2)) {
        Some(lease) => grants(lease),
        None => false,
    }
}

/// Whether no lease is held of the root and past the slots.
fn is_without_lease(tokens: &mut Tokens) -> bool {
    tokens.root().is_none()
        && tokens.take_root().is_none()
        && tokens.take_image(SlotNo(9)).is_none()
}

/// Whether the lease of the image in this slot is held.
fn has(tokens: &Tokens, slot: u32) -> bool {
    tokens.image(SlotNo(slot)).is_some()
}

/// Whether the lease grants what a claim's does, until it is dropped.
fn grants(lease: Held<Image>) -> bool {
    let guard = Grant::image(&lease).and(Grant::image(&lease)).guard();
    let until = lease.until();
    lease.dropped();
    until == 15_000 && guard == 15_000
}
