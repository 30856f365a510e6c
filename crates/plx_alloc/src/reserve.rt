//! A take: blocks of extents come into hand.
ghost use Rattle.std.specs.Prelude.{◌≡◌, ◌≤◌, ◌<◌, ◌^◌, ◌+◌, ◌++◌, ℕ, List, length, Option, Some, None, IfOk};
ghost use Rattle.arrayvec.specs.ArrayVec.{array_vec_len};

use crate::allocator::{Allocator, HAND_LEN};
use crate::choosing::{choose, has_free};
use crate::room::MapRoom;
use crate::space_end::{SpaceEnd, lease_name, lost};
use crate::spell::spell_map;
use arrayvec::ArrayVec;
use plx_base::{Block, BlockNo, ExtentNo, LeaseRecord, WriteKind};
use plx_commands::{LAST_CLAIM, Reply};
use plx_disk::{Answer, Ask};
use plx_extent::ExtentMap;
use plx_lease::{ClaimEnd, InUse, LeaseClaim, first_reached};
use plx_token::Extent;

/// Which extents a take goes over: those whose leases are held, and then the others.
#[derive(Clone, Copy)]
pub enum Pass {
    /// The extents whose leases were held as it began.
    Held,
    /// The others.
    Others,
}

/// Where a take stands.
#[derive(Clone, Copy)]
pub enum ReserveAt {
    /// At the read of the map of an extent whose lease is held.
    Map,
    /// At the write of the map.
    Write,
    /// At the read of the map of an extent whose lease isn't held.
    Look,
    /// In the claim of the lease.
    Claim,
    /// At the reading after the map's bytes were outside the format.
    Damaged,
}

/// A lease that was busy.
#[derive(Clone, Copy)]
pub struct Met {
    /// The lease by its number.
    pub lease: u32,
    /// The record that stood there.
    pub seen: LeaseRecord,
}

/// A take, at one of its asks, with the machine of its claim.
#[derive(Drop)]
pub struct Reserve {
    at: ReserveAt,
    pass: Pass,
    count: u16,
    extent: ExtentNo,
    map: BlockNo,
    until: u64,
    claim: LeaseClaim<Extent>,
    uses: Option<InUse>,
    busy: Option<Met>,
    taken: Box<ArrayVec<BlockNo, HAND_LEN>>,
    out: Block,
    ghost most: { count ≤ 256 },
    ghost guard: { until < 2 ^ 49 },
}

impl Reserve {
    ghost use Rattle.plx_disk.specs.declared.ask.Answer.{Answer};
    ghost use Rattle.plx_commands.specs.declared.reply.Reply.TheVariants as reply;
    ghost use Rattle.plx_lease.specs.ClaimEnds.{claim_end};
    ghost use Rattle.plx_lease.specs.Claiming.{EndsWith};
    ghost use Rattle.plx_lease.specs.Uses.{use_of, uses_of};
    ghost use Rattle.plx_rules.specs.Boot.{Fits};
    ghost use Rattle.plx_rules.specs.Ends.{End, ends, in_time};
    ghost use Rattle.plx_token.specs.declared.kind.Extent.{Extent};
    ghost use Rattle.plx_rules.specs.Machines.{AreWhole, IsTimely};
    ghost use Rattle.plx_rules.specs.Process.{Process, answered, standing, bytes_out};
    ghost use Rattle.plx_rules.specs.Space.{Taking, after_extent_claim, extent_use, first_taking, other_found, read_map, shortage_process, take_found, take_process, with_taken};
    ghost use Rattle.plx_alloc.specs.Asking.{IsOnDevice, reserve_spares};
    ghost use Rattle.plx_alloc.specs.Ending.{after_space, space_process, space_end};
    ghost use Rattle.plx_alloc.specs.Suiting.{SuitsReserve};
    ghost use Rattle.plx_alloc.specs.Tables.{HoldsHand, IsSame, allocator_setting, hand_numbers, holds_of, extent_leases, numbers};
    ghost use Rattle.plx_alloc.specs.Moving.{GoesPast, ReadsFirst, TellsTaken, extent_leases_after_claim, found_tells, looked_starts, reserve_ask, reserve_moves};
    ghost use Rattle.plx_rules.specs.Hands.{found_by, hand_answered};
    ghost use Rattle.law_run.specs.Takes.{IsTakeAsk};
    ghost use Rattle.plx_alloc.specs.TakeEnds.{BeginsRightly, MovesOnRightly, reserve_after, reserve_begun, take_asked};
    ghost use Rattle.plx_alloc.specs.Takes.{Outer, busy_of, next_rest, outer_known, pass_rest, reserve_follows, reserve_rest, taking_of};

    /// So many blocks are to be in hand, at most 256: the take begins, with the memory of its
    /// writes and a block for its claims, or is over at once. Of the leases that its command has in
    /// use the one to be named stands for all.
    pub fn begin(
        count: u16,
        uses: Option<InUse>,
        room: MapRoom,
        lease: Block,
        space: &Allocator,
    ) -> Result<Reserve, SpaceEnd>
        requires most { count ≤ 256 }
        requires held { HoldsHand space.now }
        ensures rest { (o : Outer) → space_process (reserve_rest o space.now)
            (o.rest (first_taking (uses_of uses) (outer_known o space.now)
            (hand_numbers space.now)))
            (outer_known o space.now) result ≡ take_process (allocator_setting o.appliance space.now)
            (holds_of space.now) count o.rest
            (first_taking (uses_of uses) (outer_known o space.now) (hand_numbers space.now)) }
        ensures rules { (o : Outer) → BeginsRightly (take_asked o space.now uses count)
            (reserve_begun o space.now uses result) }
        ensures suits { IfOk result (λ m. SuitsReserve space.now m) }
        ensures reads { IfOk result (λ m. ReadsFirst m.at) }
    {
        let extent = ExtentNo(0);
        let block = BlockNo(1 + u64::from(space.lease_number(extent)));
        let mut take = Reserve {
            at: ReserveAt::Map,
            pass: Pass::Held,
            count,
            extent,
            map: space.map_block(extent),
            until: 0,
            claim: LeaseClaim::begin(Extent(extent), block, space.boot(), 0, None, lease),
            uses,
            busy: None,
            taken: room.moved,
            out: room.map,
        };
        match take.go_on(space, 0) {
            None => Ok(take),
            Some(end) => Err(end),
        }
    }

    /// The ask that stands.
    pub fn ask(&self) -> Ask
        ensures ask { (o : Outer) (a : Allocator)
            → Some result ≡ standing (reserve_rest o a self.now) }
        ensures same { result ≡ reserve_ask self.now }
        ensures within { (a : Allocator) → SuitsReserve a self.now → IsOnDevice a.geometry result }
        ensures spare { (a : Allocator) → SuitsReserve a self.now
            → reserve_spares self.now.at a.geometry self.now result }
        ensures rules { (o : Outer) (a : Allocator)
            → IsTakeAsk (reserve_rest o a self.now) result }
    {
        match self.at {
            ReserveAt::Map | ReserveAt::Look => Ask::Read { block: self.map },
            ReserveAt::Write => Ask::Write {
                kind: WriteKind::Take,
                block: self.map,
                guard: self.until,
            },
            ReserveAt::Claim => self.claim.ask(),
            ReserveAt::Damaged => Ask::Clock,
        }
    }

    /// The bytes of the write that is asked for.
    pub fn out(&self) -> &[u8]
        ensures bytes { (o : Outer) (a : Allocator)
            → result.now ≡ bytes_out (reserve_rest o a self.now) }
        ensures whole { (o : Outer) (a : Allocator)
            → AreWhole (standing (reserve_rest o a self.now)) result.now }
    {
        match self.at {
            ReserveAt::Write => self.out.as_slice(),
            ReserveAt::Claim => self.claim.out(),
            ReserveAt::Map | ReserveAt::Look | ReserveAt::Damaged => &[],
        }
    }

    /// The ask is answered.
    pub fn answer(&mut self, space: &mut Allocator, answer: &Answer) -> Option<SpaceEnd>
        requires suits { SuitsReserve space.old self.old }
        requires timely { IsTimely answer.now }
        ensures rest { (o : Outer) → after_space (reserve_rest o space.new self.new)
            (reserve_follows o space.new self.new) (outer_known o space.new) result
            ≡ answered (reserve_rest o space.old self.old) answer.now }
        ensures rules { (o : Outer) → MovesOnRightly (reserve_rest o space.old self.old) answer.now
            (reserve_after o space.new self.new result) }
        ensures suits { result ≡ None → SuitsReserve space.new self.new }
        ensures held { HoldsHand space.new }
        ensures same { IsSame space.old space.new }
        ensures leases { reserve_moves self.old.at space.old.geometry self.old self.new answer.now
            (extent_leases space.old) (extent_leases space.new) result }
        ensures hand { (found : Option (ℕ × List ℕ)) (bytes : List ℕ)
            → TellsTaken space.old.geometry self.old found
            → (self.old.at ≡ ReserveAt.Write → bytes ≡ self.old.out)
            → hand_numbers space.new ≡ hand_answered space.old.geometry found (reserve_ask self.old)
            bytes answer.now (hand_numbers space.old) }
        ensures found { Fits (reserve_ask self.old) answer.now → result ≡ None
            → TellsTaken space.new.geometry self.new (found_by (reserve_ask self.old) answer.now) }
    {
        match (self.at, answer) {
            (ReserveAt::Map, Answer::Bytes(bytes)) => self.found(space, bytes),
            (ReserveAt::Look, Answer::Bytes(bytes)) => self.after_look(space, bytes),
            (ReserveAt::Map | ReserveAt::Look, Answer::Fault) => {
                Some(SpaceEnd::Refused(Reply::ReadFault { block: self.map }))
            }
            (ReserveAt::Write, Answer::Done) => self.after_write(space),
            (ReserveAt::Write, Answer::Fault) => {
                Some(SpaceEnd::Refused(Reply::WriteFault { block: self.map }))
            }
            (ReserveAt::Write, Answer::Missed(reading)) => {
                Some(lost(&space.geometry(), self.own_use(space), *reading))
            }
            (ReserveAt::Claim, answer) => match self.claim.answer(answer) {
                None => None,
                Some(end) => self.claim_over(space, end),
            },
            (ReserveAt::Damaged, Answer::Reading(reading)) => Some(self.damaged(space, *reading)),
            _ => None,
        }
    }

    // The map of an extent whose lease is held was read: blocks of it are taken.
    fn found(&mut self, space: &Allocator, bytes: &Block) -> Option<SpaceEnd>
        requires suits { SuitsReserve space.now self.old }
        requires at { self.old.at ≡ ReserveAt.Map }
        ensures rest { (o : Outer) → after_space (reserve_rest o space.now self.new)
            (reserve_follows o space.now self.new) (outer_known o space.now) result
            ≡ take_found (allocator_setting o.appliance space.now) self.old.count self.old.extent.0
            self.old.until (read_map space.now.geometry.extent_blocks bytes.now)
            (next_rest o space.now self.old) (taking_of o space.now self.old) }
        ensures suits { result ≡ None → SuitsReserve space.now self.new }
        ensures tells { result ≡ None → found_tells self.new.at space.now.geometry self.new
            (Some (self.old.map.0, bytes.now)) }
    {
        let blocks = space.geometry().extent_blocks;
        let Some(mut bits) = ExtentMap::read(bytes.as_slice(), blocks) else {
            self.uses = Some(self.own_use(space).earlier(self.uses));
            self.at = ReserveAt::Damaged;
            return None;
        };
        let need = (self.count as usize).saturating_sub(space.in_hand());
        *self.taken = choose(&mut bits, blocks, self.map, space.hand(), need);
        if self.taken.is_empty() {
            return self.go_on(space, self.extent.0 + 1);
        }
        spell_map(&bits, &mut self.out);
        self.at = ReserveAt::Write;
        None
    }

    // The map was written: the blocks are in hand.
    fn after_write(&mut self, space: &mut Allocator) -> Option<SpaceEnd>
        requires suits { SuitsReserve space.old self.old }
        requires at { self.old.at ≡ ReserveAt.Write }
        ensures rest { (o : Outer) → after_space (reserve_rest o space.new self.new)
            (reserve_follows o space.new self.new) (outer_known o space.new) result
            ≡ next_rest o space.old self.old (with_taken (taking_of o space.old self.old)
            (numbers self.old.taken.value.items)) }
        ensures suits { result ≡ None → SuitsReserve space.new self.new }
        ensures held { HoldsHand space.new }
        ensures same { IsSame space.old space.new }
        ensures reads { result ≡ None → ReadsFirst self.new.at }
        ensures leases { extent_leases space.new ≡ extent_leases space.old }
        ensures hand { hand_numbers space.new ≡ hand_numbers space.old ++
            numbers self.old.taken.value.items }
    {
        space.add(&self.taken);
        self.taken.clear();
        self.go_on(space, self.extent.0 + 1)
    }

    // The map of an extent whose lease isn't held was read: where a block is free, the lease is
    // claimed.
    fn after_look(&mut self, space: &mut Allocator, bytes: &Block) -> Option<SpaceEnd>
        requires suits { SuitsReserve space.old self.old }
        requires at { self.old.at ≡ ReserveAt.Look }
        ensures rest { (o : Outer) → after_space (reserve_rest o space.new self.new)
            (reserve_follows o space.new self.new) (outer_known o space.new) result
            ≡ other_found (allocator_setting o.appliance space.old) self.old.count self.old.extent.0
            (read_map space.old.geometry.extent_blocks bytes.now) (next_rest o space.old self.old)
            (taking_of o space.old self.old) }
        ensures suits { result ≡ None → SuitsReserve space.new self.new }
        ensures held { HoldsHand space.new }
        ensures same { IsSame space.old space.new }
        ensures starts { result ≡ None → looked_starts self.new.at space.old.geometry self.new
            (extent_leases space.new) }
        ensures leases { extent_leases space.new ≡ extent_leases space.old }
        ensures hand { hand_numbers space.new ≡ hand_numbers space.old }
    {
        let blocks = space.geometry().extent_blocks;
        let Some(bits) = ExtentMap::read(bytes.as_slice(), blocks) else {
            self.at = ReserveAt::Damaged;
            return None;
        };
        if !has_free(&bits, blocks, self.map, space.hand()) {
            return self.go_on(space, self.extent.0 + 1);
        }
        let Some(number) = space.next_claim() else {
            return Some(SpaceEnd::Refused(Reply::WornOut { count: LAST_CLAIM }));
        };
        let lease = BlockNo(1 + u64::from(space.lease_number(self.extent)));
        self.claim.begin_next(Extent(self.extent), lease, space.boot(), number, self.uses);
        self.at = ReserveAt::Claim;
        None
    }

    // The claim has ended: where its lease is held, the map is read again.
    fn claim_over(&mut self, space: &mut Allocator, end: ClaimEnd<Extent>) -> Option<SpaceEnd>
        requires suits { SuitsReserve space.old self.old }
        requires claim { self.old.at ≡ ReserveAt.Claim }
        requires held { EndsWith self.old.claim.lease (Some end) }
        ensures rest { (o : Outer) → after_space (reserve_rest o space.new self.new)
            (reserve_follows o space.new self.new) (outer_known o space.new) result
            ≡ after_extent_claim
            (allocator_setting o.appliance space.old) self.old.count self.old.extent.0
            (next_rest o space.old self.old) (taking_of o space.old self.old) (claim_end end) }
        ensures suits { result ≡ None → SuitsReserve space.new self.new }
        ensures held { HoldsHand space.new }
        ensures same { IsSame space.old space.new }
        ensures reads { result ≡ None → ReadsFirst self.new.at }
        ensures goes_on { result ≡ None → GoesPast (claim_end end) }
        ensures claim { self.new.claim ≡ self.old.claim }
        ensures leases { extent_leases space.new ≡ extent_leases_after_claim
            (claim_end end) self.old.extent.0
            (extent_leases space.old) }
        ensures hand { hand_numbers space.new ≡ hand_numbers space.old }
    {
        let lease = space.lease_number(self.extent);
        let block = BlockNo(1 + u64::from(lease));
        match end {
            ClaimEnd::Held(held) => {
                self.until = held.until();
                self.uses = Some(self.own_use(space).earlier(self.uses));
                self.at = ReserveAt::Map;
                space.put_held(held);
                None
            }
            ClaimEnd::Busy { seen } => {
                self.busy = Some(self.busy.unwrap_or(Met { lease, seen }));
                self.go_on(space, self.extent.0 + 1)
            }
            ClaimEnd::Lost { due, reading } => Some(lost(&space.geometry(), due, reading)),
            ClaimEnd::ReadFault => Some(SpaceEnd::Refused(Reply::ReadFault { block })),
            ClaimEnd::WriteFault => Some(SpaceEnd::Refused(Reply::WriteFault { block })),
            ClaimEnd::Damaged => Some(SpaceEnd::Refused(Reply::Damaged { block })),
        }
    }

    // The end after bytes outside the format, unless the reading has reached a lease in use.
    fn damaged(&self, space: &Allocator, reading: u64) -> SpaceEnd
        ensures { (o : Outer) → space_end (reserve_follows o space.now self.now)
            (outer_known o space.now) result ≡ in_time (allocator_setting o.appliance space.now)
            (outer_known o space.now) (uses_of self.now.uses) reading
            (ends (reply.Damaged self.now.map) (outer_known o space.now)) }
    {
        match first_reached(self.uses, reading) {
            Some(due) => lost(&space.geometry(), due, reading),
            None => SpaceEnd::Refused(Reply::Damaged { block: self.map }),
        }
    }

    // The take goes on from an extent of its pass on.
    fn go_on(&mut self, space: &Allocator, from: u32) -> Option<SpaceEnd>
        requires from { from ≤ space.now.geometry.extents }
        requires room { array_vec_len self.old.taken.value ≡ 0 }
        requires held { HoldsHand space.now }
        ensures rest { (o : Outer) → after_space (reserve_rest o space.now self.new)
            (reserve_follows o space.now self.new) (outer_known o space.now) result
            ≡ pass_rest self.old.pass (allocator_setting o.appliance space.now) (holds_of space.now)
            self.old.count from o.rest (taking_of o space.now self.old) }
        ensures suits { result ≡ None → SuitsReserve space.now self.new }
        ensures reads { result ≡ None → ReadsFirst self.new.at }
        ensures claim { self.new.claim ≡ self.old.claim }
        ensures follows { (o : Outer) (a : Allocator)
            → reserve_follows o a self.new ≡ reserve_follows o a self.old }
    {
        if space.in_hand() >= self.count as usize {
            return Some(SpaceEnd::Done);
        }
        if let Pass::Others = self.pass {
            return self.go_on_others(space, from);
        }
        let Some(extent) = space.next_extent(from, true) else {
            self.pass = Pass::Others;
            return self.go_on_others(space, 0);
        };
        let until = space.held(extent).unwrap().until();
        self.extent = extent;
        self.map = space.map_block(extent);
        self.until = until;
        self.at = ReserveAt::Map;
        None
    }

    // The take goes on from an extent on, among those whose leases aren't held.
    fn go_on_others(&mut self, space: &Allocator, from: u32) -> Option<SpaceEnd>
        requires from { from ≤ space.now.geometry.extents }
        requires need { length (hand_numbers space.now) < self.old.count }
        requires others { self.old.pass ≡ Pass.Others }
        requires room { array_vec_len self.old.taken.value ≡ 0 }
        requires held { HoldsHand space.now }
        ensures rest { (o : Outer) → after_space (reserve_rest o space.now self.new)
            (reserve_follows o space.now self.new) (outer_known o space.now) result
            ≡ pass_rest Pass.Others (allocator_setting o.appliance space.now) (holds_of space.now)
            self.old.count from o.rest (taking_of o space.now self.old) }
        ensures suits { result ≡ None → SuitsReserve space.now self.new }
        ensures reads { result ≡ None → ReadsFirst self.new.at }
        ensures claim { self.new.claim ≡ self.old.claim }
        ensures follows { (o : Outer) (a : Allocator)
            → reserve_follows o a self.new ≡ reserve_follows o a self.old }
    {
        let Some(extent) = space.next_extent(from, false) else {
            return Some(self.refusal(space));
        };
        self.extent = extent;
        self.map = space.map_block(extent);
        self.at = ReserveAt::Look;
        None
    }

    // Too few blocks are in hand.
    fn refusal(&self, space: &Allocator) -> SpaceEnd
        ensures { (o : Outer) (follows : Process End)
            → space_end follows (outer_known o space.now) result
            ≡ shortage_process (allocator_setting o.appliance space.now) (outer_known o space.now)
            (busy_of self.now.busy) }
    {
        match self.busy {
            None => SpaceEnd::Refused(Reply::Full),
            Some(met) => SpaceEnd::Refused(Reply::Busy {
                lease: lease_name(&space.geometry(), met.lease),
                seen: met.seen,
            }),
        }
    }

    // The lease of the extent, which is in use.
    fn own_use(&self, space: &Allocator) -> InUse
        requires { self.now.extent.0 < space.now.geometry.extents }
        ensures { use_of result ≡ extent_use space.now.geometry self.now.extent.0 self.now.until }
    {
        InUse {
            lease: space.lease_number(self.extent),
            until: self.until,
        }
    }
}
