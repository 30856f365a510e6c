//! The blocks in hand of an extent are given back: its map is written with their bits cleared.
ghost use Rattle.std.specs.Prelude.{◌≡◌, ◌≢◌, ◌<◌, ◌^◌, ◌∷◌, ℕ, List, [], Option, Some, None, IsSome};

use crate::allocator::{Allocator, HAND_LEN};
use crate::choosing::clear;
use crate::room::MapRoom;
use crate::space_end::{SpaceEnd, lost};
use crate::spell::spell_map;
use arrayvec::ArrayVec;
use plx_base::{Block, BlockNo, ExtentNo, WriteKind};
use plx_commands::Reply;
use plx_disk::{Answer, Ask};
use plx_extent::ExtentMap;
use plx_lease::{InUse, first_reached};

/// Where the giving back of an extent's blocks stands.
#[derive(Clone, Copy)]
pub enum GivingAt {
    /// At the read of the map.
    Map,
    /// At the write of the map.
    Write,
    /// At the reading after the map's bytes were outside the format.
    Damaged,
}

/// The giving back of the blocks in hand of an extent whose lease is held, at one of its asks.
#[derive(Drop)]
pub struct Giving {
    at: GivingAt,
    extent: ExtentNo,
    map: BlockNo,
    lease: u32,
    until: u64,
    uses: Option<InUse>,
    given: Box<ArrayVec<BlockNo, HAND_LEN>>,
    out: Block,
    ghost guard: { until < 2 ^ 49 },
}

impl Giving {
    ghost use Rattle.plx_commands.specs.declared.reply.Reply.TheVariants as reply;
    ghost use Rattle.plx_disk.specs.declared.ask.Answer.{Answer};
    ghost use Rattle.plx_lease.specs.Uses.{use_of, uses_of};
    ghost use Rattle.plx_rules.specs.Boot.{Fits};
    ghost use Rattle.plx_rules.specs.Ends.{ends, in_time};
    ghost use Rattle.plx_rules.specs.Hands.{found_by, hand_answered};
    ghost use Rattle.plx_rules.specs.Machines.{AreWhole};
    ghost use Rattle.plx_rules.specs.Process.{answered, standing, bytes_out};
    ghost use Rattle.plx_rules.specs.Space.{give_found, in_extent, read_map};
    ghost use Rattle.plx_alloc.specs.Asking.{IsOnDevice, SparesLeases};
    ghost use Rattle.plx_alloc.specs.Ending.{after_space, space_end};
    ghost use Rattle.plx_alloc.specs.GiveRules.{IsGiveAsk};
    ghost use Rattle.plx_alloc.specs.Gives.{Around, around_known, giving_rest, retire_use};
    ghost use Rattle.plx_alloc.specs.Moving.{KeepsExtent, TellsGiven, giving_ask};
    ghost use Rattle.plx_alloc.specs.Suiting.{IsHeldUntil, SuitsGiving};
    ghost use Rattle.plx_alloc.specs.Tables.{HoldsHand, IsSame, allocator_setting, hand_numbers, held_of, extent_leases};

    /// A giving back of nothing yet, with the memory of its writes. Of the leases that its command
    /// has in use the one to be named stands for all.
    pub fn idle(room: MapRoom, uses: Option<InUse>) -> Giving
        ensures { result.uses ≡ uses }
    {
        Giving {
            at: GivingAt::Map,
            extent: ExtentNo(0),
            map: BlockNo(0),
            lease: 0,
            until: 0,
            uses,
            given: room.moved,
            out: room.map,
        }
    }

    /// The blocks in hand of an extent whose lease is held are to be given back.
    pub fn begin(&mut self, extent: ExtentNo, space: &Allocator)
        requires inside { extent.0 < space.now.geometry.extents }
        requires lease { IsSome (held_of space.now extent.0) }
        requires held { HoldsHand space.now }
        ensures at { self.new.at ≡ GivingAt.Map }
        ensures extent { self.new.extent ≡ extent }
        ensures until { IsHeldUntil space.now extent.0 self.new.until }
        ensures uses { self.new.uses ≡ self.old.uses }
        ensures suits { SuitsGiving space.now self.new }
    {
        self.until = space.held(extent).unwrap().until();
        self.at = GivingAt::Map;
        self.extent = extent;
        self.map = space.map_block(extent);
        self.lease = space.lease_number(extent);
        self.given.clear();
    }

    /// The extent.
    pub fn extent(&self) -> ExtentNo
        ensures { result ≡ self.now.extent }
    {
        self.extent
    }

    /// Its lease, which is in use.
    pub fn own_use(&self) -> InUse
        ensures { use_of result ≡ retire_use self.now }
    {
        InUse {
            lease: self.lease,
            until: self.until,
        }
    }

    /// The ask that stands.
    pub fn ask(&self) -> Ask
        ensures ask { (o : Around) (a : Allocator)
            → Some result ≡ standing (giving_rest o a self.now) }
        ensures same { result ≡ giving_ask self.now }
        ensures within { (a : Allocator) → SuitsGiving a self.now → IsOnDevice a.geometry result }
        ensures spare { (a : Allocator) → SuitsGiving a self.now → SparesLeases a.geometry result }
        ensures rules { (o : Around) (a : Allocator) → IsGiveAsk (giving_rest o a self.now) result }
    {
        match self.at {
            GivingAt::Map => Ask::Read { block: self.map },
            GivingAt::Write => Ask::Write {
                kind: WriteKind::Give,
                block: self.map,
                guard: self.until,
            },
            GivingAt::Damaged => Ask::Clock,
        }
    }

    /// The bytes of the write that is asked for.
    pub fn out(&self) -> &[u8]
        ensures bytes { (o : Around) (a : Allocator)
            → result.now ≡ bytes_out (giving_rest o a self.now) }
        ensures whole { (o : Around) (a : Allocator)
            → AreWhole (standing (giving_rest o a self.now)) result.now }
    {
        match self.at {
            GivingAt::Write => self.out.as_slice(),
            GivingAt::Map | GivingAt::Damaged => &[],
        }
    }

    /// The ask is answered; it is done once the blocks aren't in hand any more.
    pub fn answer(&mut self, space: &mut Allocator, answer: &Answer) -> Option<SpaceEnd>
        requires suits { SuitsGiving space.old self.old }
        ensures rest { (o : Around) → after_space (giving_rest o space.new self.new) o.rest
            (around_known o space.new) result
            ≡ answered (giving_rest o space.old self.old) answer.now }
        ensures suits { SuitsGiving space.new self.new }
        ensures extent { KeepsExtent self.old self.new }
        ensures same { IsSame space.old space.new }
        ensures claims { space.new.claims ≡ space.old.claims }
        ensures leases { extent_leases space.new ≡ extent_leases space.old }
        ensures others { (other : ℕ) → other ≢ self.old.extent.0
            → in_extent space.old.geometry other (hand_numbers space.new)
            ≡ in_extent space.old.geometry other (hand_numbers space.old) }
        ensures hand { (o : Around) (found : Option (ℕ × List ℕ)) (bytes : List ℕ)
            → TellsGiven space.old.geometry self.old found
            → bytes ≡ bytes_out (giving_rest o space.old self.old)
            → hand_numbers space.new ≡ hand_answered space.old.geometry found (giving_ask self.old)
            bytes answer.now (hand_numbers space.old) }
        ensures found { Fits (giving_ask self.old) answer.now → result ≡ None
            → TellsGiven space.new.geometry self.new (found_by (giving_ask self.old) answer.now) }
    {
        match (self.at, answer) {
            (GivingAt::Map, Answer::Bytes(bytes)) => {
                self.found(space, bytes);
                None
            }
            (GivingAt::Map, Answer::Fault) => {
                Some(SpaceEnd::Refused(Reply::ReadFault { block: self.map }))
            }
            (GivingAt::Write, Answer::Done) => {
                space.give(&self.given);
                Some(SpaceEnd::Done)
            }
            (GivingAt::Write, Answer::Fault) => {
                Some(SpaceEnd::Refused(Reply::WriteFault { block: self.map }))
            }
            (GivingAt::Write, Answer::Missed(reading)) => {
                Some(lost(&space.geometry(), self.own_use(), *reading))
            }
            (GivingAt::Damaged, Answer::Reading(reading)) => Some(self.damaged(space, *reading)),
            _ => None,
        }
    }

    // The map was read: the bits of the blocks in hand are cleared.
    fn found(&mut self, space: &Allocator, bytes: &Block)
        requires suits { SuitsGiving space.now self.old }
        requires at { self.old.at ≡ GivingAt.Map }
        ensures rest { (o : Around) → giving_rest o space.now self.new
            ≡ give_found (allocator_setting o.appliance space.now)
            (around_known o space.now) (uses_of self.old.uses) self.old.extent.0
            self.old.until (in_extent space.now.geometry self.old.extent.0 (hand_numbers space.now))
            (read_map space.now.geometry.extent_blocks bytes.now) o.rest }
        ensures suits { SuitsGiving space.now self.new }
        ensures extent { KeepsExtent self.old self.new }
        ensures tells { TellsGiven space.now.geometry self.new (Some (self.old.map.0, bytes.now)) }
    {
        let blocks = space.geometry().extent_blocks;
        let Some(mut bits) = ExtentMap::read(bytes.as_slice(), blocks) else {
            self.at = GivingAt::Damaged;
            return;
        };
        *self.given = clear(&mut bits, blocks, self.map, space.hand());
        spell_map(&bits, &mut self.out);
        self.at = GivingAt::Write;
    }

    // The end after bytes outside the format, unless the reading has reached a lease in use.
    fn damaged(&self, space: &Allocator, reading: u64) -> SpaceEnd
        ensures { (o : Around) → space_end o.rest (around_known o space.now) result
            ≡ in_time (allocator_setting o.appliance space.now) (around_known o space.now)
            (retire_use self.now ∷ uses_of self.now.uses) reading (ends (reply.Damaged self.now.map)
            (around_known o space.now)) }
    {
        let beside = first_reached(self.uses, reading);
        match self.own_use().reached(beside, reading) {
            Some(due) => lost(&space.geometry(), due, reading),
            None => SpaceEnd::Refused(Reply::Damaged { block: self.map }),
        }
    }
}
