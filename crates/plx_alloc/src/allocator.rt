//! What a boot keeps of space: the leases of extents that it holds, and its fresh blocks in hand.
ghost use Rattle.std.specs.Prelude.{◌≡◌, ◌≤◌, ◌<◌, ◌^◌, ◌+◌, ◌-◌, ◌++◌, ◌∷◌, ℕ, [], length, None, Some, IfOk, IsSome, option_copied};
ghost use Rattle.std.specs.Vec.{vec_len};
ghost use Rattle.arrayvec.specs.ArrayVec.{array_vec_len};
ghost use Rattle.plx_commands.specs.Limits.{last_claim};
ghost use Rattle.plx_geom.specs.Geometry.{IsGeometry};
ghost use Rattle.plx_alloc.specs.Pools.{AreInPool, AreOwn};

use crate::choosing::is_among;
use arrayvec::ArrayVec;
use plx_base::{BlockNo, Boot, ExtentNo, NoMemory};
use plx_commands::LAST_CLAIM;
use plx_geom::{Geometry, Place};
use plx_lease::later;
use plx_token::{Extent, Fresh, Held};
use std::alloc::Global;

/// How many blocks a hand can hold.
pub const HAND_LEN: usize = 256;

/// The leases of extents that one boot holds, its fresh blocks in hand in the order in which they
/// were taken, and how many claims it began.
#[derive(Drop)]
pub struct Allocator {
    geometry: Geometry,
    boot: Boot,
    extents: Vec<Option<Held<Extent>>>,
    hand: ArrayVec<BlockNo, HAND_LEN>,
    claims: u64,
    ghost limits: { IsGeometry geometry },
    ghost numbered: { boot.0 < 2 ^ 128 },
    ghost long: { vec_len extents ≡ geometry.extents },
    ghost begun: { claims ≤ last_claim },
    ghost pool: { AreInPool geometry hand.items },
    ghost own: { AreOwn extents.items },
}

impl Allocator {
    ghost use Rattle.plx_commands.specs.Places.{at};
    ghost use Rattle.plx_geom.specs.Geometry.{extent_lease, map_at};
    ghost use Rattle.plx_lease.specs.Renewing.{longer_hold};
    ghost use Rattle.plx_rules.specs.Hands.{blocks_without};
    ghost use Rattle.plx_rules.specs.Holds.{Nothing, first_hold};
    ghost use Rattle.plx_rules.specs.Rests.{extent_of};
    ghost use Rattle.plx_rules.specs.Space.{in_extent};
    ghost use Rattle.plx_alloc.specs.Pools.{IsInPool};
    ghost use Rattle.plx_alloc.specs.Tables.{HoldsHand, IsSame, claims_after, extent_number, first_extent, has_any, is_as, hand_numbers, held_hand, held_of, extent_hold, extent_leases, next_number, numbers};

    /// No lease is held, no block is in hand, and no claim was begun.
    pub fn new(alloc: Global, geometry: &Geometry, boot: Boot) -> Result<Allocator, NoMemory>
        ensures geometry { IfOk result (λ a. a.geometry ≡ geometry.now) }
        ensures boot { IfOk result (λ a. a.boot ≡ boot) }
        ensures leases { IfOk result (λ a. extent_leases a ≡ (λ extent. Nothing)) }
        ensures hand { IfOk result (λ a. hand_numbers a ≡ []) }
        ensures claims { IfOk result (λ a. a.claims ≡ 0) }
    {
        let count = geometry.extents;
        let mut extents = Vec::with_capacity(alloc, count as usize)?;
        for _ in 0..count {
            extents.push(None)?;
        }
        Ok(Allocator {
            geometry: *geometry,
            boot,
            extents,
            hand: ArrayVec::new(),
            claims: 0,
        })
    }

    /// The layout of the device.
    pub fn geometry(&self) -> Geometry
        ensures { result ≡ self.now.geometry }
    {
        self.geometry
    }

    /// The boot that it was made with.
    pub fn boot(&self) -> Boot
        ensures { result ≡ self.now.boot }
    {
        self.boot
    }

    /// How many claims the boot began, of any lease.
    pub fn claims(&self) -> u64
        ensures { result ≡ self.now.claims }
    {
        self.claims
    }

    /// The number of the boot's next claim of any lease, which is counted on, or `None` where the
    /// boot has no claim left.
    pub fn next_claim(&mut self) -> Option<u64>
        ensures number { result ≡ next_number self.old.claims }
        ensures claims { self.new.claims ≡ claims_after self.old.claims result }
        ensures leases { extent_leases self.new ≡ extent_leases self.old }
        ensures hand { hand_numbers self.new ≡ hand_numbers self.old }
        ensures same { IsSame self.old self.new }
    {
        if self.claims == LAST_CLAIM {
            return None;
        }
        let number = self.claims;
        self.claims = number + 1;
        Some(number)
    }

    /// The lease of an extent, where it is held.
    pub fn held(&self, extent: ExtentNo) -> Option<&Held<Extent>>
        ensures { option_copied result ≡ held_of self.now extent.0 }
    {
        self.extents.get(extent.0 as usize)?.as_ref()
    }

    /// The lease of an extent is taken out, where it is held; the hand stays.
    pub fn take_held(&mut self, extent: ExtentNo) -> Option<Held<Extent>>
        ensures taken { result ≡ held_of self.old extent.0 }
        ensures leases { extent_leases self.new ≡ at (extent_leases self.old) extent.0 Nothing }
        ensures hand { hand_numbers self.new ≡ hand_numbers self.old }
        ensures claims { self.new.claims ≡ self.old.claims }
        ensures same { IsSame self.old self.new }
    {
        match self.extents.get_mut(extent.0 as usize) {
            Some(held) => held.take(),
            None => None,
        }
    }

    /// The lease of an extent is held.
    pub fn put_held(&mut self, held: Held<Extent>)
        requires extent { held.lease.0.0 < self.old.geometry.extents }
        requires free { held_of self.old held.lease.0.0 ≡ None }
        ensures leases { extent_leases self.new ≡ at (extent_leases self.old) held.lease.0.0
            (extent_hold (Some held)) }
        ensures hand { hand_numbers self.new ≡ hand_numbers self.old }
        ensures claims { self.new.claims ≡ self.old.claims }
        ensures same { IsSame self.old self.new }
    {
        let extent = held.lease().0.0 as usize;
        self.extents[extent] = Some(held);
    }

    /// The lease of an extent is held up to this moment, in milliseconds, where it is held up to
    /// an earlier one; the hand stays.
    pub fn lengthen(&mut self, extent: ExtentNo, end: u64)
        requires { end < 2 ^ 49 }
        ensures leases { extent_leases self.new ≡ at (extent_leases self.old) extent.0
            (longer_hold end (extent_leases self.old extent.0)) }
        ensures hand { hand_numbers self.new ≡ hand_numbers self.old }
        ensures claims { self.new.claims ≡ self.old.claims }
        ensures same { IsSame self.old self.new }
    {
        if let Some(held) = self.take_held(extent) {
            let until = later(held.until(), end);
            self.put_held(held.renewed(until));
        }
    }

    /// The first extent from that one on whose lease is held, or, where `held` is false, isn't.
    pub(crate) fn next_extent(&self, from: u32, held: bool) -> Option<ExtentNo>
        requires { from ≤ self.now.geometry.extents }
        ensures { extent_number result ≡ first_extent
            (λ extent. is_as held (extent_leases self.now extent))
            (self.now.geometry.extents - from)
            from }
    {
        for index in from..self.geometry.extents {
            if self.stands_as(ExtentNo(index), held) {
                return Some(ExtentNo(index));
            }
        }
        None
    }

    // Whether the lease of an extent is held, or, where `held` is false, isn't.
    fn stands_as(&self, extent: ExtentNo, held: bool) -> bool
        ensures { result ≡ is_as held (extent_leases self.now extent.0) }
    {
        if held {
            return self.held(extent).is_some();
        }
        self.held(extent).is_none()
    }

    /// How many blocks are in hand.
    pub fn in_hand(&self) -> usize
        ensures { result ≡ length (hand_numbers self.now) }
    {
        self.hand.len()
    }

    /// The blocks in hand, in the order in which they were taken.
    pub fn hand(&self) -> &[BlockNo]
        ensures blocks { numbers result.now ≡ hand_numbers self.now }
        ensures most { length result.now ≤ 256 }
    {
        self.hand.as_slice()
    }

    /// Whether a block of an extent is in hand.
    pub fn has_in_hand(&self, extent: ExtentNo) -> bool
        ensures { result ≡ has_any (in_extent self.now.geometry extent.0 (hand_numbers self.now)) }
    {
        for block in self.hand.as_slice() {
            if self.extent_of(*block) == extent {
                return true;
            }
        }
        false
    }

    /// The first extent from that one on of which a block is in hand.
    pub fn next_in_hand(&self, from: u32) -> Option<ExtentNo>
        requires { from ≤ self.now.geometry.extents }
        ensures { extent_number result ≡ first_extent
            (λ extent. has_any (in_extent self.now.geometry extent (hand_numbers self.now)))
            (self.now.geometry.extents - from) from }
    {
        for index in from..self.geometry.extents {
            if self.has_in_hand(ExtentNo(index)) {
                return Some(ExtentNo(index));
            }
        }
        None
    }

    /// The block in hand that was taken first.
    pub fn next_fresh(&mut self) -> Fresh
        requires some { 0 < length (hand_numbers self.old) }
        requires held { HoldsHand self.old }
        ensures block { hand_numbers self.old ≡ result.block.0 ∷ hand_numbers self.new }
        ensures extent { result.extent.0 ≡ extent_of self.old.geometry result.block.0 }
        ensures leases { extent_leases self.new ≡ extent_leases self.old }
        ensures claims { self.new.claims ≡ self.old.claims }
        ensures same { IsSame self.old self.new }
    {
        let block = self.hand.remove(0);
        let extent = self.extent_of(block);
        Fresh::taken(block, self.held(extent).unwrap())
    }

    /// A fresh block is in hand again, as the last one.
    pub fn put_back(&mut self, fresh: Fresh)
        requires room { length (hand_numbers self.old) < 256 }
        requires held { IsSome (held_of self.old fresh.extent.0) }
        requires pool { IsInPool self.old.geometry fresh.block.0 }
        requires extent { extent_of self.old.geometry fresh.block.0 ≡ fresh.extent.0 }
        ensures hand { hand_numbers self.new ≡ hand_numbers self.old ++ fresh.block.0 ∷ [] }
        ensures leases { extent_leases self.new ≡ extent_leases self.old }
        ensures claims { self.new.claims ≡ self.old.claims }
        ensures same { IsSame self.old self.new }
    {
        self.hand.push(fresh.block());
        fresh.given_back();
    }

    /// These blocks were taken: they are in hand, as the last ones.
    pub(crate) fn add(&mut self, blocks: &ArrayVec<BlockNo, HAND_LEN>)
        requires room { array_vec_len self.old.hand + array_vec_len blocks.now ≤ 256 }
        requires pool { AreInPool self.old.geometry blocks.now.items }
        ensures hand { hand_numbers self.new ≡ hand_numbers self.old ++ numbers blocks.now.items }
        ensures len { array_vec_len self.new.hand
            ≡ array_vec_len self.old.hand + array_vec_len blocks.now }
        ensures leases { extent_leases self.new ≡ extent_leases self.old }
        ensures claims { self.new.claims ≡ self.old.claims }
        ensures same { IsSame self.old self.new }
    {
        let _ = self.hand.try_extend_from_slice(blocks.as_slice());
    }

    /// These blocks were given back: they aren't in hand any more.
    pub(crate) fn give(&mut self, blocks: &ArrayVec<BlockNo, HAND_LEN>)
        ensures hand { hand_numbers self.new ≡ blocks_without (numbers blocks.now.items)
            (hand_numbers self.old) }
        ensures leases { extent_leases self.new ≡ extent_leases self.old }
        ensures claims { self.new.claims ≡ self.old.claims }
        ensures same { IsSame self.old self.new }
    {
        let mut kept = ArrayVec::new();
        for block in self.hand.as_slice() {
            if !is_among(*block, blocks.as_slice()) {
                kept.push(*block);
            }
        }
        self.hand = kept;
    }

    /// The lease of an extent was released: it isn't held any more, and its blocks aren't in hand.
    pub(crate) fn release(&mut self, extent: ExtentNo)
        ensures leases { extent_leases self.new ≡ at (extent_leases self.old) extent.0 Nothing }
        ensures hand { hand_numbers self.new ≡ held_hand self.old.geometry (extent_leases self.new)
            (hand_numbers self.old) }
        ensures claims { self.new.claims ≡ self.old.claims }
        ensures same { IsSame self.old self.new }
    {
        if let Some(held) = self.take_held(extent) {
            held.released();
        }
        self.keep_held();
    }

    /// Each lease that this reading has reached is dropped, with the blocks in hand of its extent.
    pub fn drop_expired(&mut self, reading: u64)
        ensures leases { extent_leases self.new ≡ (λ extent. first_hold None reading
            (extent_leases self.old extent)) }
        ensures hand { hand_numbers self.new ≡ held_hand self.old.geometry (extent_leases self.new)
            (hand_numbers self.old) }
        ensures claims { self.new.claims ≡ self.old.claims }
        ensures same { IsSame self.old self.new }
    {
        for index in 0..self.geometry.extents {
            self.drop_reached(ExtentNo(index), reading);
        }
        self.keep_held();
    }

    /// No lease is held any more, and no block is in hand.
    pub fn drop_all(&mut self)
        ensures leases { extent_leases self.new ≡ (λ extent. Nothing) }
        ensures hand { hand_numbers self.new ≡ [] }
        ensures claims { self.new.claims ≡ self.old.claims }
        ensures same { IsSame self.old self.new }
    {
        for extent in self.extents.iter_mut() {
            *extent = None;
        }
        self.hand.clear();
    }

    /// The block of the map of an extent.
    pub(crate) fn map_block(&self, extent: ExtentNo) -> BlockNo
        requires { extent.0 < self.now.geometry.extents }
        ensures { result.0 ≡ map_at self.now.geometry extent.0 }
    {
        self.geometry.number(Place::Map(extent))
    }

    /// The number of the lease of an extent.
    pub(crate) fn lease_number(&self, extent: ExtentNo) -> u32
        requires { extent.0 < self.now.geometry.extents }
        ensures { result ≡ extent_lease self.now.geometry extent.0 }
    {
        1 + self.geometry.images + extent.0
    }

    /// The extent in which a block lies.
    pub fn extent_of(&self, block: BlockNo) -> ExtentNo
        requires { IsInPool self.now.geometry block.0 }
        ensures same { result.0 ≡ extent_of self.now.geometry block.0 }
        ensures within { result.0 < self.now.geometry.extents }
    {
        let start = self.geometry.number(Place::Map(ExtentNo(0))).0;
        ExtentNo(((block.0 - start) / u64::from(self.geometry.extent_blocks)) as u32)
    }

    // Drops the lease of an extent, where this reading has reached it.
    fn drop_reached(&mut self, extent: ExtentNo, reading: u64)
        requires { extent.0 < self.old.geometry.extents }
        ensures leases { extent_leases self.new ≡ at (extent_leases self.old) extent.0
            (first_hold None reading (extent_leases self.old extent.0)) }
        ensures hand { hand_numbers self.new ≡ hand_numbers self.old }
        ensures claims { self.new.claims ≡ self.old.claims }
        ensures same { IsSame self.old self.new }
    {
        match self.held(extent) {
            None => {}
            Some(held) => {
                if held.until() <= reading {
                    if let Some(over) = self.take_held(extent) {
                        over.dropped();
                    }
                }
            }
        }
    }

    // Of the hand those blocks stay whose extent's lease is held.
    fn keep_held(&mut self)
        ensures hand { hand_numbers self.new ≡ held_hand self.old.geometry (extent_leases self.old)
            (hand_numbers self.old) }
        ensures leases { extent_leases self.new ≡ extent_leases self.old }
        ensures claims { self.new.claims ≡ self.old.claims }
        ensures same { IsSame self.old self.new }
    {
        let mut kept = ArrayVec::new();
        for block in self.hand.as_slice() {
            if self.held(self.extent_of(*block)).is_some() {
                kept.push(*block);
            }
        }
        self.hand = kept;
    }
}
