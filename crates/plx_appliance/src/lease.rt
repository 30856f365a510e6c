//! The leases that a boot holds.
ghost use Rattle.std.specs.Prelude.{◌≡◌};
ghost use Rattle.std.specs.Vec.{vec_len};

use crate::empty::{clear_places, empty_places};
use plx_base::{NoMemory, SlotNo};
use plx_lease::later;
use plx_token::{Held, Image};
use std::alloc::Global;
use std::mem;

/// The leases of images that a boot holds, by image slot.
#[derive(Drop)]
pub struct Leases {
    pub count: u32,
    pub leases: Vec<Option<Held<Image>>>,
    ghost long: { vec_len leases ≡ count },
}

impl Leases {
    ghost use Rattle.std.specs.Prelude.{◌<◌, ◌^◌, None, Some, IfOk, MatchOption};
    ghost use Rattle.plx_commands.specs.Places.{at};
    ghost use Rattle.plx_lease.specs.Renewing.{longer_hold};
    ghost use Rattle.plx_rules.specs.Holds.{Hold, Nothing};
    ghost use Rattle.plx_appliance.specs.Tokens.{image_hold, image_leases};

    /// No lease of so many images is held.
    pub fn new(alloc: Global, count: u32) -> Result<Leases, NoMemory>
        ensures none { IfOk result (λ l. image_leases l.leases.items ≡ (λ image. Nothing)) }
        ensures count { IfOk result (λ l. l.count ≡ count) }
    {
        let leases = empty_places(alloc, count)?;
        Ok(Leases { count, leases })
    }

    /// The lease of an image, where it is held.
    pub fn get(&self, slot: SlotNo) -> Option<&Held<Image>>
        ensures { MatchOption result (image_leases self.now.leases.items slot.0 ≡ Nothing)
            (λ held. image_leases self.now.leases.items slot.0 ≡ image_hold (Some held.now)) }
    {
        let index = slot.0 as usize;
        if index >= self.leases.len() {
            return None;
        }
        match &self.leases[index] {
            Some(held) => Some(held),
            None => None,
        }
    }

    /// The lease of an image isn't kept any more, where it was held.
    pub fn take(&mut self, slot: SlotNo) -> Option<Held<Image>>
        requires { slot.0 < self.old.count }
        ensures taken { image_hold result ≡ image_leases self.old.leases.items slot.0 }
        ensures held { image_leases self.new.leases.items
            ≡ at (image_leases self.old.leases.items) slot.0 Nothing }
        ensures count { self.new.count ≡ self.old.count }
    {
        mem::replace(&mut self.leases[slot.0 as usize], None)
    }

    /// The lease of an image is held.
    pub fn put(&mut self, slot: SlotNo, held: Held<Image>)
        requires { slot.0 < self.old.count }
        ensures held { image_leases self.new.leases.items
            ≡ at (image_leases self.old.leases.items) slot.0 (image_hold (Some held)) }
        ensures count { self.new.count ≡ self.old.count }
    {
        self.leases[slot.0 as usize] = Some(held);
    }

    /// The lease of an image is held up to this moment, where it is held up to an earlier one.
    pub fn lengthen(&mut self, slot: SlotNo, end: u64)
        requires { end < 2 ^ 49 }
        ensures held { image_leases self.new.leases.items
            ≡ at (image_leases self.old.leases.items) slot.0
            (longer_hold end (image_leases self.old.leases.items slot.0)) }
        ensures count { self.new.count ≡ self.old.count }
    {
        if slot.0 >= self.count {
            return;
        }
        if let Some(held) = self.take(slot) {
            let until = later(held.until(), end);
            self.put(slot, held.renewed(until));
        }
    }

    /// No lease is held any more.
    pub fn forget(&mut self)
        ensures none { image_leases self.new.leases.items ≡ (λ image. Nothing) }
        ensures count { self.new.count ≡ self.old.count }
    {
        clear_places(&mut self.leases);
    }
}
