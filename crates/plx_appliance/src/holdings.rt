//! What a boot keeps between commands, and lends to the one that runs.
ghost use Rattle.std.specs.Prelude.{◌≡◌};
ghost use Rattle.plx_alloc.specs.Tables.{HoldsHand};

use crate::lease::Leases;
use crate::sessions::Sessions;
use plx_alloc::Allocator;
use plx_base::{LeaseName, NoMemory, SlotNo};
use plx_commands::Reply;
use plx_disk::{Answer, Ask};
use plx_session::{Leased, Setting};
use std::alloc::Global;

/// What a boot is given, its sessions, the leases of images that it holds, and what it keeps of space, with how many claims it began.
#[derive(Drop)]
pub struct Holdings {
    pub setting: Setting,
    pub sessions: Sessions,
    pub leases: Leases,
    pub space: Allocator,
    ghost images: { sessions.count ≡ setting.geometry.images },
    ghost slots: { sessions.slots ≡ setting.geometry.slots },
    ghost leased: { leases.count ≡ setting.geometry.images },
    ghost geometry: { space.geometry ≡ setting.geometry },
    ghost boot: { space.boot ≡ setting.boot },
    ghost handed: { HoldsHand space },
}

impl Holdings {
    ghost use Rattle.std.specs.Prelude.{ℕ, [], Ok, Err, IfOk, ◌<◌, ◌^◌};
    ghost use Rattle.plx_rules.specs.Process.{Process};
    ghost use Rattle.plx_rules.specs.Commands.{held_process};
    ghost use Rattle.plx_rules.specs.Ends.{End};
    ghost use Rattle.plx_rules.specs.Session.{Known};
    ghost use Rattle.plx_appliance.specs.AfterReply.{hand_after_reply, leases_after};
    ghost use Rattle.plx_session.specs.Ending.{known_after};
    ghost use Rattle.plx_session.specs.Giving.{rules_setting};
    ghost use Rattle.plx_appliance.specs.Taking.{leased_process};
    ghost use Rattle.plx_commands.specs.Places.{at};
    ghost use Rattle.plx_rules.specs.Holds.{Nothing, first_hold};
    ghost use Rattle.plx_appliance.specs.Holding.{DropsNothing, image_leases_after_write, dropped_hand, first_extents, first_leases};
    ghost use Rattle.plx_appliance.specs.Renews.{longer_extents, longer_images};
    ghost use Rattle.plx_appliance.specs.Space.{extents_in, hand_in, held_hand};
    ghost use Rattle.plx_rules.specs.Session.{nothing_known};
    ghost use Rattle.plx_appliance.specs.Kept.{known_of};
    ghost use Rattle.plx_appliance.specs.Tokens.{image_leases};

    /// A boot that has asked nothing.
    pub fn new(alloc: Global, setting: Setting) -> Result<Holdings, NoMemory>
        ensures setting { IfOk result (λ h. h.setting ≡ setting) }
        ensures known { IfOk result (λ h. known_of h ≡ nothing_known 0) }
        ensures leases { IfOk result (λ h. image_leases h.leases.leases.items
            ≡ (λ image. Nothing)) }
        ensures extents { IfOk result (λ h. extents_in h ≡ (λ extent. Nothing)) }
        ensures hand { IfOk result (λ h. hand_in h ≡ []) }
    {
        let geometry = setting.geometry;
        let sessions = Sessions::new(alloc, geometry.images, geometry.slots)?;
        let leases = Leases::new(alloc, geometry.images)?;
        let space = Allocator::new(alloc, &geometry, setting.boot)?;
        Ok(Holdings {
            setting,
            sessions,
            leases,
            space,
        })
    }

    /// Nothing is known any more, and no lease is held.
    pub fn forget(&mut self)
        ensures setting { self.new.setting ≡ self.old.setting }
        ensures known { known_of self.new ≡ nothing_known self.old.space.claims }
        ensures leases { image_leases self.new.leases.leases.items ≡ (λ image. Nothing) }
        ensures extents { extents_in self.new ≡ (λ extent. Nothing) }
        ensures hand { hand_in self.new ≡ [] }
    {
        self.sessions.forget();
        self.leases.forget();
        self.space.drop_all();
    }

    /// The image's lease is held, and the reading hasn't reached its end; or the refusal.
    pub fn leased(&self, slot: SlotNo, reading: u64) -> Result<Leased, Reply>
        requires { slot.0 < self.now.setting.geometry.images }
        ensures process { (known : Known) (rest : ℕ → Process End) →
            leased_process rest known result ≡ held_process (rules_setting self.now.setting) known slot.0
            (image_leases self.now.leases.leases.items slot.0) reading rest }
        ensures slot { (image : Leased) → result ≡ Ok image → image.slot ≡ slot }
        ensures setting { (image : Leased) → result ≡ Ok image → image.setting ≡ self.now.setting }
    {
        let Some(held) = self.leases.get(slot) else {
            return Err(Reply::NotAttached);
        };
        let image = Leased {
            setting: self.setting,
            slot,
            until: held.until(),
        };
        if let Some(reply) = image.reached(reading) {
            return Err(reply);
        }
        Ok(image)
    }

    /// After a lost lease and a failed write no session is left, and after a lost lease none is held.
    pub fn settle(&mut self, reply: &Reply)
        ensures setting { self.new.setting ≡ self.old.setting }
        ensures known { known_of self.new ≡ known_after reply.now (known_of self.old) }
        ensures leases { image_leases self.new.leases.leases.items
            ≡ leases_after reply.now (image_leases self.old.leases.leases.items) }
        ensures extents { extents_in self.new ≡ leases_after reply.now (extents_in self.old) }
        ensures hand { hand_in self.new ≡ hand_after_reply reply.now (hand_in self.old) }
    {
        match reply {
            Reply::Lost { .. } => self.forget(),
            Reply::WriteFault { .. } => self.sessions.forget(),
            _ => {}
        }
    }

    /// A write that failed or was missed drops every lease.
    pub fn drop_failed(&mut self, ask: &Ask, answer: &Answer)
        ensures setting { self.new.setting ≡ self.old.setting }
        ensures known { known_of self.new ≡ known_of self.old }
        ensures leases { image_leases self.new.leases.leases.items
            ≡ image_leases_after_write ask.now answer.now
            (image_leases self.old.leases.leases.items) }
        ensures extents { extents_in self.new ≡ image_leases_after_write ask.now answer.now
            (extents_in self.old) }
        ensures hand { hand_in self.new ≡ dropped_hand ask.now answer.now (hand_in self.old) }
        ensures kept { DropsNothing ask.now answer.now → self.new ≡ self.old }
    {
        match (ask, answer) {
            (Ask::Write { .. }, Answer::Fault | Answer::Missed(_)) => {
                self.leases.forget();
                self.space.drop_all();
            }
            _ => {}
        }
    }

    /// This lease is held up to this moment, in milliseconds, where it is held up to an earlier
    /// one; the root's never is.
    pub fn lengthen(&mut self, lease: LeaseName, end: u64)
        requires { end < 2 ^ 49 }
        ensures setting { self.new.setting ≡ self.old.setting }
        ensures known { known_of self.new ≡ known_of self.old }
        ensures leases { image_leases self.new.leases.leases.items
            ≡ longer_images lease end (image_leases self.old.leases.leases.items) }
        ensures extents { extents_in self.new ≡ longer_extents lease end (extents_in self.old) }
        ensures hand { hand_in self.new ≡ hand_in self.old }
    {
        match lease {
            LeaseName::Root => {}
            LeaseName::Image(slot) => self.leases.lengthen(slot, end),
            LeaseName::Extent(extent) => self.space.lengthen(extent, end),
        }
    }

    /// The first reading of a command drops each lease without a session that it has reached.
    pub fn drop_expired(&mut self, reading: u64)
        ensures setting { self.new.setting ≡ self.old.setting }
        ensures known { known_of self.new ≡ known_of self.old }
        ensures leases { image_leases self.new.leases.leases.items
            ≡ first_leases (known_of self.old) reading (image_leases self.old.leases.leases.items) }
        ensures extents { extents_in self.new ≡ first_extents reading (extents_in self.old) }
        ensures hand { hand_in self.new ≡ held_hand self.old.setting.geometry (extents_in self.new)
            (hand_in self.old) }
    {
        self.drop_images(reading);
        self.drop_extents(reading);
    }

    // Drops each lease of an image without a session that the reading has reached.
    fn drop_images(&mut self, reading: u64)
        ensures setting { self.new.setting ≡ self.old.setting }
        ensures known { known_of self.new ≡ known_of self.old }
        ensures leases { image_leases self.new.leases.leases.items
            ≡ first_leases (known_of self.old) reading (image_leases self.old.leases.leases.items) }
        ensures space { self.new.space ≡ self.old.space }
    {
        for index in 0..self.leases.count {
            self.drop_lease(SlotNo(index), reading);
        }
    }

    // Drops each lease of an extent that the reading has reached, with the blocks in hand of its extent.
    fn drop_extents(&mut self, reading: u64)
        ensures setting { self.new.setting ≡ self.old.setting }
        ensures known { known_of self.new ≡ known_of self.old }
        ensures leases { self.new.leases ≡ self.old.leases }
        ensures extents { extents_in self.new ≡ first_extents reading (extents_in self.old) }
        ensures hand { hand_in self.new ≡ held_hand self.old.setting.geometry (extents_in self.new)
            (hand_in self.old) }
    {
        self.space.drop_expired(reading);
    }

    // Drops the lease of an image without a session, where the reading has reached it.
    fn drop_lease(&mut self, slot: SlotNo, reading: u64)
        requires { slot.0 < self.old.setting.geometry.images }
        ensures setting { self.new.setting ≡ self.old.setting }
        ensures known { known_of self.new ≡ known_of self.old }
        ensures space { self.new.space ≡ self.old.space }
        ensures leases { image_leases self.new.leases.leases.items
            ≡ at (image_leases self.old.leases.leases.items) slot.0
            (first_hold ((known_of self.old).sessions slot.0) reading
            (image_leases self.old.leases.leases.items slot.0)) }
    {
        match self.sessions.get(slot) {
            Some(_) => {}
            None => match self.leases.get(slot) {
                None => {}
                Some(held) => {
                    if held.until() <= reading {
                        if let Some(over) = self.leases.take(slot) {
                            over.dropped();
                        }
                    }
                }
            },
        }
    }
}
