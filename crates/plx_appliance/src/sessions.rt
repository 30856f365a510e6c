//! The sessions of a boot, which stay where they are: commands are lent them.
ghost use Rattle.std.specs.Prelude.{◌≡◌, ◌<◌};
ghost use Rattle.std.specs.Vec.{vec_len};
ghost use Rattle.plx_session.specs.Tied.{AreOf};

use crate::empty::{clear_places, empty_places};
use plx_base::{NoMemory, SlotNo};
use plx_commands::Reply;
use plx_disk::Answer;
use plx_session::{ImageWork, Session};
use std::alloc::Global;

/// The sessions by image slot.
#[derive(Drop)]
pub struct Sessions {
    pub count: u32,
    pub slots: u32,
    pub images: Vec<Option<Session>>,
    ghost long: { vec_len images ≡ count },
    ghost same: { AreOf slots images.items },
}

impl Sessions {
    ghost use Rattle.std.specs.Prelude.{ℕ, None, Some, MatchOption, IfOk, slice_index_or, IsTrue, ◌↔◌, true};
    ghost use Rattle.plx_commands.specs.Places.{at};
    ghost use Rattle.plx_rules.specs.Process.{answered};
    ghost use Rattle.plx_rules.specs.Session.{nothing_known};
    ghost use Rattle.plx_appliance.specs.Kept.{known_by, sessions_of};
    ghost use Rattle.plx_session.specs.Shown.{session_of};
    ghost use Rattle.plx_session.specs.Ending.{process_after};
    ghost use Rattle.plx_session.specs.Works.{image_leased, image_rest};

    /// No session of so many images, whose journals have so many slots.
    pub fn new(alloc: Global, count: u32, slots: u32) -> Result<Sessions, NoMemory>
        ensures known { IfOk result (λ s. sessions_of s.images.items ≡ (nothing_known 0).sessions) }
        ensures count { IfOk result (λ s. s.count ≡ count) }
        ensures slots { IfOk result (λ s. s.slots ≡ slots) }
    {
        let images = empty_places(alloc, count)?;
        Ok(Sessions {
            count,
            slots,
            images,
        })
    }

    /// The session of an image.
    pub fn get(&self, slot: SlotNo) -> Option<&Session>
        ensures { MatchOption result (sessions_of self.now.images.items slot.0 ≡ None)
            (λ s. (sessions_of self.now.images.items slot.0 ≡ Some (session_of s.now))
            × (slot.0 < self.now.count) × (s.now.journal.slots ≡ self.now.slots)) }
    {
        let index = slot.0 as usize;
        if index >= self.images.len() {
            return None;
        }
        match &self.images[index] {
            Some(session) => Some(session),
            None => None,
        }
    }

    /// Every session is dropped.
    pub fn forget(&mut self)
        ensures known { sessions_of self.new.images.items ≡ (nothing_known 0).sessions }
        ensures count { self.new.count ≡ self.old.count }
        ensures slots { self.new.slots ≡ self.old.slots }
    {
        clear_places(&mut self.images);
    }

    /// A session begins.
    pub fn put(&mut self, slot: SlotNo, session: Session)
        requires within { slot.0 < self.old.count }
        requires same { session.journal.slots ≡ self.old.slots }
        ensures known { sessions_of self.new.images.items
            ≡ at (sessions_of self.old.images.items) slot.0 (Some (session_of session)) }
        ensures count { self.new.count ≡ self.old.count }
        ensures slots { self.new.slots ≡ self.old.slots }
    {
        self.images[slot.0 as usize] = Some(session);
    }

    /// A session ends.
    pub fn end(&mut self, slot: SlotNo)
        requires { slot.0 < self.old.count }
        ensures known { sessions_of self.new.images.items
            ≡ at (sessions_of self.old.images.items) slot.0 None }
        ensures count { self.new.count ≡ self.old.count }
        ensures slots { self.new.slots ≡ self.old.slots }
    {
        self.images[slot.0 as usize] = None;
    }

    /// The machine of a command of an image is answered, over the image's session.
    pub fn answer(&mut self, work: &mut ImageWork, answer: &Answer) -> Option<Reply>
        requires within { (image_leased work.old).slot.0 < self.old.count }
        requires own { (image_leased work.old).setting.geometry.slots ≡ self.old.slots }
        ensures rest { (claims : ℕ) → process_after (image_rest (known_by self.new claims) work.new)
            (known_by self.new claims) result
            ≡ answered (image_rest (known_by self.old claims) work.old) answer.now }
        ensures image { image_leased work.new ≡ image_leased work.old }
        ensures count { self.new.count ≡ self.old.count }
        ensures slots { self.new.slots ≡ self.old.slots }
        ensures sessions { result ≡ None → self.new ≡ self.old }
    {
        work.answer(&mut self.images[work.slot().0 as usize], answer)
    }
}
