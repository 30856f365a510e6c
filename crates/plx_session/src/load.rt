//! The image under a lease that is held is loaded: its record, and its journal.
ghost use Rattle.std.specs.Prelude.{◌≡◌, ◌≤◌, ◌<◌, ◌+◌, Some, None};
ghost use Rattle.std.specs.Vec.{vec_len};
ghost use Rattle.plx_session.specs.Inside.{slots_reached};

use crate::failure::Failure;
use crate::finding::{Finding, find, is_plain};
use crate::leased::Leased;
use crate::session::Session;
use plx_base::{Block, BlockNo};
use plx_disk::{Answer, Ask};
use plx_gate::{Descriptor, ImageRecord, read_image};
use std::alloc::Global;
use std::mem;

/// Where a load stands: at the image's record, at the descriptor of the next slot, at the data of that slot, whose
/// descriptor counts, at the reading after this block gave bytes outside the format, or at its last reading.
#[derive(Clone, Copy)]
pub enum LoadAt {
    Record,
    Slot,
    Data(Descriptor),
    Damaged(BlockNo),
    Last,
}

/// A load that has read the slots before `next`, with the session that it makes.
#[derive(Drop)]
pub struct Load {
    pub at: LoadAt,
    pub image: Leased,
    pub slots: u32,
    pub next: u32,
    pub session: Session,
    pub alloc: Global,
    ghost room: { vec_len session.journal.writes ≤ next },
    ghost same: { session.journal.slots ≡ slots },
    ghost inside: { slots_reached at next ≤ slots },
}

impl Load {
    ghost use Rattle.std.specs.Prelude.{ℕ, true, IfOk, IfSome};
    ghost use Rattle.plx_rules.specs.Process.{answered, standing, bytes_out};
    ghost use Rattle.plx_rules.specs.Attaching.{after_record, load_image, load_journal};
    ghost use Rattle.plx_rules.specs.Records.{attached_record, is_live};
    ghost use Rattle.plx_gate.specs.Images.{is_image};
    ghost use Rattle.plx_rules.specs.Machines.{AreWhole};
    ghost use Rattle.plx_rules.specs.Session.{Known, with_write_by_number};
    ghost use Rattle.plx_alloc.specs.Asking.{IsOnDevice};
    ghost use Rattle.plx_session.specs.Asking.{IsSpare};
    ghost use Rattle.plx_session.specs.Failing.{failed};
    ghost use Rattle.plx_session.specs.Giving.{rules_setting};
    ghost use Rattle.plx_session.specs.Shown.{writes_of};
    ghost use Rattle.plx_session.specs.Loads.{damaged_rest, found_rest, loaded_write, load_left, load_rest, loaded_rest};

    /// The load of an image under its lease, with the memory of a session.
    pub fn begin(alloc: Global, image: Leased, session: Session) -> Load
        requires slots { session.journal.slots ≡ image.setting.geometry.slots }
        requires empty { vec_len session.journal.writes ≡ 0 }
        ensures rest { (known : Known) → load_rest known result ≡ load_image
            (rules_setting image.setting) known image.slot.0 image.until }
        ensures slots { result.slots ≡ image.setting.geometry.slots }
        ensures image { result.image ≡ image }
    {
        let slots = image.setting.geometry.slots;
        Load {
            at: LoadAt::Record,
            image,
            slots,
            next: 0,
            session,
            alloc,
        }
    }

    /// The lease is held up to this moment, and the load begins.
    pub fn enter(&mut self, image: Leased)
        requires { self.old.slots ≡ image.setting.geometry.slots }
        ensures rest { (known : Known) → load_rest known self.new ≡ load_image
            (rules_setting image.setting) known image.slot.0 image.until }
        ensures image { self.new.image ≡ image }
        ensures slots { self.new.slots ≡ self.old.slots }
    {
        self.at = LoadAt::Record;
        self.image = image;
    }

    /// The ask that stands.
    pub fn ask(&self) -> Ask
        requires { self.now.slots ≡ self.now.image.setting.geometry.slots }
        ensures ask { (known : Known) → Some result ≡ standing (load_rest known self.now) }
        ensures within { IsOnDevice self.now.image.setting.geometry result }
        ensures spare { IsSpare self.now.image.setting.geometry result }
    {
        match self.at {
            LoadAt::Record => Ask::Read {
                block: self.image.record_block(),
            },
            LoadAt::Slot => Ask::Read {
                block: self.image.descriptor_block(self.next),
            },
            LoadAt::Data(_) => Ask::Read {
                block: self.image.data_block(self.next),
            },
            LoadAt::Damaged(_) | LoadAt::Last => Ask::Clock,
        }
    }

    /// It writes nothing.
    pub fn out(&self) -> &[u8]
        ensures bytes { (known : Known) → result.now ≡ bytes_out (load_rest known self.now) }
        ensures whole { (known : Known) →
            AreWhole (standing (load_rest known self.now)) result.now }
    {
        match self.at {
            LoadAt::Record | LoadAt::Slot | LoadAt::Data(_) | LoadAt::Damaged(_) | LoadAt::Last =>
                &[],
        }
    }

    /// The ask is answered: the session.
    pub fn answer(&mut self, answer: &Answer) -> Option<Result<Session, Failure>>
        requires own { self.old.slots ≡ self.old.image.setting.geometry.slots }
        ensures rest { (known : Known) → load_left known self.new result
            ≡ answered (load_rest known self.old) answer.now }
        ensures image { self.new.image ≡ self.old.image }
        ensures own { result ≡ None → self.new.slots ≡ self.old.slots }
        ensures slots { IfSome result (λ end. IfOk end (λ session. session.journal.slots
            ≡ self.old.slots)) }
    {
        match (self.at, answer) {
            (LoadAt::Record, Answer::Bytes(bytes)) => {
                self.read_record(bytes);
                None
            }
            (LoadAt::Record, Answer::Fault) => {
                Some(Err(Failure::ReadFault(self.image.record_block())))
            }
            (LoadAt::Slot, Answer::Bytes(bytes)) => {
                self.read_slot(bytes);
                None
            }
            (LoadAt::Slot, Answer::Fault) => {
                Some(Err(Failure::ReadFault(self.image.descriptor_block(self.next))))
            }
            (LoadAt::Data(descriptor), Answer::Bytes(bytes)) => {
                self.insert(&descriptor, bytes);
                None
            }
            (LoadAt::Data(_), Answer::Fault) => {
                Some(Err(Failure::ReadFault(self.image.data_block(self.next))))
            }
            (LoadAt::Damaged(block), Answer::Reading(reading)) => {
                Some(Err(self.damaged(block, *reading)))
            }
            (LoadAt::Last, Answer::Reading(reading)) => Some(self.end(*reading)),
            _ => None,
        }
    }

    // The record was read.
    fn read_record(&mut self, bytes: &Block)
        requires { self.old.slots ≡ self.old.image.setting.geometry.slots }
        ensures rest { (known : Known) → load_rest known self.new ≡ after_record
            (rules_setting self.old.image.setting) known self.old.image.slot.0 self.old.image.until
            (attached_record bytes.now) }
        ensures image { self.new.image ≡ self.old.image }
        ensures slots { self.new.slots ≡ self.old.slots }
    {
        let block = self.image.record_block();
        let Some(found) = read_image(bytes.as_slice()) else {
            self.at = LoadAt::Damaged(block);
            return;
        };
        if !is_plain(&found) {
            self.at = LoadAt::Damaged(block);
            return;
        }
        self.start(found);
    }

    // The image has this record.
    fn start(&mut self, found: ImageRecord)
        requires own { self.old.slots ≡ self.old.image.setting.geometry.slots }
        requires limits { is_image found ≡ true }
        ensures rest { (known : Known) → load_rest known self.new ≡ load_journal
            (rules_setting self.old.image.setting) known self.old.image.slot.0 self.old.image.until
            found (is_live found) }
        ensures image { self.new.image ≡ self.old.image }
        ensures slots { self.new.slots ≡ self.old.slots }
    {
        self.at = LoadAt::Record;
        self.session.start(found);
        self.next = 0;
        if !self.session.is_live() {
            self.at = LoadAt::Last;
            return;
        }
        self.stand();
    }

    // The next slot is asked for, or all were read.
    #[tactic(auto, using(crate::proofs::Reached::next_reached))]
    fn stand(&mut self)
        requires own { self.old.slots ≡ self.old.image.setting.geometry.slots }
        ensures rest { (known : Known) → load_rest known self.new
            ≡ loaded_rest known self.old self.old.next (writes_of self.old.session.journal) }
        ensures image { self.new.image ≡ self.old.image }
        ensures slots { self.new.slots ≡ self.old.slots }
    {
        if self.next < self.slots {
            self.at = LoadAt::Slot;
            return;
        }
        match self.session.gap() {
            None => self.at = LoadAt::Last,
            Some(number) => {
                let slot = (number.saturating_sub(1) % u64::from(self.slots)) as u32;
                self.at = LoadAt::Damaged(self.image.descriptor_block(slot));
            }
        }
    }

    // A descriptor was read.
    fn read_slot(&mut self, bytes: &Block)
        requires own { self.old.slots ≡ self.old.image.setting.geometry.slots }
        requires more { self.old.next < self.old.slots }
        ensures rest { (known : Known) → load_rest known self.new
            ≡ found_rest known self.old bytes.now }
        ensures image { self.new.image ≡ self.old.image }
        ensures slots { self.new.slots ≡ self.old.slots }
    {
        match find(&self.session, self.next, bytes) {
            Finding::Outside => self.at = LoadAt::Damaged(self.image.descriptor_block(self.next)),
            Finding::Unused => {
                self.at = LoadAt::Record;
                self.next += 1;
                self.stand();
            }
            Finding::Counts(descriptor) => self.at = LoadAt::Data(descriptor),
        }
    }

    // The data of the next slot was read.
    fn insert(&mut self, descriptor: &Descriptor, bytes: &Block)
        requires own { self.old.slots ≡ self.old.image.setting.geometry.slots }
        requires more { self.old.next < self.old.slots }
        ensures rest { (known : Known) → load_rest known self.new ≡ loaded_rest known self.old
            (self.old.next + 1) (with_write_by_number
            (loaded_write descriptor.now.number descriptor.now.vblock bytes.now)
            (writes_of self.old.session.journal)) }
        ensures image { self.new.image ≡ self.old.image }
        ensures slots { self.new.slots ≡ self.old.slots }
    {
        self.at = LoadAt::Record;
        self.next += 1;
        self.session
            .insert(descriptor.number, descriptor.vblock, bytes);
        self.stand();
    }

    // Bytes outside the format were read at a block.
    fn damaged(&self, block: BlockNo, reading: u64) -> Failure
        ensures { (known : Known) → failed known self.now.image result
            ≡ answered (damaged_rest known self.now block.0) (Answer.Reading reading) }
    {
        match self.image.over(reading) {
            Some(failure) => failure,
            None => Failure::Damaged(block),
        }
    }

    // The session begins.
    fn end(&mut self, reading: u64) -> Result<Session, Failure>
        requires at { self.old.at ≡ LoadAt.Last }
        requires own { self.old.slots ≡ self.old.image.setting.geometry.slots }
        ensures rest { (known : Known) → load_left known self.new (Some result)
            ≡ answered (load_rest known self.old) (Answer.Reading reading) }
        ensures image { self.new.image ≡ self.old.image }
        ensures slots { IfOk result (λ session. session.journal.slots ≡ self.old.slots) }
    {
        if let Some(failure) = self.image.over(reading) {
            return Err(failure);
        }
        self.at = LoadAt::Record;
        self.slots = 0;
        self.next = 0;
        Ok(mem::replace(&mut self.session, Session::empty(self.alloc)))
    }
}
