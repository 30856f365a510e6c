//! A create or a delete writes the image's record.
ghost use Rattle.std.specs.Prelude.{◌≡◌, true, Some};
ghost use Rattle.plx_gate.specs.Images.{is_image};
ghost use Rattle.plx_commands.specs.Facts.{is_size as is_allowed_size};

use crate::failure::Failure;
use crate::leased::Leased;
use crate::refusal::Refusal;
use crate::session::Session;
use crate::spell::spell_image;
use plx_base::{Block, Label, Ptr, WriteKind};
use plx_disk::{Answer, Ask};
use plx_gate::{ImageRecord, LiveRecord};
use std::mem;

/// How often an image can be made in one slot.
const LAST_GENERATION: u32 = u32::MAX;

/// The most blocks that an image has.
const GREATEST_SIZE: u32 = 1 << 27;

/// Where it stands: at the write of the record, or at its last reading of the clock.
#[derive(Clone, Copy)]
pub enum RecordAt {
    First,
    Last,
}

/// What was done.
#[derive(Clone, Copy)]
pub enum Done {
    Created,
    Deleted,
}

/// The write of an image's record, with the block that spells it.
#[derive(Drop)]
pub struct Record {
    pub at: RecordAt,
    pub image: Leased,
    pub made: ImageRecord,
    pub spelled: Block,
    pub done: Done,
    ghost limits: { is_image made ≡ true },
}

impl Record {
    ghost use Rattle.std.specs.Prelude.{ℕ, ◌<◌, Ok, IfOk, IfSome};
    ghost use Rattle.plx_gate.specs.Images.{IsImage};
    ghost use Rattle.plx_rules.specs.Process.{answered, standing, bytes_out};
    ghost use Rattle.plx_rules.specs.Commands.{create_process, delete_process, record_process};
    ghost use Rattle.plx_rules.specs.Session.{Known};
    ghost use Rattle.plx_rules.specs.Session.{Session as KnownSession};
    ghost use Rattle.plx_alloc.specs.Asking.{IsOnDevice};
    ghost use Rattle.plx_session.specs.Asking.{IsSpare};
    ghost use Rattle.plx_rules.specs.Machines.{AreWhole};
    ghost use Rattle.plx_session.specs.Giving.{rules_setting};
    ghost use Rattle.plx_session.specs.Shown.{session_of};
    ghost use Rattle.plx_session.specs.Refusing.{begin_process};
    ghost use Rattle.plx_session.specs.Rests.{done_reply, record_left, record_rest};

    /// A create begins, with a block for its record, or is refused.
    pub fn create(
        image: Leased,
        session: &Session,
        size: u32,
        label: Label,
        spelled: Block,
    ) -> Result<Record, Refusal>
        ensures process { (known : Known) → known.sessions image.slot.0
            ≡ Some (session_of session.now) → begin_process record_rest known result ≡ create_process
            (rules_setting image.setting) known image.slot.0 size label
            (session_of session.now) image.until }
        ensures image { (r : Record) → result ≡ Ok r → r.image ≡ image }
    {
        if session.is_live() {
            return Err(Refusal::Exists);
        }
        if !is_size(size) {
            return Err(Refusal::OutOfRange(GREATEST_SIZE));
        }
        let generation = session.generation();
        if generation >= LAST_GENERATION {
            return Err(Refusal::WornOut(u64::from(LAST_GENERATION)));
        }
        let _bytes = label.as_slice();
        let made = ImageRecord::Live(LiveRecord {
            generation: generation + 1,
            size,
            taken: 0,
            root: Ptr::hole(),
            applied: 0,
            label,
        });
        Ok(Record::begin(image, made, Done::Created, spelled))
    }

    /// A delete begins, with a block for its record, or is refused.
    pub fn delete(image: Leased, session: &Session, spelled: Block) -> Result<Record, Refusal>
        ensures process { (known : Known) → known.sessions image.slot.0
            ≡ Some (session_of session.now) → begin_process record_rest known result ≡ delete_process
            (rules_setting image.setting) known image.slot.0 (session_of session.now) image.until }
        ensures image { (r : Record) → result ≡ Ok r → r.image ≡ image }
    {
        if !session.is_live() {
            return Err(Refusal::NoImage);
        }
        let made = ImageRecord::Free {
            generation: session.generation(),
        };
        Ok(Record::begin(image, made, Done::Deleted, spelled))
    }

    // The write of a record of an attached image.
    fn begin(image: Leased, made: ImageRecord, done: Done, spelled: Block) -> Record
        requires { IsImage made }
        ensures process { (known : Known) (session : KnownSession) →
            known.sessions image.slot.0 ≡ Some session → record_rest known result ≡ record_process
            (rules_setting image.setting) known image.slot.0 image.until made (done_reply done) }
        ensures image { result.image ≡ image }
    {
        let mut spelled = spelled;
        spell_image(&made, &mut spelled);
        Record {
            at: RecordAt::First,
            image,
            made,
            spelled,
            done,
        }
    }

    /// The ask that stands.
    pub fn ask(&self) -> Ask
        ensures ask { (known : Known) → Some result ≡ standing (record_rest known self.now) }
        ensures within { IsOnDevice self.now.image.setting.geometry result }
        ensures spare { IsSpare self.now.image.setting.geometry result }
    {
        match self.at {
            RecordAt::First => Ask::Write {
                kind: WriteKind::Record,
                block: self.image.record_block(),
                guard: self.image.until,
            },
            RecordAt::Last => Ask::Clock,
        }
    }

    /// The bytes of the write that is asked for.
    pub fn out(&self) -> &[u8]
        ensures bytes { (known : Known) → result.now ≡ bytes_out (record_rest known self.now) }
        ensures whole { (known : Known) →
            AreWhole (standing (record_rest known self.now)) result.now }
    {
        match self.at {
            RecordAt::First => self.spelled.as_slice(),
            RecordAt::Last => &[],
        }
    }

    /// The ask is answered: the record that was made.
    pub fn answer(&mut self, answer: &Answer) -> Option<Result<ImageRecord, Failure>>
        ensures rest { (known : Known) → record_left known self.new result
            ≡ answered (record_rest known self.old) answer.now }
        ensures image { self.new.image ≡ self.old.image }
        ensures done { self.new.done ≡ self.old.done }
        ensures limits { IfSome result (λ end. IfOk end (λ made. is_image made ≡ true)) }
    {
        match (self.at, answer) {
            (RecordAt::First, Answer::Done) => {
                self.at = RecordAt::Last;
                None
            }
            (RecordAt::First, Answer::Fault) => {
                Some(Err(Failure::WriteFault(self.image.record_block())))
            }
            (RecordAt::First, Answer::Missed(reading)) => Some(Err(Failure::Lost(*reading))),
            (RecordAt::Last, Answer::Reading(reading)) => Some(self.end(*reading)),
            _ => None,
        }
    }

    // It ends at this reading.
    fn end(&mut self, reading: u64) -> Result<ImageRecord, Failure>
        requires at { self.old.at ≡ RecordAt.Last }
        ensures rest { (known : Known) → record_left known self.new (Some result)
            ≡ answered (record_rest known self.old) (Answer.Reading reading) }
        ensures image { self.new.image ≡ self.old.image }
        ensures done { self.new.done ≡ self.old.done }
        ensures limits { IfOk result (λ made. is_image made ≡ true) }
    {
        if let Some(failure) = self.image.over(reading) {
            return Err(failure);
        }
        Ok(mem::replace(&mut self.made, ImageRecord::Free { generation: 0 }))
    }
}

// Whether an image can have so many blocks.
fn is_size(size: u32) -> bool
    ensures { result ≡ is_allowed_size size }
{
    1 <= size && size <= GREATEST_SIZE
}
