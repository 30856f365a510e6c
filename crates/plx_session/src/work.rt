//! The machine of a command of an attached image.
ghost use Rattle.std.specs.Prelude.{◌≡◌, Some, None, IfOk, true};
ghost use Rattle.plx_gate.specs.Images.{is_image};
ghost use Rattle.plx_rules.specs.Ends.{ends};
ghost use Rattle.plx_rules.specs.Session.{Known};
ghost use Rattle.plx_session.specs.Ending.{known_after, process_after};
ghost use Rattle.plx_session.specs.Rests.{read_left, record_left, write_left};
ghost use Rattle.plx_session.specs.Shown.{known_session, known_with};
ghost use Rattle.plx_session.specs.Tied.{slots_with_session};

use crate::failure::Failure;
use crate::images;
use crate::read::Read;
use crate::record::{Done, Record};
use crate::session::Session;
use crate::write::Write;
use plx_base::{Payload, SlotNo};
use plx_commands::Reply;
use plx_disk::{Answer, Ask};
use plx_gate::ImageRecord;

/// The machine of a command of an attached image, after its first reading of the clock.
#[derive(Drop)]
pub enum ImageWork {
    Record(Record),
    Read(Read),
    Write(Write),
}

impl ImageWork {
    ghost use Rattle.plx_alloc.specs.Asking.{IsOnDevice};
    ghost use Rattle.plx_rules.specs.Machines.{AreWhole};
    ghost use Rattle.plx_rules.specs.Process.{answered, standing, bytes_out};
    ghost use Rattle.plx_session.specs.Asking.{IsSpare};
    ghost use Rattle.plx_session.specs.Works.{image_leased, image_rest};

    /// The slot of its image.
    pub fn slot(&self) -> SlotNo
        ensures { result ≡ (image_leased self.now).slot }
    {
        match self {
            ImageWork::Record(record) => record.image.slot,
            ImageWork::Read(read) => read.image.slot,
            ImageWork::Write(write) => write.image.slot,
        }
    }

    /// The ask that stands.
    pub fn ask(&self) -> Ask
        ensures ask { (known : Known) → Some result ≡ standing (image_rest known self.now) }
        ensures within { IsOnDevice (image_leased self.now).setting.geometry result }
        ensures spare { IsSpare (image_leased self.now).setting.geometry result }
    {
        match self {
            ImageWork::Record(record) => record.ask(),
            ImageWork::Read(read) => read.ask(),
            ImageWork::Write(write) => write.ask(),
        }
    }

    /// The bytes of the write that is asked for.
    pub fn out(&self) -> &[u8]
        ensures bytes { (known : Known) → result.now ≡ bytes_out (image_rest known self.now) }
        ensures whole { (known : Known) →
            AreWhole (standing (image_rest known self.now)) result.now }
    {
        match self {
            ImageWork::Record(record) => record.out(),
            ImageWork::Read(_) => &[],
            ImageWork::Write(write) => write.out(),
        }
    }

    /// The ask is answered, over the session of its image.
    pub fn answer(&mut self, session: &mut Option<Session>, answer: &Answer) -> Option<Reply>
        requires { slots_with_session (image_leased self.old).setting.geometry.slots session.old
            ≡ (image_leased self.old).setting.geometry.slots }
        ensures rest { (known : Known) →
            known.sessions (image_leased self.old).slot.0 ≡ known_session session.old →
            process_after (image_rest known self.new)
            (known_with known (image_leased self.old).slot.0 session.new) result
            ≡ answered (image_rest known self.old) answer.now }
        ensures image { image_leased self.new ≡ image_leased self.old }
        ensures slots { slots_with_session (image_leased self.old).setting.geometry.slots
            session.new ≡ (image_leased self.old).setting.geometry.slots }
        ensures session { result ≡ None → session.new ≡ session.old }
    {
        match self {
            ImageWork::Record(record) => match record.answer(answer) {
                None => None,
                Some(end) => Some(record_reply(record, session, end)),
            },
            ImageWork::Read(read) => match read.answer(answer) {
                None => None,
                Some(end) => Some(read_reply(read, end)),
            },
            ImageWork::Write(write) => match write.answer(answer) {
                None => None,
                Some(end) => Some(write_reply(write, session, end)),
            },
        }
    }
}

// The reply to a create or a delete that ends so, over the session of its image.
fn record_reply(
    work: &Record,
    session: &mut Option<Session>,
    end: Result<ImageRecord, Failure>,
) -> Reply
    requires slots { slots_with_session work.now.image.setting.geometry.slots session.old
        ≡ work.now.image.setting.geometry.slots }
    requires limits { IfOk end (λ made. is_image made ≡ true) }
    ensures rest { (known : Known) →
        known.sessions work.now.image.slot.0 ≡ known_session session.old →
        ends result (known_after result (known_with known work.now.image.slot.0 session.new))
        ≡ record_left known work.now (Some end) }
    ensures slots { slots_with_session work.now.image.setting.geometry.slots session.new
        ≡ work.now.image.setting.geometry.slots }
{
    match end {
        Ok(made) => {
            images::start(session, work.image.setting.geometry.slots, made);
            match work.done {
                Done::Created => Reply::Created,
                Done::Deleted => Reply::Deleted,
            }
        }
        Err(failure) => failure.reply(&work.image),
    }
}

// The reply to a read that ends so.
fn read_reply(read: &Read, end: Result<Payload, Failure>) -> Reply
    ensures { (known : Known) → ends result (known_after result known)
        ≡ read_left known read.now (Some end) }
{
    match end {
        Ok(payload) => Reply::Data { payload },
        Err(failure) => failure.reply(&read.image),
    }
}

// The reply to a write that ends so, over the session of its image.
fn write_reply(write: &Write, session: &mut Option<Session>, end: Result<u64, Failure>) -> Reply
    requires { slots_with_session write.now.image.setting.geometry.slots session.old
        ≡ write.now.image.setting.geometry.slots }
    ensures rest { (known : Known) →
        known.sessions write.now.image.slot.0 ≡ known_session session.old →
        ends result (known_after result (known_with known write.now.image.slot.0 session.new))
        ≡ write_left known write.now (Some end) }
    ensures slots { slots_with_session write.now.image.setting.geometry.slots session.new
        ≡ write.now.image.setting.geometry.slots }
{
    match end {
        Ok(number) => {
            let slots = write.image.setting.geometry.slots;
            images::push(session, slots, number, write.vblock, &write.block);
            Reply::Written { number }
        }
        Err(failure) => failure.reply(&write.image),
    }
}
