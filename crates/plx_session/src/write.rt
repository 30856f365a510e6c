//! A write fills a slot of the journal, and commits it.
ghost use Rattle.std.specs.Prelude.{◌≡◌, ◌<◌, Some};

use crate::failure::Failure;
use crate::leased::Leased;
use crate::refusal::Refusal;
use crate::session::Session;
use crate::spell::spell_descriptor;
use plx_base::{Block, WriteKind};
use plx_disk::{Answer, Ask};
use plx_gate::Descriptor;

/// The number of an image's last write.
const LAST_WRITE: u64 = (1 << 48) - 1;

/// Where a write stands: at the write of its data or of its descriptor, or at its last reading of the clock.
#[derive(Clone, Copy)]
pub enum WriteAt {
    Data,
    Commit,
    Last,
}

/// A write into a journal slot, with its data and the block that spells its descriptor.
#[derive(Drop)]
pub struct Write {
    pub at: WriteAt,
    pub image: Leased,
    pub index: u32,
    pub number: u64,
    pub vblock: u32,
    pub block: Block,
    pub spelled: Block,
    ghost placed: { index < image.setting.geometry.slots },
}

impl Write {
    ghost use Rattle.std.specs.Prelude.{ℕ, Ok};
    ghost use Rattle.plx_rules.specs.Process.{answered, standing, bytes_out};
    ghost use Rattle.plx_rules.specs.Commands.{write_process};
    ghost use Rattle.plx_rules.specs.Session.{Known};
    ghost use Rattle.plx_alloc.specs.Asking.{IsOnDevice};
    ghost use Rattle.plx_session.specs.Asking.{IsSpare};
    ghost use Rattle.plx_rules.specs.Machines.{AreWhole};
    ghost use Rattle.plx_session.specs.Giving.{rules_setting};
    ghost use Rattle.plx_session.specs.Shown.{session_of};
    ghost use Rattle.plx_session.specs.Refusing.{begin_process};
    ghost use Rattle.plx_session.specs.Rests.{write_left, write_rest};

    /// The write begins, with a block of what it writes and one for its descriptor, or is refused.
    pub fn enter(
        image: Leased,
        session: &Session,
        vblock: u32,
        block: Block,
        spelled: Block,
    ) -> Result<Write, Refusal>
        requires { session.now.journal.slots ≡ image.setting.geometry.slots }
        ensures process { (known : Known) → known.sessions image.slot.0
            ≡ Some (session_of session.now) → begin_process write_rest known result ≡ write_process
            (rules_setting image.setting) known image.slot.0 vblock block
            (session_of session.now) image.until }
        ensures image { (w : Write) → result ≡ Ok w → w.image ≡ image }
    {
        if !session.is_live() {
            return Err(Refusal::NoImage);
        }
        let size = session.size();
        if vblock >= size {
            return Err(Refusal::OutOfRange(size));
        }
        let count = session.count();
        if count >= LAST_WRITE {
            return Err(Refusal::WornOut(LAST_WRITE));
        }
        let slots = image.setting.geometry.slots;
        if session.journal.len() == slots as usize {
            return Err(Refusal::Full);
        }
        let number = count + 1;
        let mut spelled = spelled;
        spell_descriptor(
            &Descriptor {
                generation: session.generation(),
                vblock,
                number,
            },
            &mut spelled,
        );
        Ok(Write {
            at: WriteAt::Data,
            image,
            index: ((number - 1) % u64::from(slots)) as u32,
            number,
            vblock,
            block,
            spelled,
        })
    }

    /// The ask that stands.
    pub fn ask(&self) -> Ask
        ensures ask { (known : Known) → Some result ≡ standing (write_rest known self.now) }
        ensures within { IsOnDevice self.now.image.setting.geometry result }
        ensures spare { IsSpare self.now.image.setting.geometry result }
    {
        match self.at {
            WriteAt::Data => Ask::Write {
                kind: WriteKind::JData,
                block: self.image.data_block(self.index),
                guard: self.image.until,
            },
            WriteAt::Commit => Ask::Write {
                kind: WriteKind::JCommit,
                block: self.image.descriptor_block(self.index),
                guard: self.image.until,
            },
            WriteAt::Last => Ask::Clock,
        }
    }

    /// The bytes of the write that is asked for.
    pub fn out(&self) -> &[u8]
        ensures bytes { (known : Known) → result.now ≡ bytes_out (write_rest known self.now) }
        ensures whole { (known : Known) →
            AreWhole (standing (write_rest known self.now)) result.now }
    {
        match self.at {
            WriteAt::Data => self.block.as_slice(),
            WriteAt::Commit => self.spelled.as_slice(),
            WriteAt::Last => &[],
        }
    }

    /// The ask is answered: the number of what was written.
    pub fn answer(&mut self, answer: &Answer) -> Option<Result<u64, Failure>>
        ensures rest { (known : Known) → write_left known self.new result
            ≡ answered (write_rest known self.old) answer.now }
        ensures image { self.new.image ≡ self.old.image }
    {
        match (self.at, answer) {
            (WriteAt::Data, Answer::Done) => {
                self.at = WriteAt::Commit;
                None
            }
            (WriteAt::Commit, Answer::Done) => {
                self.at = WriteAt::Last;
                None
            }
            (WriteAt::Data, Answer::Fault) => {
                Some(Err(Failure::WriteFault(self.image.data_block(self.index))))
            }
            (WriteAt::Commit, Answer::Fault) => {
                Some(Err(Failure::WriteFault(self.image.descriptor_block(self.index))))
            }
            (WriteAt::Data | WriteAt::Commit, Answer::Missed(reading)) => {
                Some(Err(Failure::Lost(*reading)))
            }
            (WriteAt::Last, Answer::Reading(reading)) => Some(self.end(*reading)),
            _ => None,
        }
    }

    // The write ends at this reading.
    fn end(&self, reading: u64) -> Result<u64, Failure>
        requires { self.now.at ≡ WriteAt.Last }
        ensures { (known : Known) → write_left known self.now (Some result)
            ≡ answered (write_rest known self.now) (Answer.Reading reading) }
    {
        if let Some(failure) = self.image.over(reading) {
            return Err(failure);
        }
        Ok(self.number)
    }
}
