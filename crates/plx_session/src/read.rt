//! A read gives what the session knows.
ghost use Rattle.std.specs.Prelude.{◌≡◌, Some};

use crate::failure::Failure;
use crate::leased::Leased;
use crate::refusal::Refusal;
use crate::session::Session;
use plx_base::{Block, Payload};
use plx_disk::{Answer, Ask};
use std::mem;

/// A read that gives this payload, at its last reading of the clock.
#[derive(Drop)]
pub struct Read {
    pub image: Leased,
    pub payload: Payload,
}

impl Read {
    ghost use Rattle.std.specs.Prelude.{Ok};
    ghost use Rattle.plx_rules.specs.Process.{answered, standing, bytes_out};
    ghost use Rattle.plx_rules.specs.Commands.{read_process};
    ghost use Rattle.plx_rules.specs.Session.{Known};
    ghost use Rattle.plx_session.specs.Giving.{rules_setting};
    ghost use Rattle.plx_session.specs.Shown.{session_of};
    ghost use Rattle.plx_session.specs.Refusing.{begin_process};
    ghost use Rattle.plx_session.specs.Rests.{read_left, read_rest};

    /// The read begins, with a block for what it gives, or is refused.
    pub fn enter(
        image: Leased,
        session: &Session,
        vblock: u32,
        block: Block,
    ) -> Result<Read, Refusal>
        ensures process { (known : Known) → begin_process read_rest known result ≡ read_process
            (rules_setting image.setting) known image.slot.0 vblock
            (session_of session.now) image.until }
        ensures image { (r : Read) → result ≡ Ok r → r.image ≡ image }
    {
        if !session.is_live() {
            return Err(Refusal::NoImage);
        }
        let size = session.size();
        if vblock >= size {
            return Err(Refusal::OutOfRange(size));
        }
        let mut block = block;
        session.read(vblock, &mut block);
        Ok(Read {
            image,
            payload: Payload::holding(block),
        })
    }

    /// The ask that stands.
    pub fn ask(&self) -> Ask
        ensures ask { (known : Known) → Some result ≡ standing (read_rest known self.now) }
        ensures clock { result ≡ Ask.Clock }
    {
        Ask::Clock
    }

    /// The ask is answered: what it gives.
    pub fn answer(&mut self, answer: &Answer) -> Option<Result<Payload, Failure>>
        ensures rest { (known : Known) → read_left known self.new result
            ≡ answered (read_rest known self.old) answer.now }
        ensures image { self.new.image ≡ self.old.image }
    {
        match answer {
            Answer::Reading(reading) => Some(self.end(*reading)),
            _ => None,
        }
    }

    // The read ends at this reading.
    fn end(&mut self, reading: u64) -> Result<Payload, Failure>
        ensures rest { (known : Known) → read_left known self.new (Some result)
            ≡ answered (read_rest known self.old) (Answer.Reading reading) }
        ensures image { self.new.image ≡ self.old.image }
    {
        if let Some(failure) = self.image.over(reading) {
            return Err(failure);
        }
        Ok(mem::replace(&mut self.payload, Payload::All(0)))
    }
}
