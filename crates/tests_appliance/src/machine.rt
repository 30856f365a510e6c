//! Machines that are answered by hand, step by step.
ghost use Rattle.plx_rules.specs.Machines.{IsTimely};

use crate::content::Content;
use plx_base::{ApplianceNo, Block, BlockNo, WriteKind};
use plx_commands::{Entry, Reply};
use plx_disk::{Answer, Ask};
use plx_text::print_trace;
use std::alloc::Global;
use std::slice;
use tests_format::SMALL;

/// What asks, and is answered: a boot, or the work on a lease.
pub(crate) trait Machine {
    /// The ask that stands, if one does.
    fn asks(&mut self) -> Option<Ask>;

    /// Whether an ask stands, and these bytes are to be written.
    fn writes(&mut self, bytes: &[u8]) -> bool;

    /// The ask is answered: the reply, where one is given with that.
    fn gets(&mut self, answer: &Answer) -> Option<Reply>
        requires { IsTimely answer.now };

    /// Whether a command begins. Only a boot has commands, one at a time.
    fn begins(&mut self, _alloc: Global, _asked: Asked) -> bool {
        false
    }
}

/// A command of image 0.
#[derive(Clone, Copy)]
pub(crate) enum Asked {
    Attach,
    Detach,
    Renew,
    /// An image of eight blocks, named `a`, is to be made.
    Create,
    Delete,
    /// Virtual block 3 is to be read.
    Read,
    /// Virtual block 3 is to be filled with this byte.
    Write(u8),
}

/// An answer that needn't fit the ask.
#[derive(Clone, Copy)]
pub(crate) enum Trouble {
    Fault,
    Missed(u32),
    Reading(u32),
    Read(Content),
}

/// What follows an answer.
#[derive(Clone, Copy)]
pub(crate) enum Outcome {
    /// The answer doesn't fit the ask, which stands.
    Stands,
    /// The command goes on.
    Goes,
    /// The command ends with this reply, spelled as in traces.
    Told(&'static [u8]),
}

/// A step: a command begins, an ask is answered, or a command has ended.
#[derive(Clone, Copy)]
pub(crate) enum Step {
    Begins(Asked),
    /// The clock is asked, and tells this.
    Clock(u32),
    /// The clock is asked to reach the first moment, and tells the second one.
    Until(u64, u32),
    /// This block is read, and has these bytes.
    Bytes(u64, Content),
    /// These bytes are written to this block, with this guard, and are on the device.
    Done(WriteKind, u64, u64, Content),
    /// The ask that stands is answered so.
    Gets(Trouble, Outcome),
    /// The last answer ended the command with this reply, spelled as in traces. No other answer
    /// ends one.
    Ends(&'static [u8]),
}

use Outcome::{Goes, Stands, Told};
use Step::{Begins, Bytes, Clock, Done, Ends, Gets, Until};
use Trouble::{Fault, Missed, Read, Reading};

/// The first step of these parts that the machine doesn't take as it was to, counted from 1.
pub(crate) fn first_wrong(
    alloc: Global,
    machine: &mut dyn Machine,
    parts: &[&[Step]],
) -> Option<usize> {
    let mut told = Vec::new(alloc);
    let mut at = 0usize;
    let mut wrong = None;
    for part in parts {
        for step in *part {
            at = at.saturating_add(1);
            if wrong.is_none() && !takes(alloc, machine, &mut told, *step) {
                wrong = Some(at);
            }
        }
    }
    if wrong.is_none() && !told.as_slice().is_empty() {
        return Some(at);
    }
    wrong
}

/// Whether the machine takes a step. What is told is a reply, until it is looked at.
fn takes(alloc: Global, machine: &mut dyn Machine, told: &mut Vec<u8>, step: Step) -> bool {
    if let Ends(words) = step {
        return is_told(told, words);
    }
    if !told.as_slice().is_empty() {
        return false;
    }
    if let Begins(asked) = step {
        return machine.begins(alloc, asked);
    }
    answers(alloc, machine, told, step)
}

/// Whether the step answers the ask that stands, with the outcome that it names. The reply that is given
/// with that is told.
fn answers(alloc: Global, machine: &mut dyn Machine, told: &mut Vec<u8>, step: Step) -> bool {
    let Ok(block) = content(step).block(alloc) else {
        return false;
    };
    let before = machine.asks();
    if !is_asked(machine, before, step, block.as_slice()) {
        return false;
    }
    let reply = machine.gets(&answer(step, block));
    tells(alloc, told, reply) && has_outcome(machine, told, before, step)
}

/// Whether the step answers the ask that stands. Trouble needn't fit it.
fn is_asked(machine: &mut dyn Machine, asked: Option<Ask>, step: Step, bytes: &[u8]) -> bool {
    match step {
        Gets(..) => true,
        Done(..) => asked == Some(ask(step)) && machine.writes(bytes),
        Begins(_) | Clock(_) | Until(..) | Bytes(..) | Ends(_) => asked == Some(ask(step)),
    }
}

/// Whether trouble has the outcome that it was to have, at an ask.
fn has_outcome(
    machine: &mut dyn Machine,
    told: &mut Vec<u8>,
    before: Option<Ask>,
    step: Step,
) -> bool {
    let Gets(_, outcome) = step else {
        return true;
    };
    match outcome {
        Told(words) => is_told(told, words),
        Goes => told.as_slice().is_empty(),
        Stands => told.as_slice().is_empty() && machine.asks() == before,
    }
}

/// Whether this was told, and nothing else.
fn is_told(told: &mut Vec<u8>, words: &[u8]) -> bool {
    let is_same = told.as_slice() == words;
    told.clear();
    is_same
}

/// The reply is told as in traces, if there is one.
fn tells(alloc: Global, told: &mut Vec<u8>, reply: Option<Reply>) -> bool {
    let Some(reply) = reply else {
        return true;
    };
    let appliance = ApplianceNo(0);
    let entry = Entry::Reply { appliance, reply };
    match print_trace(alloc, &SMALL, 1, slice::from_ref(&entry), 0, 0) {
        Ok(text) => told.extend_from_slice(words_of(text.as_slice())).is_ok(),
        Err(_) => false,
    }
}

/// The words of the one reply of a trace.
fn words_of(trace: &[u8]) -> &[u8] {
    trace
        .strip_prefix(b"world 1 1 16 2 1\nreply 0 ")
        .unwrap_or(trace)
        .strip_suffix(b"\nend reachable=0 allocated=0\n")
        .unwrap_or(trace)
}

/// The ask that the step answers.
fn ask(step: Step) -> Ask {
    match step {
        Until(from, _) => Ask::Until { from },
        Bytes(block, _) => Ask::Read {
            block: BlockNo(block),
        },
        Done(kind, block, guard, _) => Ask::Write {
            kind,
            block: BlockNo(block),
            guard,
        },
        Begins(_) | Clock(_) | Gets(..) | Ends(_) => Ask::Clock,
    }
}

/// What is read or written.
fn content(step: Step) -> Content {
    match step {
        Bytes(_, content) | Done(_, _, _, content) | Gets(Read(content), _) => content,
        Begins(_) | Clock(_) | Until(..) | Gets(..) | Ends(_) => Content::Zeros,
    }
}

/// The answer of the step, where this block is read.
fn answer(step: Step, block: Block) -> Answer
    ensures { IsTimely result }
{
    match step {
        Clock(reading) | Until(_, reading) | Gets(Reading(reading), _) => {
            Answer::Reading(u64::from(reading))
        }
        Gets(Missed(reading), _) => Answer::Missed(u64::from(reading)),
        Gets(Fault, _) => Answer::Fault,
        Bytes(..) | Gets(Read(_), _) => Answer::Bytes(block),
        Begins(_) | Done(..) | Ends(_) => Answer::Done,
    }
}
