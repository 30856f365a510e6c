//! Traces of several images and appliances, with the least rule that each entry breaks.
use crate::entries::Asked::{
    Attach, Create, Delete, Detach, Flush, Read, Reclaim, Renew, Reserve, Retire, Write,
};
use crate::entries::Name::{Disk, Other, Unnamed};
use crate::entries::Told::{
    AlreadyAttached, Busy, Created, Damaged, Data, Deleted, Detached, Exists, Flushed, Free, Full,
    Image, Lost, NoImage, NotAttached, OutOfRange, ReadFault, Reclaimed, Renewed, Reserved,
    Retired, WornOut, WriteFault, Written,
};
use crate::entries::{Lease, Line, Seen, Told, entry};
use plx_commands::Entry;
use plx_model::{JudgeError, Model};
use std::alloc::Global;

const LAST_GENERATION: u64 = 0xffff_ffff;

const LAST_WRITE: u64 = 0xffff_ffff_ffff;

const LAST_CLAIM: u64 = 0xff_ffff_ffff;

const GREATEST_SIZE: u32 = 0x800_0000;

const BUSY: Told = Busy(Lease::Root, Seen::Unclaimed);

const LOST: Told = Lost(Lease::Image(1), 11_000, 11_702);

/// A step of the judge.
#[derive(Clone, Copy)]
enum Step {
    /// Appliance 0 makes an image of eight blocks in the slot, and writes this byte to its block 2.
    Made(u32, u8),
    /// An entry keeps all rules.
    Keeps(Line),
    /// The least rule that an entry breaks.
    Breaks(u8, Line),
}

use Line::{Crash, Reply as Answer, Start};
use Step::{Breaks, Keeps, Made};

/// The least rule that the entry breaks, or 0 where it keeps all rules.
fn rule(model: &mut Model, entry: &Entry) -> u8 {
    match model.judge(entry) {
        Ok(()) => 0,
        Err(JudgeError::NotPermitted { rule }) => rule,
        Err(JudgeError::NoMemory) => 255,
    }
}

/// Whether the entry breaks this rule as its least one, or none where it is 0.
fn breaks(model: &mut Model, wanted: u8, line: Line) -> bool {
    rule(model, &entry(line)) == wanted
}

/// Whether appliance 0 makes an image of eight blocks in the slot, and writes its block 2 once.
fn make(model: &mut Model, slot: u32, byte: u8) -> bool {
    breaks(model, 0, Start(0, Attach(slot)))
        && breaks(model, 0, Answer(0, Free(0)))
        && breaks(model, 0, Start(0, Create(slot, 8, Disk)))
        && breaks(model, 0, Answer(0, Created))
        && breaks(model, 0, Start(0, Write(slot, 2, byte)))
        && breaks(model, 0, Answer(0, Written(1)))
}

/// The step is taken. Whether it is judged as it should.
fn take(model: &mut Model, step: Step) -> bool {
    match step {
        Made(slot, byte) => make(model, slot, byte),
        Keeps(line) => breaks(model, 0, line),
        Breaks(rule, line) => breaks(model, rule, line),
    }
}

/// The first step that isn't judged as it should.
fn first_wrong(alloc: Global, images: u32, appliances: u32, steps: &[Step]) -> Option<usize> {
    if images < 1 || 256 < images || appliances < 1 || 8 < appliances {
        return Some(0);
    }
    let Ok(mut model) = Model::new(alloc, images, appliances) else {
        return Some(0);
    };
    for (at, step) in steps.iter().enumerate() {
        if !take(&mut model, *step) {
            return Some(at);
        }
    }
    None
}

const LEAST_RULES: &[Step] = &[
    Breaks(1, Start(2, Attach(0))),
    Breaks(1, Crash(2)),
    Breaks(1, Answer(2, Renewed)),
    Keeps(Start(0, Attach(1))),
    Breaks(2, Start(0, Renew)),
    Breaks(3, Answer(1, Full)),
    Breaks(4, Answer(0, Detached)),
    Breaks(4, Answer(0, Full)),
    Breaks(6, Answer(0, Image(1, 8, 0, Disk))),
    Breaks(7, Answer(0, AlreadyAttached)),
    Breaks(7, Answer(0, NoImage)),
    Keeps(Answer(0, Free(0))),
    Keeps(Start(0, Attach(1))),
    Breaks(8, Answer(0, Free(0))),
    Keeps(Answer(0, AlreadyAttached)),
    Keeps(Start(1, Read(1, 0))),
    Breaks(5, Answer(1, Data(0))),
    Keeps(Answer(1, NotAttached)),
];

const MADE_AGAIN: &[Step] = &[
    Made(0, 9),
    Keeps(Start(0, Write(0, 2, 9))),
    Breaks(6, Answer(0, Written(1))),
    Breaks(6, Answer(0, Written(3))),
    Keeps(Answer(0, Written(2))),
    Keeps(Start(0, Create(0, 8, Disk))),
    Breaks(8, Answer(0, Created)),
    Keeps(Answer(0, Exists)),
    Keeps(Start(0, Read(0, 2))),
    Breaks(6, Answer(0, Data(0))),
    Breaks(7, Answer(0, OutOfRange(8))),
    Keeps(Answer(0, Data(9))),
    Keeps(Start(0, Read(0, 8))),
    Breaks(8, Answer(0, Data(0))),
    Breaks(7, Answer(0, OutOfRange(7))),
    Keeps(Answer(0, OutOfRange(8))),
    Keeps(Start(0, Delete(0))),
    Breaks(4, Answer(0, Created)),
    Keeps(Answer(0, Deleted)),
    Keeps(Start(0, Read(0, 2))),
    Breaks(6, Answer(0, Data(9))),
    Breaks(8, Answer(0, Data(0))),
    Breaks(7, Answer(0, NotAttached)),
    Keeps(Answer(0, NoImage)),
    Keeps(Start(0, Create(0, 4, Other))),
    Keeps(Answer(0, Created)),
    Keeps(Start(0, Read(0, 2))),
    Breaks(6, Answer(0, Data(9))),
    Keeps(Answer(0, Data(0))),
    Keeps(Start(0, Detach(0))),
    Keeps(Answer(0, Detached)),
    Keeps(Start(0, Detach(0))),
    Breaks(8, Answer(0, Detached)),
    Keeps(Answer(0, NotAttached)),
    Keeps(Start(0, Attach(0))),
    Breaks(6, Answer(0, Image(1, 4, 0, Other))),
    Breaks(6, Answer(0, Image(2, 8, 0, Other))),
    Breaks(6, Answer(0, Image(2, 4, 1, Other))),
    Breaks(6, Answer(0, Image(2, 4, 0, Disk))),
    Breaks(6, Answer(0, Free(2))),
    Keeps(Answer(0, Image(2, 4, 0, Other))),
];

const NO_BLOCK: &[Step] = &[
    Keeps(Start(0, Attach(0))),
    Keeps(Answer(0, Free(0))),
    Keeps(Start(0, Create(0, 0, Unnamed))),
    Keeps(Answer(0, OutOfRange(GREATEST_SIZE))),
    Keeps(Crash(0)),
    Keeps(Start(0, Attach(0))),
    Keeps(Answer(0, Free(0))),
    Keeps(Start(0, Create(0, 0, Unnamed))),
    Breaks(8, Answer(0, Created)),
];

const ONE_BLOCK: &[Step] = &[
    Keeps(Start(0, Attach(0))),
    Keeps(Answer(0, Free(0))),
    Keeps(Start(0, Create(0, 1, Unnamed))),
    Breaks(7, Answer(0, OutOfRange(GREATEST_SIZE))),
    Keeps(Crash(0)),
    Keeps(Start(0, Attach(0))),
    Keeps(Answer(0, Free(0))),
    Keeps(Start(0, Create(0, 1, Unnamed))),
    Keeps(Answer(0, Created)),
];

const MOST_BLOCKS: &[Step] = &[
    Keeps(Start(0, Attach(0))),
    Keeps(Answer(0, Free(0))),
    Keeps(Start(0, Create(0, GREATEST_SIZE, Unnamed))),
    Breaks(7, Answer(0, OutOfRange(GREATEST_SIZE))),
    Keeps(Crash(0)),
    Keeps(Start(0, Attach(0))),
    Keeps(Answer(0, Free(0))),
    Keeps(Start(0, Create(0, GREATEST_SIZE, Unnamed))),
    Keeps(Answer(0, Created)),
];

const MORE_BLOCKS: &[Step] = &[
    Keeps(Start(0, Attach(0))),
    Keeps(Answer(0, Free(0))),
    Keeps(Start(0, Create(0, GREATEST_SIZE + 1, Unnamed))),
    Keeps(Answer(0, OutOfRange(GREATEST_SIZE))),
    Keeps(Crash(0)),
    Keeps(Start(0, Attach(0))),
    Keeps(Answer(0, Free(0))),
    Keeps(Start(0, Create(0, GREATEST_SIZE + 1, Unnamed))),
    Breaks(8, Answer(0, Created)),
];

const NO_SLOT: &[Step] = &[
    Keeps(Start(0, Attach(2))),
    Breaks(6, Answer(0, Free(0))),
    Keeps(Answer(0, NoImage)),
    Keeps(Start(0, Read(2, 0))),
    Breaks(5, Answer(0, Data(0))),
    Breaks(7, Answer(0, NoImage)),
    Keeps(Answer(0, NotAttached)),
    Keeps(Start(0, Delete(300))),
    Breaks(5, Answer(0, Deleted)),
    Keeps(Answer(0, NotAttached)),
];

const TAKEN_OVER: &[Step] = &[
    Made(1, 7),
    Made(2, 8),
    Keeps(Start(0, Write(1, 2, 9))),
    Keeps(Start(1, Attach(1))),
    Breaks(6, Answer(1, Image(1, 8, 3, Disk))),
    Breaks(6, Answer(1, Image(1, 8, 1, Unnamed))),
    Keeps(Answer(1, Image(1, 8, 1, Disk))),
    Breaks(5, Answer(0, Written(2))),
    Keeps(Start(1, Read(1, 2))),
    Breaks(6, Answer(1, Data(9))),
    Keeps(Answer(1, Data(7))),
    Keeps(Answer(0, BUSY)),
    Keeps(Start(0, Read(1, 2))),
    Breaks(5, Answer(0, Data(7))),
    Breaks(7, Answer(0, NotAttached)),
    Keeps(Answer(0, LOST)),
    Keeps(Start(0, Read(2, 2))),
    Breaks(5, Answer(0, Data(8))),
    Keeps(Answer(0, NotAttached)),
    Keeps(Start(1, Write(1, 2, 5))),
    Keeps(Start(2, Attach(1))),
    Keeps(Answer(2, Image(1, 8, 2, Disk))),
    Breaks(5, Answer(1, Written(2))),
    Keeps(Start(2, Read(1, 2))),
    Breaks(6, Answer(2, Data(7))),
    Keeps(Answer(2, Data(5))),
];

const GIVEN_UP: &[Step] = &[
    Made(0, 7),
    Keeps(Start(0, Write(0, 2, 9))),
    Keeps(Start(1, Attach(0))),
    Keeps(Answer(1, Image(1, 8, 1, Disk))),
    Keeps(Start(1, Write(0, 2, 5))),
    Keeps(Answer(0, Full)),
    Keeps(Answer(1, Written(2))),
    Keeps(Start(1, Read(0, 2))),
    Keeps(Answer(1, Data(5))),
    Keeps(Start(1, Write(0, 2, 6))),
    Keeps(Answer(1, Full)),
    Keeps(Start(2, Attach(0))),
    Breaks(6, Answer(2, Image(1, 8, 3, Disk))),
    Keeps(Answer(2, Image(1, 8, 2, Disk))),
];

const LOSS_WITHOUT: &[Step] = &[
    Made(0, 7),
    Made(1, 8),
    // A write of the first image begins.
    Keeps(Start(0, Write(0, 2, 9))),
    // It is given up with all sessions of its appliance.
    Keeps(Answer(0, LOST)),
    Keeps(Start(0, Read(0, 2))),
    Breaks(5, Answer(0, Data(7))),
    Keeps(Answer(0, NotAttached)),
    Keeps(Start(0, Read(1, 2))),
    Keeps(Answer(0, NotAttached)),
    // The next attach shows that the image doesn't have the write.
    Keeps(Start(1, Attach(0))),
    Breaks(6, Answer(1, Image(1, 8, 3, Disk))),
    Keeps(Answer(1, Image(1, 8, 1, Disk))),
    Keeps(Start(1, Read(0, 2))),
    Breaks(6, Answer(1, Data(9))),
    Keeps(Answer(1, Data(7))),
];

const LOSS_WITH: &[Step] = &[
    Made(0, 7),
    Made(1, 8),
    // A write of the first image begins.
    Keeps(Start(0, Write(0, 2, 9))),
    // It is given up with all sessions of its appliance.
    Keeps(Answer(0, LOST)),
    Keeps(Start(0, Read(0, 2))),
    Breaks(5, Answer(0, Data(7))),
    Keeps(Answer(0, NotAttached)),
    Keeps(Start(0, Read(1, 2))),
    Keeps(Answer(0, NotAttached)),
    // The next attach shows that the image has it.
    Keeps(Start(1, Attach(0))),
    Breaks(6, Answer(1, Image(1, 8, 3, Disk))),
    Keeps(Answer(1, Image(1, 8, 2, Disk))),
    Keeps(Start(1, Read(0, 2))),
    Breaks(6, Answer(1, Data(7))),
    Keeps(Answer(1, Data(9))),
];

const FAULT_WITHOUT: &[Step] = &[
    Made(0, 7),
    Made(1, 8),
    // A write of the first image begins.
    Keeps(Start(0, Write(0, 2, 9))),
    Keeps(Answer(0, WriteFault(7))),
    Keeps(Start(0, Read(0, 2))),
    Breaks(5, Answer(0, Data(7))),
    Keeps(Answer(0, NotAttached)),
    Keeps(Start(0, Read(1, 2))),
    Keeps(Answer(0, NotAttached)),
    // The next attach shows that the image doesn't have the write.
    Keeps(Start(1, Attach(0))),
    Breaks(6, Answer(1, Image(1, 8, 3, Disk))),
    Keeps(Answer(1, Image(1, 8, 1, Disk))),
    Keeps(Start(1, Read(0, 2))),
    Breaks(6, Answer(1, Data(9))),
    Keeps(Answer(1, Data(7))),
];

const FAULT_WITH: &[Step] = &[
    Made(0, 7),
    Made(1, 8),
    // A write of the first image begins.
    Keeps(Start(0, Write(0, 2, 9))),
    Keeps(Answer(0, WriteFault(7))),
    Keeps(Start(0, Read(0, 2))),
    Breaks(5, Answer(0, Data(7))),
    Keeps(Answer(0, NotAttached)),
    Keeps(Start(0, Read(1, 2))),
    Keeps(Answer(0, NotAttached)),
    // The next attach shows that the image has it.
    Keeps(Start(1, Attach(0))),
    Breaks(6, Answer(1, Image(1, 8, 3, Disk))),
    Keeps(Answer(1, Image(1, 8, 2, Disk))),
    Keeps(Start(1, Read(0, 2))),
    Breaks(6, Answer(1, Data(7))),
    Keeps(Answer(1, Data(9))),
];

const CRASH_WITHOUT: &[Step] = &[
    Made(0, 7),
    Made(1, 8),
    // A write of the first image begins.
    Keeps(Start(0, Write(0, 2, 9))),
    Keeps(Crash(0)),
    Keeps(Start(0, Read(0, 2))),
    Breaks(5, Answer(0, Data(7))),
    Keeps(Answer(0, NotAttached)),
    Keeps(Start(0, Read(1, 2))),
    Keeps(Answer(0, NotAttached)),
    // The next attach shows that the image doesn't have the write.
    Keeps(Start(1, Attach(0))),
    Breaks(6, Answer(1, Image(1, 8, 3, Disk))),
    Keeps(Answer(1, Image(1, 8, 1, Disk))),
    Keeps(Start(1, Read(0, 2))),
    Breaks(6, Answer(1, Data(9))),
    Keeps(Answer(1, Data(7))),
];

const CRASH_WITH: &[Step] = &[
    Made(0, 7),
    Made(1, 8),
    // A write of the first image begins.
    Keeps(Start(0, Write(0, 2, 9))),
    Keeps(Crash(0)),
    Keeps(Start(0, Read(0, 2))),
    Breaks(5, Answer(0, Data(7))),
    Keeps(Answer(0, NotAttached)),
    Keeps(Start(0, Read(1, 2))),
    Keeps(Answer(0, NotAttached)),
    // The next attach shows that the image has it.
    Keeps(Start(1, Attach(0))),
    Breaks(6, Answer(1, Image(1, 8, 3, Disk))),
    Keeps(Answer(1, Image(1, 8, 2, Disk))),
    Keeps(Start(1, Read(0, 2))),
    Breaks(6, Answer(1, Data(7))),
    Keeps(Answer(1, Data(9))),
];

const REFUSALS: &[Step] = &[
    Made(1, 8),
    // A flush of the second image is refused, which stays attached.
    Keeps(Start(0, Flush(1))),
    Keeps(Answer(0, BUSY)),
    Keeps(Start(0, Read(1, 2))),
    Breaks(7, Answer(0, NotAttached)),
    Keeps(Answer(0, Data(8))),
    Keeps(Start(0, Flush(1))),
    Keeps(Answer(0, ReadFault(9))),
    Keeps(Start(0, Read(1, 2))),
    Breaks(7, Answer(0, NotAttached)),
    Keeps(Answer(0, Data(8))),
    Keeps(Start(0, Flush(1))),
    Keeps(Answer(0, Full)),
    Keeps(Start(0, Read(1, 2))),
    Breaks(7, Answer(0, NotAttached)),
    Keeps(Answer(0, Data(8))),
    Keeps(Start(0, Flush(1))),
    Keeps(Answer(0, Damaged(9))),
    Keeps(Start(0, Read(1, 2))),
    Breaks(7, Answer(0, NotAttached)),
    Keeps(Answer(0, Data(8))),
];

const WORN_OUT: &[Step] = &[
    Keeps(Start(0, Attach(0))),
    // The command may say that no claim is left.
    Breaks(7, Answer(0, WornOut(LAST_WRITE))),
    Breaks(7, Answer(0, WornOut(LAST_GENERATION))),
    Keeps(Answer(0, WornOut(LAST_CLAIM))),
    Keeps(Crash(0)),
    Keeps(Start(0, Write(0, 2, 1))),
    // The command may say that no claim is left.
    Breaks(7, Answer(0, WornOut(LAST_WRITE))),
    Breaks(7, Answer(0, WornOut(LAST_GENERATION))),
    Keeps(Answer(0, WornOut(LAST_CLAIM))),
    Keeps(Crash(0)),
    Keeps(Start(0, Flush(0))),
    // The command may say that no claim is left.
    Breaks(7, Answer(0, WornOut(LAST_WRITE))),
    Breaks(7, Answer(0, WornOut(LAST_GENERATION))),
    Keeps(Answer(0, WornOut(LAST_CLAIM))),
    Keeps(Crash(0)),
    Keeps(Start(0, Reserve)),
    // The command may say that no claim is left.
    Breaks(7, Answer(0, WornOut(LAST_WRITE))),
    Breaks(7, Answer(0, WornOut(LAST_GENERATION))),
    Keeps(Answer(0, WornOut(LAST_CLAIM))),
    Keeps(Crash(0)),
    Keeps(Start(0, Reclaim)),
    // The command may say that no claim is left.
    Breaks(7, Answer(0, WornOut(LAST_WRITE))),
    Breaks(7, Answer(0, WornOut(LAST_GENERATION))),
    Keeps(Answer(0, WornOut(LAST_CLAIM))),
    Keeps(Crash(0)),
    Keeps(Start(0, Create(0, 8, Disk))),
    // The command may say that a count is at its end, but not here.
    Breaks(7, Answer(0, WornOut(LAST_WRITE))),
    Breaks(7, Answer(0, WornOut(LAST_GENERATION))),
    Breaks(7, Answer(0, WornOut(LAST_CLAIM))),
    Keeps(Crash(0)),
    Keeps(Start(0, Detach(0))),
    // The command never says so.
    Breaks(4, Answer(0, WornOut(LAST_WRITE))),
    Breaks(4, Answer(0, WornOut(LAST_GENERATION))),
    Breaks(4, Answer(0, WornOut(LAST_CLAIM))),
    Keeps(Crash(0)),
    Keeps(Start(0, Delete(0))),
    // The command never says so.
    Breaks(4, Answer(0, WornOut(LAST_WRITE))),
    Breaks(4, Answer(0, WornOut(LAST_GENERATION))),
    Breaks(4, Answer(0, WornOut(LAST_CLAIM))),
    Keeps(Crash(0)),
    Keeps(Start(0, Read(0, 2))),
    // The command never says so.
    Breaks(4, Answer(0, WornOut(LAST_WRITE))),
    Breaks(4, Answer(0, WornOut(LAST_GENERATION))),
    Breaks(4, Answer(0, WornOut(LAST_CLAIM))),
    Keeps(Crash(0)),
    Keeps(Start(0, Renew)),
    // The command never says so.
    Breaks(4, Answer(0, WornOut(LAST_WRITE))),
    Breaks(4, Answer(0, WornOut(LAST_GENERATION))),
    Breaks(4, Answer(0, WornOut(LAST_CLAIM))),
    Keeps(Crash(0)),
    Keeps(Start(0, Retire)),
    // The command never says so.
    Breaks(4, Answer(0, WornOut(LAST_WRITE))),
    Breaks(4, Answer(0, WornOut(LAST_GENERATION))),
    Breaks(4, Answer(0, WornOut(LAST_CLAIM))),
    Keeps(Crash(0)),
];

const FRESH_BLOCKS: &[Step] = &[
    Made(0, 7),
    Keeps(Start(0, Flush(0))),
    Breaks(6, Answer(0, Flushed(0))),
    Breaks(6, Answer(0, Flushed(2))),
    Keeps(Answer(0, Flushed(1))),
    Keeps(Start(0, Reserve)),
    Breaks(4, Answer(0, Retired)),
    Keeps(Answer(0, Reserved)),
    Keeps(Start(0, Renew)),
    Keeps(Answer(0, Renewed)),
    Keeps(Start(0, Retire)),
    Keeps(Answer(0, Retired)),
    Keeps(Start(0, Reclaim)),
    Keeps(Answer(0, Reclaimed)),
    Keeps(Start(0, Read(0, 2))),
    Keeps(Answer(0, Data(7))),
];

/// What a trace shows, its numbers of images and appliances, and its steps.
type Trace = (&'static str, u32, u32, &'static [Step]);

const TRACES: &[Trace] = &[
    (
        "each rule is named where it is the least",
        3,
        2,
        LEAST_RULES,
    ),
    ("a slot is made, deleted and made again", 2, 1, MADE_AGAIN),
    ("an image of no block is refused", 1, 1, NO_BLOCK),
    ("an image of one block is made", 1, 1, ONE_BLOCK),
    ("an image of the most blocks is made", 1, 1, MOST_BLOCKS),
    ("an image of more blocks is refused", 1, 1, MORE_BLOCKS),
    ("a slot that there is not has no image", 2, 1, NO_SLOT),
    ("another appliance takes an image over", 3, 3, TAKEN_OVER),
    (
        "a refusal gives up a change of the owner alone",
        1,
        3,
        GIVEN_UP,
    ),
    (
        "a loss ends all sessions, and the write isn't there",
        2,
        2,
        LOSS_WITHOUT,
    ),
    (
        "a loss ends all sessions, and the write is there",
        2,
        2,
        LOSS_WITH,
    ),
    (
        "a fault ends all sessions, and the write isn't there",
        2,
        2,
        FAULT_WITHOUT,
    ),
    (
        "a fault ends all sessions, and the write is there",
        2,
        2,
        FAULT_WITH,
    ),
    (
        "a crash ends all sessions, and the write isn't there",
        2,
        2,
        CRASH_WITHOUT,
    ),
    (
        "a crash ends all sessions, and the write is there",
        2,
        2,
        CRASH_WITH,
    ),
    ("other refusals end no session", 2, 1, REFUSALS),
    (
        "a boot without claims says so of commands that claim",
        1,
        1,
        WORN_OUT,
    ),
    (
        "the model knows nothing of fresh blocks",
        1,
        1,
        FRESH_BLOCKS,
    ),
];

#[test]
fn each_entry_of_a_trace_breaks_its_least_rule(rt: HostRuntime) {
    for &(name, images, appliances, steps) in TRACES {
        assert_eq!(rt;
            first_wrong(rt.alloc(), images, appliances, steps),
            None,
            "{name}"
        );
    }
}
