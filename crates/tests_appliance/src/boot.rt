//! A boot of an appliance that is answered by hand, ask by ask. On its small device block 2 is the
//! lease of image 0, 4 the image's record, 6 and 8 its descriptors, 7 and 9 their data.
ghost use Rattle.std.specs.Prelude.{IfOk};
ghost use Rattle.plx_rules.specs.Commands.{IsBuilt, IsWellFormed};

use crate::content::Content;
use crate::content::Content::{FreeLease, Lease};
use crate::machine::Asked::Attach;
use crate::machine::Step::{Begins, Bytes, Clock, Done, Ends, Gets, Until};
use crate::machine::{Asked, Machine, Outcome, Step, Trouble, first_wrong};
use plx_appliance::Appliance;
use plx_base::{ApplianceNo, Block, Boot, Label, NoMemory, Payload, SlotNo, WriteKind};
use plx_commands::{Command, Reply};
use plx_disk::{Answer, Ask};
use plx_session::Setting;
use std::alloc::Global;
use std::process::Abort;
use tests_format::SMALL;

/// An attach has claimed the lease, as the boot's first claim, at 1,000 ms, and holds it up to
/// 11,000 ms. It reads the record next.
pub(crate) const CLAIMED: &[Step] = &[
    Begins(Attach),
    // The command's first reading, and the claim's sample.
    Clock(1_010),
    Clock(1_000),
    Bytes(2, FreeLease),
    Done(WriteKind::Claim, 2, 1_200, Lease(7, 0, 1_000, 11_000)),
    Until(1_601, 1_601),
    Bytes(2, Lease(7, 0, 1_000, 11_000)),
];

/// The same, as the boot's second claim.
pub(crate) const CLAIMED_AGAIN: &[Step] = &[
    Begins(Attach),
    Clock(1_010),
    Clock(1_000),
    Bytes(2, FreeLease),
    Done(WriteKind::Claim, 2, 1_200, Lease(7, 1, 1_000, 11_000)),
    Until(1_601, 1_601),
    Bytes(2, Lease(7, 1, 1_000, 11_000)),
];

/// An attach that has claimed the lease finds an image of generation 1 that was never written.
pub(crate) const LIVE: &[Step] = &[
    Bytes(4, Content::LiveSlot(1, 0)),
    Bytes(6, Content::Zeros),
    Bytes(8, Content::Zeros),
    Clock(10_999),
    Ends(b"attached live=1 gen=1 size=8 writes=0 taken=0 dropped=0 label=a"),
];

/// A create of an attached slot that is free, up to its record.
pub(crate) const CREATES: &[Step] = &[
    Bytes(4, Content::FreeSlot(0)),
    Clock(10_999),
    Ends(b"attached live=0 gen=0 size=0 writes=0 taken=0 dropped=0 label=-"),
    Begins(Asked::Create),
    Clock(1_700),
];

/// An attach couldn't read the record.
pub(crate) const UNREAD: &[Step] = &[Gets(Trouble::Fault, Outcome::Told(b"read-fault block=4"))];

/// A claim reads the lease.
pub(crate) const SAMPLED: &[Step] = &[Begins(Attach), Clock(1_000), Clock(1_000)];

/// It has waited, and reads the lease again.
pub(crate) const WAITED: &[Step] = &[
    Bytes(2, FreeLease),
    Done(WriteKind::Claim, 2, 1_200, Lease(7, 0, 1_000, 11_000)),
    Until(1_601, 1_650),
];

impl Machine for Appliance {
    fn asks(&mut self) -> Option<Ask> {
        if self.is_idle() {
            return None;
        }
        Some(self.ask())
    }

    fn writes(&mut self, bytes: &[u8]) -> bool {
        !self.is_idle() && self.out() == bytes
    }

    fn gets(&mut self, answer: &Answer) -> Option<Reply> {
        if self.is_idle() {
            return None;
        }
        self.answer(answer)
    }

    fn begins(&mut self, alloc: Global, asked: Asked) -> bool {
        if !self.is_idle() {
            return false;
        }
        match command(alloc, asked) {
            Ok(command) => self.begin(alloc, command).is_ok(),
            Err(_) => false,
        }
    }
}

/// A story's name, and its parts.
pub(crate) type Story = (&'static str, &'static [&'static [Step]]);

/// A boot plays each of these stories.
pub(crate) fn play_each(rt: &impl Abort, alloc: Global, stories: &[Story]) {
    for &(name, parts) in stories {
        play(rt, alloc, name, parts, &[], &[]);
    }
}

/// A boot that was asked nothing yet, boot 7 of appliance 0, plays these parts of the story of this name,
/// then what is found, and then these parts.
pub(crate) fn play(
    rt: &impl Abort,
    alloc: Global,
    name: &str,
    before: &[&[Step]],
    found: &[Step],
    after: &[&[Step]],
) {
    let setting = Setting::new(SMALL, ApplianceNo(0), Boot(7));
    let mut appliance = Appliance::fresh(alloc, setting).expect(rt, "memory");
    let wrong = first_wrong_step(alloc, &mut appliance, before, found, after);
    assert_eq!(rt; wrong, None, "{name}");
    end(appliance);
}

fn first_wrong_step(
    alloc: Global,
    machine: &mut dyn Machine,
    before: &[&[Step]],
    found: &[Step],
    after: &[&[Step]],
) -> Option<usize> {
    first_wrong(alloc, machine, before)
        .or(first_wrong(alloc, machine, &[found]))
        .or(first_wrong(alloc, machine, after))
}

// (A drop of so large a value is long in each function that has one.)
fn end(appliance: Appliance) {
    let _appliance = appliance;
}

/// The command.
fn command(alloc: Global, asked: Asked) -> Result<Command, NoMemory>
    ensures built { IfOk result IsBuilt }
    ensures limits { IfOk result IsWellFormed }
{
    let (slot, vblock) = (SlotNo(0), 3);
    Ok(match asked {
        Asked::Attach => Command::Attach { slot },
        Asked::Detach => Command::Detach { slot },
        Asked::Renew => Command::Renew,
        Asked::Create => Command::Create {
            slot,
            size: 8,
            label: Label::new(b"a").unwrap_or(Label::empty()),
        },
        Asked::Delete => Command::Delete { slot },
        Asked::Read => Command::Read { slot, vblock },
        Asked::Write(byte) => {
            let block = Block::filled(alloc, byte)?;
            let _bytes = block.as_slice();
            let payload = Payload::Whole(block);
            Command::Write {
                slot,
                vblock,
                payload,
            }
        }
    })
}
