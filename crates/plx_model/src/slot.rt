//! One slot of the model: its image, the change of it that is under way, and its owner.
ghost use Rattle.std.specs.Prelude.{◌<◌, ◌^◌, length};

use crate::frozen::{Frozen, count_dropped};
use crate::refusals::ImageRefusals;
use crate::report::is_same;
use plx_base::{Block, Label, NoMemory};
use plx_commands::{Command, GREATEST_SIZE, LAST_GENERATION, LAST_WRITE, Report};
use std::alloc::Global;
use std::collections::BTreeMap;

/// A change of an image.
#[derive(Drop)]
pub enum Change {
    /// The image's write of this number.
    Write {
        number: u64,
        vblock: u32,
        block: Block,
    },
    /// The image of this generation is made.
    Create {
        generation: u32,
        size: u32,
        label: Label,
    },
    /// The slot is made free.
    Delete,
}

/// What is kept of a slot. A virtual block without an entry is zeros.
#[derive(Drop)]
pub struct SlotState {
    pub live: bool,
    pub generation: u32,
    pub size: u32,
    pub label: Label,
    pub writes: u64,
    pub content: BTreeMap<u32, Block>,
    pub frozen: Vec<Frozen>,
    pub change: Option<Change>,
    pub owner: Option<u32>,
    ghost few_taken: { length frozen.items < 2 ^ 32 },
}

impl SlotState {
    ghost use Rattle.std.specs.Prelude.{◌≡◌, ◌++◌, ◌↔◌, [], IsTrue, OnOk, OnErr, IfOk, None, Some};
    ghost use Rattle.plx_base.specs.Blocks.{zeros};
    ghost use Rattle.plx_commands.specs.Facts.{of_block, of_generation, of_none, of_size, of_some, of_writes};
    ghost use Rattle.plx_commands.specs.Images.{report_of};
    ghost use Rattle.plx_commands.specs.Model.{first_slot, owns};
    ghost use Rattle.plx_commands.specs.Moves.{slot_after_attach, slot_without_owner, given_up, slot_after_change, under_way};
    ghost use Rattle.plx_commands.specs.Reports.{IsReported};
    ghost use Rattle.plx_commands.specs.Slots.{image_after};
    ghost use Rattle.plx_model.specs.Shown.{CanChange, changed_by, changed_image, shown_image, listed_images, is_report_of, of_image, slot_of};

    // A slot before the first entry.
    pub fn new(alloc: Global) -> SlotState
        ensures { slot_of result ≡ first_slot }
    {
        SlotState {
            live: false,
            generation: 0,
            size: 0,
            label: Label::empty(),
            writes: 0,
            content: BTreeMap::new(alloc),
            frozen: Vec::new(alloc),
            change: None,
            owner: None,
        }
    }

    // Whether the appliance owns the image.
    pub fn is_owned_by(&self, appliance: u32) -> bool
        ensures { result ≡ owns self.now.owner appliance }
    {
        match self.owner {
            Some(owner) => owner == appliance,
            None => false,
        }
    }

    // What an attach reports of the image.
    fn report(&self) -> Report
        ensures { result ≡ report_of (shown_image self.now) }
    {
        Report {
            live: self.live,
            generation: self.generation,
            size: self.size,
            writes: self.writes,
            taken: self.frozen.len() as u32,
            dropped: count_dropped(&self.frozen),
            label: self.label.copy(),
        }
    }

    // What an attach reports of the image that the change makes.
    fn report_after(&self, change: &Change) -> Report
        ensures { result ≡ report_of (changed_image (shown_image self.now) change.now) }
    {
        match change {
            Change::Write { number, .. } => {
                let mut report = self.report();
                report.writes = *number;
                report
            }
            Change::Create {
                generation,
                size,
                label,
            } => Report {
                live: true,
                generation: *generation,
                size: *size,
                writes: 0,
                taken: 0,
                dropped: 0,
                label: label.copy(),
            },
            Change::Delete => Report {
                live: false,
                generation: self.generation,
                size: 0,
                writes: 0,
                taken: 0,
                dropped: 0,
                label: Label::empty(),
            },
        }
    }

    // Whether the report is the image's, or that of its change.
    pub fn is_reported(&self, report: &Report) -> bool
        ensures { IsTrue result ↔ IsReported (slot_of self.now).image
            (slot_of self.now).change report.now }
    {
        self.is_own(report) || self.is_of_change(report)
    }

    fn is_own(&self, report: &Report) -> bool
        ensures { result ≡ is_report_of (Some (shown_image self.now)) report.now }
    {
        is_same(report, &self.report())
    }

    fn is_of_change(&self, report: &Report) -> bool
        ensures { result ≡ is_report_of (slot_of self.now).change report.now }
    {
        match &self.change {
            Some(change) => is_same(report, &self.report_after(change)),
            None => false,
        }
    }

    // The change that a command makes of the image.
    fn change_by(&self, alloc: Global, command: &Command) -> Result<Option<Change>, NoMemory>
        ensures { IfOk result (λ change. CanChange (shown_image self.now) command.now
            → changed_by (shown_image self.now) change
            ≡ Some (image_after (λ slot. shown_image self.now) 0 command.now)) }
    {
        match command {
            Command::Create { size, label, .. } => {
                let Some(generation) = self.generation.checked_add(1) else {
                    return Ok(None);
                };
                Ok(Some(Change::Create {
                    generation,
                    size: *size,
                    label: label.copy(),
                }))
            }
            Command::Delete { .. } => Ok(Some(Change::Delete)),
            Command::Write {
                vblock,
                payload,
                ..
            } => {
                let Some(number) = self.writes.checked_add(1) else {
                    return Ok(None);
                };
                let block = payload.to_block(alloc)?;
                Ok(Some(Change::Write {
                    number,
                    vblock: *vblock,
                    block,
                }))
            }
            _ => Ok(None),
        }
    }

    // A command's change is under way.
    pub fn begin(&mut self, alloc: Global, command: &Command) -> Result<(), NoMemory>
        ensures ok { OnOk result (CanChange (shown_image self.old) command.now → slot_of self.new
            ≡ under_way (slot_of self.old)
            (image_after (λ slot. shown_image self.old) 0 command.now)) }
        ensures err { OnErr result (slot_of self.new ≡ slot_of self.old) }
    {
        let change = self.change_by(alloc, command)?;
        self.set_change(change);
        Ok(())
    }

    // The change under way is given up.
    pub fn give_up(&mut self)
        ensures { slot_of self.new ≡ given_up (slot_of self.old) }
    {
        self.set_change(None);
    }

    // This change is under way, or none, and the one that was is dropped.
    fn set_change(&mut self, change: Option<Change>)
        ensures { slot_of self.new ≡ record (slot_of self.old) {
          change = changed_by (shown_image self.old) change;
        } }
    {
        self.change = change;
    }

    // The change under way is made.
    pub fn make(&mut self, alloc: Global) -> Result<(), NoMemory>
        ensures ok { OnOk result (slot_of self.new ≡ slot_after_change (slot_of self.old)) }
        ensures err { OnErr result (slot_of self.new ≡ slot_of self.old) }
    {
        match self.change.take() {
            None => Ok(()),
            Some(
                Change::Write {
                    number,
                    vblock,
                    block,
                },
            ) => self.write(number, vblock, block),
            Some(
                Change::Create {
                    generation,
                    size,
                    label,
                },
            ) => {
                self.live = true;
                self.generation = generation;
                self.clear(alloc, size, label);
                Ok(())
            }
            Some(Change::Delete) => {
                self.live = false;
                self.clear(alloc, 0, Label::empty());
                Ok(())
            }
        }
    }

    // The virtual block holds the bytes of the image's write of this number.
    fn write(&mut self, number: u64, vblock: u32, block: Block) -> Result<(), NoMemory>
        requires { self.old.change ≡ None }
        ensures ok { OnOk result (slot_of self.new ≡ record (slot_of self.old) {
          image = changed_image (shown_image self.old) (Change.Write number vblock block);
        }) }
        ensures err { OnErr result (slot_of self.new ≡ record (slot_of self.old) {
          change = Some (changed_image (shown_image self.old) (Change.Write number vblock block));
        }) }
    {
        match self.content.insert(vblock, block) {
            Ok(_) => {
                self.writes = number;
                Ok(())
            }
            Err(failed) => {
                let (vblock, block) = failed.value;
                self.set_change(Some(Change::Write {
                    number,
                    vblock,
                    block,
                }));
                Err(NoMemory)
            }
        }
    }

    // The image has this size and label, was never written, and has no snapshot.
    fn clear(&mut self, alloc: Global, size: u32, label: Label)
        ensures image { shown_image self.new ≡ record (shown_image self.old) {
          size = size;
          label = label;
          writes = 0;
          content = λ vblock. zeros;
          frozen = [];
        } }
        ensures change { self.new.change ≡ self.old.change }
        ensures owner { self.new.owner ≡ self.old.owner }
    {
        self.size = size;
        self.label = label;
        self.writes = 0;
        self.content = BTreeMap::new(alloc);
        self.frozen = Vec::new(alloc);
    }

    // The report decides which image it is, and the appliance owns it.
    pub fn attach(&mut self, alloc: Global, report: &Report, appliance: u32) -> Result<(), NoMemory>
        ensures ok { OnOk result (slot_of self.new
            ≡ slot_after_attach (slot_of self.old) appliance report.now) }
        ensures err { OnErr result (slot_of self.new ≡ slot_of self.old) }
    {
        if self.is_own(report) {
            self.give_up();
        } else {
            self.make(alloc)?;
        }
        self.owner = Some(appliance);
        Ok(())
    }

    // The appliance owns the image no longer.
    pub fn disown(&mut self, appliance: u32)
        ensures { slot_of self.new ≡ slot_without_owner (slot_of self.old) appliance }
    {
        if self.is_owned_by(appliance) {
            self.owner = None;
        }
    }

    // What is refused of a command by the image.
    pub fn of_command(&self, command: &Command) -> ImageRefusals
        ensures { listed_images result ≡ of_image (shown_image self.now) command.now }
    {
        match command {
            Command::Create { size, .. } => self.of_create(*size),
            Command::Read { vblock, .. } => self.of_read(*vblock),
            Command::Write { vblock, .. } => self.of_write(*vblock),
            Command::Delete { .. } | Command::Flush { .. } => self.of_use(),
            Command::Attach { .. }
            | Command::Detach { .. }
            | Command::Reserve { .. }
            | Command::Renew
            | Command::Retire
            | Command::Reclaim => ImageRefusals::none(),
        }
    }

    // What is refused of a command that wants an image.
    fn of_use(&self) -> ImageRefusals
        ensures { listed_images result ≡ of_none (shown_image self.now) }
    {
        ImageRefusals {
            no_image: !self.live,
            exists: false,
            range: None,
            worn: None,
        }
    }

    // What is refused of a read of the block.
    fn of_read(&self, vblock: u32) -> ImageRefusals
        ensures { listed_images result ≡ of_none (shown_image self.now) ++ of_block
            (shown_image self.now) vblock }
    {
        ImageRefusals {
            no_image: !self.live,
            exists: false,
            range: if self.size <= vblock {
                Some(self.size)
            } else {
                None
            },
            worn: None,
        }
    }

    // What is refused of a write of the block.
    fn of_write(&self, vblock: u32) -> ImageRefusals
        ensures { listed_images result ≡ of_none (shown_image self.now)
            ++ (of_block (shown_image self.now) vblock ++ of_writes (shown_image self.now)) }
    {
        ImageRefusals {
            no_image: !self.live,
            exists: false,
            range: if self.size <= vblock {
                Some(self.size)
            } else {
                None
            },
            worn: if LAST_WRITE <= self.writes {
                Some(LAST_WRITE)
            } else {
                None
            },
        }
    }

    // What is refused of a create of an image of this size.
    fn of_create(&self, size: u32) -> ImageRefusals
        ensures { listed_images result ≡ of_some (shown_image self.now)
            ++ (of_size size ++ of_generation (shown_image self.now)) }
    {
        ImageRefusals {
            no_image: false,
            exists: self.live,
            range: if 0 < size && size <= GREATEST_SIZE {
                None
            } else {
                Some(GREATEST_SIZE)
            },
            worn: if LAST_GENERATION <= self.generation {
                Some(u64::from(LAST_GENERATION))
            } else {
                None
            },
        }
    }
}
