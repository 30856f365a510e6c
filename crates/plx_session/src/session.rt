//! What an appliance knows of an attached image.
ghost use Rattle.std.specs.Prelude.{◌≡◌, ◌≤◌, ◌<◌, ◌+◌, ◌^◌, true, IfOk};
ghost use Rattle.std.specs.Vec.{vec_len};
ghost use Rattle.plx_gate.specs.Images.{is_image, label_of};

use crate::journal::Journal;
use plx_base::{Block, Label, NoMemory};
use plx_commands::Report;
use plx_gate::ImageRecord;
use std::alloc::Global;

/// The image's record, and the writes that its journal holds.
#[derive(Drop)]
pub struct Session {
    pub image: ImageRecord,
    pub journal: Journal,
    ghost limits: { is_image image ≡ true },
}

impl Session {
    ghost use Rattle.plx_rules.specs.Records.{applied_of, generation_of, is_live, size_of, taken_of};
    ghost use Rattle.plx_rules.specs.Session.{content, first_gap, with_write_by_number, new_session, session_report, write_count, with_write};
    ghost use Rattle.plx_session.specs.Shown.{session_of, writes_of};

    /// A session of a journal without slots, which takes no memory.
    pub fn empty(alloc: Global) -> Session
        ensures { result.journal.slots ≡ 0 }
    {
        Session {
            image: ImageRecord::Free { generation: 0 },
            journal: Journal::empty(alloc),
        }
    }

    /// A session of a free slot, with all the memory that its journal can need.
    pub fn new(alloc: Global, slots: u32) -> Result<Session, NoMemory>
        ensures slots { IfOk result (λ s. s.journal.slots ≡ slots) }
        ensures empty { IfOk result (λ s. vec_len s.journal.writes ≡ 0) }
    {
        let journal = Journal::new(alloc, slots)?;
        Ok(Session {
            image: ImageRecord::Free { generation: 0 },
            journal,
        })
    }

    /// Whether there is an image.
    pub fn is_live(&self) -> bool
        ensures { result ≡ is_live self.now.image }
    {
        match &self.image {
            ImageRecord::Free { .. } => false,
            ImageRecord::Live(_) => true,
        }
    }

    /// How often an image was made in the slot.
    pub fn generation(&self) -> u32
        ensures same { result ≡ generation_of self.now.image }
        ensures made { is_live self.now.image ≡ true → 1 ≤ result }
    {
        match &self.image {
            ImageRecord::Free { generation } => *generation,
            ImageRecord::Live(live) => live.generation,
        }
    }

    /// The image's size in blocks, 0 where there is none.
    pub fn size(&self) -> u32
        ensures same { result ≡ size_of self.now.image }
        ensures high { result ≤ 2 ^ 27 }
    {
        match &self.image {
            ImageRecord::Free { .. } => 0,
            ImageRecord::Live(live) => live.size,
        }
    }

    /// How many snapshots the image counts.
    pub fn taken(&self) -> u32
        ensures { result ≡ taken_of self.now.image }
    {
        match &self.image {
            ImageRecord::Free { .. } => 0,
            ImageRecord::Live(live) => live.taken,
        }
    }

    /// The number of the last write that the image's tree has.
    pub fn applied(&self) -> u64
        ensures same { result ≡ applied_of self.now.image }
        ensures high { result < 2 ^ 48 }
    {
        match &self.image {
            ImageRecord::Free { .. } => 0,
            ImageRecord::Live(live) => live.applied,
        }
    }

    /// How often the image was written.
    pub fn count(&self) -> u64
        ensures { result ≡ write_count (session_of self.now) }
    {
        self.applied() + self.journal.len() as u64
    }

    /// What an attach reports of it.
    pub fn report(&self) -> Report
        ensures { result ≡ session_report (session_of self.now) }
    {
        Report {
            live: self.is_live(),
            generation: self.generation(),
            size: self.size(),
            writes: self.count(),
            taken: self.taken(),
            dropped: 0,
            label: label(&self.image),
        }
    }

    /// The journal holds one more write.
    pub fn push(&mut self, number: u64, vblock: u32, bytes: &Block)
        requires { vec_len self.old.journal.writes < self.old.journal.slots }
        ensures slots { self.new.journal.slots ≡ self.old.journal.slots }
        ensures session { session_of self.new ≡ with_write (session_of self.old)
            (record { number = number; vblock = vblock; block = bytes.now }) }
    {
        self.journal.push(number, vblock, bytes);
    }

    /// The journal was found to hold one more write, among the others by its number.
    pub fn insert(&mut self, number: u64, vblock: u32, bytes: &Block)
        requires { vec_len self.old.journal.writes < self.old.journal.slots }
        ensures slots { self.new.journal.slots ≡ self.old.journal.slots }
        ensures image { self.new.image ≡ self.old.image }
        ensures writes { writes_of self.new.journal ≡ with_write_by_number
            (record { number = number; vblock = vblock; block = bytes.now })
            (writes_of self.old.journal) }
        ensures len { vec_len self.new.journal.writes ≡ vec_len self.old.journal.writes + 1 }
    {
        self.journal.insert(number, vblock, bytes);
    }

    /// The number of the first write that doesn't follow on the one before it.
    pub fn gap(&self) -> Option<u64>
        ensures { result ≡ first_gap (applied_of self.now.image) (writes_of self.now.journal) }
    {
        self.journal.gap(self.applied())
    }

    /// The session of an image that was just made, or of a slot that was just made free.
    pub fn start(&mut self, image: ImageRecord)
        requires { is_image image ≡ true }
        ensures slots { self.new.journal.slots ≡ self.old.journal.slots }
        ensures session { session_of self.new ≡ new_session image }
        ensures empty { vec_len self.new.journal.writes ≡ 0 }
    {
        self.journal.clear();
        self.image = image;
    }

    /// Copies what a virtual block holds.
    pub fn read(&self, vblock: u32, into: &mut Block)
        ensures { into.new ≡ content (session_of self.now) vblock }
    {
        self.journal.read(vblock, into);
    }
}

// The label of a record.
fn label(image: &ImageRecord) -> Label
    ensures { result ≡ label_of image.now }
{
    match image {
        ImageRecord::Free { .. } => Label::empty(),
        ImageRecord::Live(live) => live.label.copy(),
    }
}
