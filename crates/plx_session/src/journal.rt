//! The writes that an image's journal holds.
ghost use Rattle.std.specs.Prelude.{◌≡◌, ◌≤◌, ◌*◌, length};
ghost use Rattle.std.specs.Vec.{vec_len, vec_capacity};
ghost use Rattle.plx_base.specs.Blocks.{zeros};
ghost use Rattle.plx_session.specs.PlacedWrites.{AreWithinBlocks};

use plx_base::{BLOCK_LEN, Block, NoMemory};
use std::alloc::Global;

/// A write that a journal holds: its number, its virtual block, and which of the journal's blocks has its bytes.
#[derive(Clone, Copy)]
pub struct PlacedWrite {
    pub number: u64,
    pub vblock: u32,
    pub place: usize,
}

/// The writes that a journal of so many slots holds, in order of number, and their blocks one after another, in the
/// order in which they came. There is memory for a write in each slot.
#[derive(Drop)]
pub struct Journal {
    pub slots: u32,
    pub writes: Vec<PlacedWrite>,
    pub bytes: Vec<u8>,
    ghost few: { vec_len writes ≤ slots },
    ghost long: { vec_len bytes ≡ 4096 * vec_len writes },
    ghost places: { AreWithinBlocks (vec_len writes) writes.items },
    ghost room: { slots ≤ vec_capacity writes },
    ghost blocks: { 4096 * slots ≤ vec_capacity bytes },
}

impl Journal {
    ghost use Rattle.std.specs.Prelude.{◌<◌, ◌+◌, ◌^◌, ◌++◌, ◌∷◌, [], IfOk};
    ghost use Rattle.std.specs.List.{insert as insert_at};
    ghost use Rattle.std.specs.Option.{ForSome};
    ghost use Rattle.plx_rules.specs.Session.{first_gap, latest, with_write_by_number};
    ghost use Rattle.plx_rules.specs.Journaled.{Journaled as Written};
    ghost use Rattle.plx_session.specs.Shown.{writes_of};
    ghost use Rattle.plx_session.specs.PlacedWrites.{block_in, block_or_zeros};

    /// A journal without slots, which takes no memory.
    pub fn empty(alloc: Global) -> Journal
        ensures { result.slots ≡ 0 }
    {
        Journal {
            slots: 0,
            writes: Vec::new(alloc),
            bytes: Vec::new(alloc),
        }
    }

    /// A journal of so many slots that holds no write, with all the memory that it can need.
    pub fn new(alloc: Global, slots: u32) -> Result<Journal, NoMemory>
        ensures slots { IfOk result (λ j. j.slots ≡ slots) }
        ensures empty { IfOk result (λ j. vec_len j.writes ≡ 0) }
    {
        let writes = Vec::with_capacity(alloc, slots as usize)?;
        let bytes = Vec::with_capacity(alloc, BLOCK_LEN * slots as usize)?;
        Ok(Journal {
            slots,
            writes,
            bytes,
        })
    }

    /// How many writes it holds.
    pub fn len(&self) -> usize
        ensures count { result ≡ length (writes_of self.now) }
        ensures len { result ≡ vec_len self.now.writes }
    {
        self.writes.len()
    }

    /// It holds one more write, the last.
    pub fn push(&mut self, number: u64, vblock: u32, block: &Block)
        requires { vec_len self.old.writes < self.old.slots }
        ensures slots { self.new.slots ≡ self.old.slots }
        ensures writes { writes_of self.new ≡ writes_of self.old
            ++ record { number = number; vblock = vblock; block = block.now } ∷ [] }
    {
        let count = self.writes.len();
        self.put(count, number, vblock, block);
    }

    /// It holds one more write, among the others by its number.
    pub fn insert(&mut self, number: u64, vblock: u32, block: &Block)
        requires { vec_len self.old.writes < self.old.slots }
        ensures slots { self.new.slots ≡ self.old.slots }
        ensures writes { writes_of self.new ≡ with_write_by_number
            (record { number = number; vblock = vblock; block = block.now }) (writes_of self.old) }
        ensures len { vec_len self.new.writes ≡ vec_len self.old.writes + 1 }
    {
        let index = self.index(number);
        self.put(index, number, vblock, block);
    }

    // It holds one more write, before those from this index on.
    fn put(&mut self, index: usize, number: u64, vblock: u32, block: &Block)
        requires room { vec_len self.old.writes < self.old.slots }
        requires within { index ≤ vec_len self.old.writes }
        ensures slots { self.new.slots ≡ self.old.slots }
        ensures writes { writes_of self.new ≡ insert_at (writes_of self.old) index
            (record { number = number; vblock = vblock; block = block.now }) }
        ensures len { vec_len self.new.writes ≡ vec_len self.old.writes + 1 }
    {
        let place = self.writes.len();
        self.bytes.extend_from_slice(block.as_slice()).unwrap();
        let write = PlacedWrite {
            number,
            vblock,
            place,
        };
        self.writes.insert(index, write).unwrap();
    }

    // Where a write of this number has its place.
    fn index(&self, number: u64) -> usize
        ensures within { result ≤ vec_len self.now.writes }
        ensures place { (w : Written) → w.number ≡ number →
            with_write_by_number w (writes_of self.now)
            ≡ insert_at (writes_of self.now) result w }
    {
        for index in 0..self.writes.len() {
            if number < self.writes[index].number {
                return index;
            }
        }
        self.writes.len()
    }

    /// The number of the first write that doesn't follow on the one before it, or the first of them on the last write
    /// that was applied.
    pub fn gap(&self, applied: u64) -> Option<u64>
        requires { applied < 2 ^ 48 }
        ensures { result ≡ first_gap applied (writes_of self.now) }
    {
        let mut before = applied;
        for write in &self.writes {
            if write.number != before + 1 {
                return Some(write.number);
            }
            before += 1;
        }
        None
    }

    /// It holds no write any more.
    pub fn clear(&mut self)
        ensures slots { self.new.slots ≡ self.old.slots }
        ensures writes { writes_of self.new ≡ [] }
        ensures empty { vec_len self.new.writes ≡ 0 }
    {
        self.writes.clear();
        self.bytes.clear();
    }

    /// Copies what the writes leave in a virtual block that was zeros before.
    pub fn read(&self, vblock: u32, into: &mut Block)
        ensures { into.new ≡ latest zeros vblock (writes_of self.now) }
    {
        match self.last(vblock) {
            Some(place) => into.set(self.block(place)),
            None => into.clear(),
        }
    }

    // Which block has what the last write of a virtual block wrote.
    fn last(&self, vblock: u32) -> Option<usize>
        ensures within { ForSome result (λ place. place < vec_len self.now.writes) }
        ensures latest { latest zeros vblock (writes_of self.now)
            ≡ block_or_zeros self.now.bytes.items result }
    {
        let mut last = None;
        for write in &self.writes {
            if vblock == write.vblock {
                last = Some(write.place);
            }
        }
        last
    }

    // The block at a place.
    fn block(&self, place: usize) -> &[u8]
        requires { place < vec_len self.now.writes }
        ensures same { result.now ≡ block_in self.now.bytes.items place }
        ensures len { length result.now ≡ 4096 }
    {
        let start = BLOCK_LEN * place;
        &self.bytes[start..start + BLOCK_LEN]
    }
}
