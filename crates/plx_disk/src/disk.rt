//! A device with issued writes that land sector by sector, and its time.
ghost use Rattle.std.specs.Prelude.{◌<◌, ◌^◌};
ghost use Rattle.plx_disk.specs.Stored.{ArePlaced};

use crate::blocks::{block_of, given, make_place, store, trade};
use crate::write::{Pending, Progress, Write};
use plx_base::{Block, BlockNo, Boot, NoMemory, WriteKind};
use std::alloc::Global;
use std::collections::{BTreeMap, VecDeque};

/// The time of a device stays below this, in milliseconds.
const END_OF_TIME: u64 = 1 << 47;

/// A device and its time. A block that was never written is zeros and isn't stored. Of a write that can't land
/// any more the bytes are dropped.
#[derive(Drop)]
pub struct Disk {
    alloc: Global,
    blocks: u64,
    stored: BTreeMap<u64, Block>,
    writes: Vec<Write>,
    // The numbers of the writes that were open when they were last looked at.
    open: VecDeque<u64>,
    // A block for the bytes of the next write.
    spare: Option<Block>,
    time: u64,
    ghost placed: { ArePlaced stored writes.items },
    ghost in_time: { time < 2 ^ 47 },
}

impl Disk {
    ghost use Rattle.std.specs.Prelude.{◌≡◌, ◌<◌, ◌+◌, ◌^◌, ◌↔◌, None, false, length, option_copied, slice_get, IfOk, IfSome, IsOkAnd, OnOk, OnErr, IsTrue, MatchOption, Some};
    ghost use Rattle.std.specs.Option.{unwrap_or};
    ghost use Rattle.plx_base.specs.Blocks.{zeros};
    ghost use Rattle.plx_disk.specs.Filled.{with_block};
    ghost use Rattle.plx_disk.specs.Landing.{MayLandWhole, after_sectors};
    ghost use Rattle.plx_disk.specs.Lending.{IsLent};
    ghost use Rattle.plx_disk.specs.Missing.{IsMissing, IsOwner, MissesNone};
    ghost use Rattle.plx_disk.specs.Standing.{Stands, Stays, Turns, device_size, issued_count};
    ghost use Rattle.plx_disk.specs.Writes.{Issued, Surface, MayLand, HasLanded, after_landing, blank, with_cancelled, fresh_write, with_issued, after_time};

    /// A device of so many blocks, all zeros, at that time in milliseconds.
    pub fn new(alloc: Global, blocks: u64, time: u64) -> Result<Disk, NoMemory>
        requires { time < 2 ^ 47 }
        ensures blank { IsOkAnd result (λ disk. Stands disk (blank blocks time)) }
        ensures blocks { IfOk result (λ disk. device_size disk ≡ blocks) }
    {
        Ok(Disk {
            alloc,
            blocks,
            stored: BTreeMap::new(alloc),
            writes: Vec::new(alloc),
            open: VecDeque::new(alloc),
            spare: None,
            time,
        })
    }

    /// How many blocks the device has.
    pub fn blocks(&self) -> u64
        ensures { result ≡ device_size self.now }
    {
        self.blocks
    }

    /// The device's time, in milliseconds.
    pub fn time(&self) -> u64
        ensures time { result ≡ self.now.time }
        ensures early { result < 2 ^ 47 }
    {
        self.time
    }

    /// How many writes were issued.
    pub fn issued(&self) -> u64
        ensures count { result ≡ issued_count self.now }
        ensures issued { (s : Surface) → Stands self.now s → result ≡ length s.writes }
    {
        self.writes.len() as u64
    }

    /// Puts bytes into a block of a device that is being filled. After NoMemory it stands as before.
    pub fn set(&mut self, block: BlockNo, bytes: &[u8]) -> Result<(), NoMemory>
        requires unissued { issued_count self.old ≡ 0 }
        requires within { block.0 < device_size self.old }
        requires whole { length bytes.now ≡ 4096 }
        ensures ok { OnOk result (Turns self.old self.new (λ s. with_block s block.0 bytes.now)) }
        ensures err { OnErr result (Stays self.old self.new) }
    {
        let bytes = block_of(self.alloc, bytes)?;
        store(&mut self.stored, block.0, bytes)?;
        Ok(())
    }

    /// What stands in a block comes into the buffer, whose bytes stand in the block until it is given
    /// back. No bytes are copied.
    pub fn lend(&mut self, block: BlockNo, buffer: &mut Block)
        requires { block.0 < device_size self.old }
        ensures lent { IsLent self.old self.new block.0 buffer.new }
        ensures len { length buffer.new ≡ 4096 }
        ensures blocks { device_size self.new ≡ device_size self.old }
    {
        if !trade(&mut self.stored, block.0, buffer) {
            buffer.clear();
        }
        let _bytes = buffer.as_slice();
    }

    /// The block that was lent to the buffer is given back: the device stands as before it was lent.
    pub fn take_back(&mut self, block: BlockNo, buffer: &mut Block)
        ensures back { (lender : Disk) → IsLent lender self.old block.0 buffer.old
            → Stays lender self.new }
        ensures blocks { device_size self.new ≡ device_size self.old }
    {
        trade(&mut self.stored, block.0, buffer);
    }

    /// What stands in a block, or `None` where nothing was put and no write was issued: then it is
    /// zeros.
    pub fn stored(&self, block: BlockNo) -> Option<&Block>
        ensures { (s : Surface) → Stands self.now s → s.device block.0
            ≡ unwrap_or (option_copied result) zeros }
    {
        self.stored.get(&block.0)
    }

    /// A write is issued. Its number is the count of those before. Its guard is a time in milliseconds.
    /// After NoMemory the device stands as before.
    pub fn issue(
        &mut self,
        owner: Boot,
        kind: WriteKind,
        block: BlockNo,
        bytes: &[u8],
        guard: u64,
    ) -> Result<u64, NoMemory>
        requires within { block.0 < device_size self.old }
        requires whole { length bytes.now ≡ 4096 }
        requires guarded { guard < 2 ^ 49 }
        ensures number { IfOk result (λ number. (s : Surface) → Stands self.old s → number
            ≡ length s.writes) }
        ensures ok { OnOk result (Turns self.old self.new
            (λ s. with_issued s (fresh_write owner.0 kind block.0 bytes.now guard))) }
        ensures err { OnErr result (Stays self.old self.new) }
        ensures blocks { device_size self.new ≡ device_size self.old }
    {
        // Two looks for each write that is added, so that about as many late ones are kept as may still land.
        self.look_back();
        self.look_back();
        let bytes = given(self.alloc, &mut self.spare, bytes)?;
        make_place(self.alloc, &mut self.stored, block.0)?;
        let number = self.writes.len() as u64;
        let pending = Pending {
            kind,
            block: block.0,
            bytes,
            guard,
            landed: [false; 8],
        };
        self.open.push_back(number)?;
        self.writes.push(Write {
            owner,
            progress: Progress::Open(pending),
        })?;
        Ok(number)
    }

    // Looks at the open write that was looked at longest ago.
    fn look_back(&mut self)
        ensures same { Stays self.old self.new }
        ensures blocks { device_size self.new ≡ device_size self.old }
        ensures count { issued_count self.new ≡ issued_count self.old }
    {
        let Some(number) = self.open.pop_front() else {
            return;
        };
        let index = number as usize;
        if index >= self.writes.len() {
            return;
        }
        let time = self.time;
        if self.writes[index].stays_open(&mut self.spare, time) {
            // There is room, since one was taken. Without it that write would only keep its bytes.
            let _ = self.open.push_back(number);
        }
    }

    /// One sector of a write lands, if it may.
    pub fn land(&mut self, write: u64, sector: u8) -> bool
        ensures landed { IsTrue result → (s : Surface) → Stands self.old s → (w : Issued)
            × MayLand s write sector w × Stands self.new (after_landing s write w sector) }
        ensures refused { result ≡ false → (s : Surface) → Stands self.old s → (w : Issued)
            → MayLand s write sector w → ⊥ }
        ensures same { result ≡ false → Stays self.old self.new }
        ensures blocks { device_size self.new ≡ device_size self.old }
    {
        let index = write as usize;
        if index >= self.writes.len() {
            return false;
        }
        let time = self.time;
        self.writes[index].land(&mut self.stored, &mut self.spare, sector, time)
    }

    /// All eight sectors of a write land, one after another, where none has and they may.
    pub fn land_whole(&mut self, write: u64) -> bool
        ensures landed { IsTrue result → (s : Surface) → Stands self.old s → (w : Issued)
            × (slice_get s.writes write ≡ Some w) × MayLandWhole w s.time
            × Stands self.new (after_sectors s write w 8) }
        ensures same { result ≡ false → Stays self.old self.new }
        ensures blocks { device_size self.new ≡ device_size self.old }
    {
        let index = write as usize;
        if index >= self.writes.len() {
            return false;
        }
        let time = self.time;
        self.writes[index].land_whole(&mut self.stored, &mut self.spare, time)
    }

    /// Whether all eight sectors of a write have landed.
    pub fn settle(&mut self, write: u64) -> bool
        ensures whole { (s : Surface) → Stands self.old s → (IsTrue result ↔ HasLanded s write) }
        ensures same { Stays self.old self.new }
        ensures blocks { device_size self.new ≡ device_size self.old }
    {
        let index = write as usize;
        if index >= self.writes.len() {
            return false;
        }
        self.writes[index].has_landed()
    }

    /// No further sector of a write lands.
    pub fn cancel(&mut self, write: u64)
        ensures cancelled { Turns self.old self.new (λ s. with_cancelled s write) }
        ensures blocks { device_size self.new ≡ device_size self.old }
    {
        let index = write as usize;
        if index >= self.writes.len() {
            return;
        }
        self.writes[index].cancel();
    }

    /// Time passes, in milliseconds. False, and nothing changes, where it would reach its end.
    pub fn tick(&mut self, by: u32) -> bool
        ensures early { (s : Surface) → Stands self.old s
            → (IsTrue result ↔ (s.time + by < 2 ^ 47)) }
        ensures passed { IsTrue result → Turns self.old self.new (λ s. after_time s by) }
        ensures same { result ≡ false → Stays self.old self.new }
        ensures blocks { device_size self.new ≡ device_size self.old }
    {
        let time = self.time + u64::from(by);
        if time >= END_OF_TIME {
            return false;
        }
        self.time = time;
        true
    }

    /// The boot that issued a write.
    pub fn owner(&self, write: u64) -> Option<Boot>
        ensures { (s : Surface) → Stands self.now s
            → MatchOption result (slice_get s.writes write ≡ None) (IsOwner s write) }
    {
        let index = write as usize;
        if index >= self.writes.len() {
            return None;
        }
        Some(self.writes[index].owner)
    }

    /// The least sector that hasn't landed, of a write that was issued and not cancelled. None of any other write.
    pub fn missing(&self, write: u64) -> Option<u8>
        ensures missing { (s : Surface) → Stands self.now s
            → MatchOption result (MissesNone s write) (IsMissing s write) }
        ensures within { IfSome result (λ sector. sector < 8) }
    {
        let index = write as usize;
        if index >= self.writes.len() {
            return None;
        }
        self.writes[index].missing()
    }
}
