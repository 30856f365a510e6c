//! One issued write.
ghost use Rattle.std.specs.Prelude.{◌≡◌, ◌<◌, ◌≤◌, ◌+◌, ◌↔◌, ℕ, List, Some, true, false, length, slice_get, IfSome, IsTrue, MatchOption};
ghost use Rattle.plx_base.specs.Sectors.{with_landed_sector, put};
ghost use Rattle.plx_disk.specs.Landing.{MayLandAt, MayLandWhole};
ghost use Rattle.plx_disk.specs.Missing.{IsLeastMissing};
ghost use Rattle.plx_disk.specs.Stored.{Blocks, device_of, has_place, is_stored};
ghost use Rattle.plx_disk.specs.Standing.{StandsForIssued};
ghost use Rattle.plx_disk.specs.Writes.{Issued, all_sectors, no_sectors, with_sector, with_cancel};

use crate::blocks::{land_on, trade};
use plx_base::{Block, Boot, SECTORS, WriteKind};
use std::collections::BTreeMap;
use std::mem;

/// How long after its guard a sector may still land, in milliseconds.
const DRIFT: u64 = 50;

/// An issued write, as far as it matters from now on.
#[derive(Drop)]
pub struct Write {
    pub owner: Boot,
    pub progress: Progress,
}

/// How far a write has come.
#[derive(Drop)]
pub enum Progress {
    /// Some sector hasn't landed, and the write wasn't cancelled.
    Open(Pending),
    /// Some sector hasn't landed, and none lands any more, since its time is over: these have landed.
    Late([bool; 8]),
    /// It has landed whole.
    Whole,
    /// It was cancelled before it had landed whole.
    Closed,
}

/// What lands, and which sectors of it have.
#[derive(Drop)]
pub struct Pending {
    pub kind: WriteKind,
    pub block: u64,
    pub bytes: Block,
    pub guard: u64,
    pub landed: [bool; 8],
}

/// The least sector that hasn't landed.
fn least_missing(landed: &[bool; 8]) -> Option<u8>
    ensures least { MatchOption result (landed.now ≡ all_sectors) (IsLeastMissing landed.now) }
    ensures within { IfSome result (λ sector. sector < 8) }
{
    for sector in 0..SECTORS {
        if !landed[usize::from(sector)] {
            return Some(sector);
        }
    }
    None
}

impl Pending {
    /// Whether its time is over.
    fn is_late(&self, time: u64) -> bool
        ensures late { IsTrue result → self.now.guard + 50 < time }
        ensures early { result ≡ false → time ≤ self.now.guard + 50 }
    {
        time.saturating_sub(DRIFT) > self.guard
    }

    /// Whether no sector has landed.
    fn is_untouched(&self) -> bool
        ensures { IsTrue result → self.now.landed ≡ no_sectors }
    {
        self.landed == [false; 8]
    }

    /// Whether this sector may land at that time, in milliseconds.
    fn may_land(&self, sector: u8, time: u64) -> bool
        ensures within { IsTrue result → sector < 8 }
        ensures missing { IsTrue result → slice_get self.now.landed sector ≡ Some false }
        ensures early { IsTrue result → time ≤ self.now.guard + 50 }
        ensures refused { result ≡ false → slice_get self.now.landed sector ≡ Some false
            → time ≤ self.now.guard + 50 → ⊥ }
    {
        if sector >= SECTORS {
            return false;
        }
        if self.is_late(time) {
            return false;
        }
        !self.landed[usize::from(sector)]
    }
}

impl Write {
    /// One sector lands on its block at that time, in milliseconds, if it may. Where it was the last one, the
    /// write's block becomes the spare one.
    pub fn land(
        &mut self,
        stored: &mut BTreeMap<u64, Block>,
        spare: &mut Option<Block>,
        sector: u8,
        time: u64,
    ) -> bool
        requires placed { has_place stored.old self.old.progress ≡ true }
        ensures allowed { (w : Issued) → StandsForIssued time self.old w → IsTrue result
            → MayLandAt w sector time }
        ensures landed { (w : Issued) → StandsForIssued time self.old w → IsTrue result
            → StandsForIssued time self.new (with_sector w sector) }
        ensures bytes { (w : Issued) → StandsForIssued time self.old w → IsTrue result → (b : ℕ)
            → device_of stored.new b ≡ put (device_of stored.old) w.block
            (with_landed_sector sector w.bytes (device_of stored.old w.block)) b }

        ensures refused { (w : Issued) → StandsForIssued time self.old w → result ≡ false
            → MayLandAt w sector time → ⊥ }
        ensures same { result ≡ false → (self.new ≡ self.old) × (stored.new ≡ stored.old) }

        ensures place { has_place stored.new self.new.progress ≡ true }
        ensures others { (b : ℕ) → is_stored stored.old b ≡ true → is_stored stored.new b ≡ true }
    {
        let Progress::Open(pending) = &self.progress else {
            return false;
        };
        if !pending.may_land(sector, time) {
            return false;
        }
        let Progress::Open(mut pending) = mem::replace(&mut self.progress, Progress::Whole) else {
            unreachable!()
        };
        land_on(stored, pending.block, sector, &pending.bytes);
        pending.landed[usize::from(sector)] = true;
        if least_missing(&pending.landed).is_none() {
            *spare = Some(pending.bytes);
            return true;
        }
        self.progress = Progress::Open(pending);
        true
    }

    /// All sectors land on its block at that time, where none has and they may. The block that stood there
    /// becomes the spare one.
    pub fn land_whole(
        &mut self,
        stored: &mut BTreeMap<u64, Block>,
        spare: &mut Option<Block>,
        time: u64,
    ) -> bool
        requires placed { has_place stored.old self.old.progress ≡ true }
        ensures allowed { (w : Issued) → StandsForIssued time self.old w → IsTrue result
            → MayLandWhole w time }
        ensures long { (w : Issued) → StandsForIssued time self.old w → IsTrue result
            → (length w.bytes ≡ 4096) × (length (device_of stored.old w.block) ≡ 4096) }
        ensures bytes { (w : Issued) → StandsForIssued time self.old w → IsTrue result → (b : ℕ)
            → device_of stored.new b ≡ put (device_of stored.old) w.block w.bytes b }
        ensures whole { IsTrue result → (self.new.owner ≡ self.old.owner)
            × (self.new.progress ≡ Progress.Whole) }

        ensures same { result ≡ false → (self.new ≡ self.old) × (stored.new ≡ stored.old) }

        ensures place { has_place stored.new self.new.progress ≡ true }
        ensures others { (b : ℕ) → is_stored stored.old b ≡ true → is_stored stored.new b ≡ true }
    {
        let Progress::Open(pending) = &self.progress else {
            return false;
        };
        if pending.is_late(time) {
            return false;
        }
        if !pending.is_untouched() {
            return false;
        }
        let Progress::Open(mut pending) = mem::replace(&mut self.progress, Progress::Whole) else {
            unreachable!()
        };
        let _new = pending.bytes.as_slice();
        trade(stored, pending.block, &mut pending.bytes);
        let _old = pending.bytes.as_slice();
        *spare = Some(pending.bytes);
        true
    }

    /// Whether it is open at that time, in milliseconds. Where its time is over, its block becomes the spare
    /// one.
    pub fn stays_open(&mut self, spare: &mut Option<Block>, time: u64) -> bool
        ensures same { (w : Issued) → StandsForIssued time self.old w
            → StandsForIssued time self.new w }
        ensures place { (blocks : Blocks) → has_place blocks self.old.progress ≡ true
            → has_place blocks self.new.progress ≡ true }
    {
        let Progress::Open(pending) = &self.progress else {
            return false;
        };
        if !pending.is_late(time) {
            return true;
        }
        let late = Progress::Late(pending.landed);
        let Progress::Open(pending) = mem::replace(&mut self.progress, late) else {
            unreachable!()
        };
        *spare = Some(pending.bytes);
        false
    }

    /// No further sector of it lands.
    pub fn cancel(&mut self)
        ensures cancelled { (time : ℕ) (w : Issued) → StandsForIssued time self.old w
            → StandsForIssued time self.new (with_cancel w) }
        ensures place { (blocks : Blocks) → has_place blocks self.old.progress ≡ true
            → has_place blocks self.new.progress ≡ true }
    {
        match &self.progress {
            Progress::Open(_) | Progress::Late(_) => self.progress = Progress::Closed,
            Progress::Whole | Progress::Closed => {}
        }
    }

    /// The least sector that hasn't landed, of a write that wasn't cancelled.
    pub fn missing(&self) -> Option<u8>
        ensures none { (time : ℕ) (w : Issued) → StandsForIssued time self.now w → result ≡ None
            → w.cancelled ≡ false
            → w.landed ≡ all_sectors }
        ensures least { (time : ℕ) (w : Issued) → StandsForIssued time self.now w → (k : ℕ)
            → result ≡ Some k
            → (w.cancelled ≡ false) × IsLeastMissing w.landed k }
        ensures within { IfSome result (λ sector. sector < 8) }
    {
        match &self.progress {
            Progress::Open(pending) => least_missing(&pending.landed),
            Progress::Late(landed) => least_missing(landed),
            Progress::Whole => None,
            Progress::Closed => None,
        }
    }

    /// Whether all its sectors have landed.
    pub fn has_landed(&self) -> bool
        ensures { (time : ℕ) (w : Issued) → StandsForIssued time self.now w
            → (IsTrue result ↔ (w.landed ≡ all_sectors)) }
    {
        match &self.progress {
            Progress::Open(_) => false,
            Progress::Late(_) => false,
            Progress::Whole => true,
            Progress::Closed => false,
        }
    }
}
