//! An attached image under its lease.
ghost use Rattle.std.specs.Prelude.{◌≡◌, ◌<◌, ◌^◌};

use crate::failure::Failure;
use crate::setting::Setting;
use plx_base::{BlockNo, LeaseName, SlotNo};
use plx_commands::Reply;
use plx_geom::Place;

/// An attached image, whose lease is held up to the moment `until`, in milliseconds.
#[derive(Clone, Copy)]
pub struct Leased {
    pub setting: Setting,
    pub slot: SlotNo,
    pub until: u64,
    ghost inside: { slot.0 < setting.geometry.images },
    ghost high: { until < 2 ^ 49 },
}

impl Leased {
    ghost use Rattle.plx_geom.specs.Geometry.{block_count, data_at, descriptor_at, image_lease, lease_at, record_at};
    ghost use Rattle.plx_rules.specs.Process.{Process};
    ghost use Rattle.plx_rules.specs.Attaching.{image_use};
    ghost use Rattle.plx_rules.specs.Ends.{End, ends, in_time};
    ghost use Rattle.plx_rules.specs.Ends.{lost_process};
    ghost use Rattle.plx_rules.specs.Session.{Known};
    ghost use Rattle.plx_session.specs.Ending.{process_after, known_after};
    ghost use Rattle.plx_session.specs.Failing.{unless_failed};
    ghost use Rattle.plx_session.specs.Giving.{rules_setting};
    ghost use Rattle.plx_session.specs.Leases.{leased_use};

    /// The failure, where a reading has reached the end of the lease.
    pub fn over(&self, reading: u64) -> Option<Failure>
        ensures { (known : Known) (process : Process End) → unless_failed known self.now process result ≡ in_time
            (rules_setting self.now.setting) known
            (image_use self.now.slot.0 self.now.until) reading process }
    {
        if self.until <= reading {
            return Some(Failure::Lost(reading));
        }
        None
    }

    /// The refusal, where a reading has reached the end of the lease.
    pub fn reached(&self, reading: u64) -> Option<Reply>
        ensures { (known : Known) (process : Process End) → process_after process known result ≡ in_time
            (rules_setting self.now.setting) known
            (image_use self.now.slot.0 self.now.until) reading process }
    {
        if self.until <= reading {
            return Some(self.lost(reading));
        }
        None
    }

    /// The refusal that the lease is lost.
    pub fn lost(&self, reading: u64) -> Reply
        ensures { (known : Known) → ends result (known_after result known)
            ≡ lost_process (rules_setting self.now.setting) known (leased_use self.now) reading }
    {
        Reply::Lost {
            lease: LeaseName::Image(self.slot),
            until: self.until,
            reading,
        }
    }

    /// The block of the lease.
    pub fn lease_block(&self) -> BlockNo
        ensures block { result.0 ≡ lease_at (image_lease self.now.slot.0) }
        ensures within { result.0 < block_count self.now.setting.geometry }
    {
        self.setting.block(Place::ImageLease(self.slot))
    }

    /// The block of the image's record.
    pub fn record_block(&self) -> BlockNo
        ensures block { result.0 ≡ record_at self.now.setting.geometry self.now.slot.0 }
        ensures within { result.0 < block_count self.now.setting.geometry }
    {
        self.setting.block(Place::Record(self.slot))
    }

    /// The block of the descriptor in a slot of the journal.
    pub fn descriptor_block(&self, index: u32) -> BlockNo
        requires { index < self.now.setting.geometry.slots }
        ensures block { result.0
            ≡ descriptor_at self.now.setting.geometry self.now.slot.0 index }
        ensures within { result.0 < block_count self.now.setting.geometry }
    {
        self.setting.block(Place::JDesc(self.slot, index))
    }

    /// The block of the data in a slot of the journal.
    pub fn data_block(&self, index: u32) -> BlockNo
        requires { index < self.now.setting.geometry.slots }
        ensures block { result.0 ≡ data_at self.now.setting.geometry self.now.slot.0 index }
        ensures within { result.0 < block_count self.now.setting.geometry }
    {
        self.setting.block(Place::JData(self.slot, index))
    }
}
