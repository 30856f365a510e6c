//! What a renew finds of the leases that are held.
ghost use Rattle.std.specs.Prelude.{◌≡◌, ◌<◌, ◌≤◌, ◌+◌, ◌^◌, IfSome};
ghost use Rattle.std.specs.Vec.{vec_capacity, vec_len};
ghost use Rattle.plx_geom.specs.Geometry.{lease_at, lease_count};
ghost use Rattle.plx_rules.specs.InUse.{first_reached};
ghost use Rattle.plx_lease.specs.Renewing.{renewal_hold};
ghost use Rattle.plx_lease.specs.Uses.{use_if};
ghost use Rattle.plx_appliance.specs.RenewStarts.{AreRenewals, IsReached, IsRenewal, holds_in, uses_in};
ghost use Rattle.plx_appliance.specs.Renews.{AreHeld, with_next};

use crate::holdings::Holdings;
use crate::renewals::Renewals;
use plx_base::{BlockNo, LeaseName, SlotNo};
use plx_lease::{InUse, LeaseRenewal};

/// Of the leases of attached images that a reading has reached, the one to be named.
pub fn reached_lease(holdings: &Holdings, reading: u64) -> Option<InUse>
    ensures { use_if result ≡ first_reached (uses_in holdings.now) reading }
{
    let images = holdings.leases.count;
    let mut found = None;
    for count in 0..images {
        found = reached_beside(holdings, SlotNo(images - 1 - count), found, reading);
    }
    found
}

// The one to be named of an image's lease, where it is attached, and others.
fn reached_beside(
    holdings: &Holdings,
    slot: SlotNo,
    others: Option<InUse>,
    reading: u64,
) -> Option<InUse>
    requires { slot.0 < holdings.now.setting.geometry.images }
    ensures { IsReached holdings.now reading slot.0 others result }
{
    let Some(_session) = holdings.sessions.get(slot) else {
        return others;
    };
    let Some(held) = holdings.leases.get(slot) else {
        return others;
    };
    let own = InUse {
        lease: 1 + slot.0,
        until: held.until(),
    };
    own.reached(others, reading)
}

/// The renewals of the leases that are held, that of the first lease last.
pub fn renewals(holdings: &Holdings, room: Renewals, reading: u64) -> Vec<LeaseRenewal>
    requires room { room.leases ≡ lease_count holdings.now.setting.geometry }
    requires reading { reading < 2 ^ 48 }
    ensures process { AreRenewals holdings.now reading result.items }
    ensures held { AreHeld 0 (lease_count holdings.now.setting.geometry)
        (λ lease. holds_in holdings.now (lease_at lease)) result.items }
{
    let leases = room.leases;
    let mut list = room.list;
    for count in 0..leases {
        let next = renewal(holdings, leases - 1 - count, reading);
        push(&mut list, next);
    }
    list
}

// The list has one renewal more, where there is one.
fn push(list: &mut Vec<LeaseRenewal>, next: Option<LeaseRenewal>)
    requires { vec_len list.old < vec_capacity list.old }
    ensures items { list.new.items ≡ with_next list.old.items next }
    ensures len { vec_len list.new ≤ vec_len list.old + 1 }
    ensures capacity { vec_capacity list.old ≤ vec_capacity list.new }
{
    if let Some(renewal) = next {
        match list.push(renewal) {
            Ok(()) | Err(_) => {}
        }
    }
}

// The renewal of the lease of this number, where it is held; the root's never is.
fn renewal(holdings: &Holdings, lease: u32, reading: u64) -> Option<LeaseRenewal>
    requires { reading < 2 ^ 48 }
    ensures process { IsRenewal holdings.now reading lease result }
    ensures number { IfSome result (λ r. r.number ≡ lease) }
    ensures held { IfSome result (λ r. holds_in holdings.now (lease_at lease) ≡ renewal_hold r) }
{
    let block = BlockNo(1 + u64::from(lease));
    match holdings.setting.lease_name(lease) {
        LeaseName::Root => None,
        LeaseName::Image(slot) => {
            let held = holdings.leases.get(slot)?;
            Some(LeaseRenewal::begin(held, block, reading))
        }
        LeaseName::Extent(extent) => {
            let held = holdings.space.held(extent)?;
            Some(LeaseRenewal::begin(held, block, reading))
        }
    }
}
