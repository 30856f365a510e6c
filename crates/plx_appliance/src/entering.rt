//! What a command becomes at its first reading of the clock: a machine that goes on, or a refusal.
ghost use Rattle.std.specs.Prelude.{◌≡◌, ◌<◌, ◌^◌, Some, IfOk, nat_lt};
ghost use Rattle.plx_commands.specs.Limits.{last_claim};
ghost use Rattle.plx_geom.specs.Geometry.{image_lease, lease_at, lease_count};
ghost use Rattle.plx_rules.specs.Attaching.{attach_process, claim_image};
ghost use Rattle.plx_rules.specs.Commands.{detach_process, of_attached};
ghost use Rattle.plx_rules.specs.Holds.{Nothing};
ghost use Rattle.plx_rules.specs.Space.{reserve_process, retire_process};
ghost use Rattle.plx_appliance.specs.Begins.{begun_leases, begun_slots, waiting_process};
ghost use Rattle.plx_session.specs.Commands.{image_process};
ghost use Rattle.plx_appliance.specs.Entering.{Enters, IsOfImage};
ghost use Rattle.plx_session.specs.Giving.{rules_setting};
ghost use Rattle.plx_session.specs.Shown.{session_of};
ghost use Rattle.plx_appliance.specs.Kept.{known_of};
ghost use Rattle.plx_appliance.specs.Lent.{Lent, lent_of};
ghost use Rattle.plx_appliance.specs.RenewStarts.{holds_in, renew_command};
ghost use Rattle.plx_appliance.specs.Space.{extents_in, hand_in};
ghost use Rattle.plx_appliance.specs.Works.{IsTied, StartsInside, work_entered, work_suits};
ghost use Rattle.plx_appliance.specs.Tokens.{image_leases};

use crate::attach::Attach;
use crate::begun::{Begun, Need, Room};
use crate::detach::Detach;
use crate::holdings::Holdings;
use crate::renew::Renew;
use crate::renewals::Renewals;
use crate::renewing::{reached_lease, renewals};
use crate::reserve::{Reserve, reserve_reply};
use crate::retire::Retire;
use crate::work::Work;
use plx_alloc::{MapRoom, Reserve as Take};
use plx_base::{Block, SlotNo};
use plx_commands::{LAST_CLAIM, Reply};
use plx_session::{ImageCommand, Leased, Session};

/// A command has its first reading, below 2^48.
pub fn enter(begun: Begun, holdings: &mut Holdings, reading: u64) -> Result<Work, Reply>
    requires slots { begun_slots holdings.old.setting.geometry.slots begun
        ≡ holdings.old.setting.geometry.slots }
    requires leases { begun_leases (lease_count holdings.old.setting.geometry) begun
        ≡ lease_count holdings.old.setting.geometry }
    requires reading { reading < 2 ^ 48 }
    ensures process { work_entered (lent_of holdings.new) result
        ≡ waiting_process (rules_setting holdings.old.setting) (known_of holdings.old)
        (holds_in holdings.old) (hand_in holdings.old) reading begun }
    ensures leases { image_leases holdings.new.leases.leases.items
        ≡ image_leases holdings.old.leases.leases.items }
    ensures extents { extents_in holdings.new ≡ extents_in holdings.old }
    ensures hand { hand_in holdings.new ≡ hand_in holdings.old }
    ensures sessions { holdings.new.sessions ≡ holdings.old.sessions }
    ensures setting { holdings.new.setting ≡ holdings.old.setting }
    ensures tied { IfOk result (IsTied holdings.old.setting) }
    ensures inside { IfOk result (StartsInside (image_leases holdings.old.leases.leases.items)
        (extents_in holdings.old)) }
    ensures suits { IfOk result (work_suits holdings.new.space) }
{
    match begun {
        Begun::Attach { slot, room } => enter_attach(holdings, slot, room),
        Begun::Detach { slot, lease } => enter_detach(holdings, slot, lease, reading),
        Begun::Image { slot, command } => enter_image(holdings, slot, command, reading),
        Begun::Renew { renewals, lease } => enter_renew(holdings, renewals, lease, reading),
        Begun::Reserve { need, room, lease } => enter_reserve(holdings, need, room, lease),
        Begun::Retire {
            room,
            extent_lease,
            image_lease,
        } => enter_retire(holdings, room, extent_lease, image_lease),
    }
}

// An attach has its first reading.
fn enter_attach(holdings: &mut Holdings, slot: SlotNo, room: Room) -> Result<Work, Reply>
    requires { room.slots ≡ holdings.old.setting.geometry.slots }
    ensures { Enters holdings.old holdings.new
        (attach_process (rules_setting holdings.old.setting) (known_of holdings.old) slot.0
        ((known_of holdings.old).sessions slot.0)
        (nat_lt slot.0 holdings.old.setting.geometry.images)
        (holds_in holdings.old (lease_at (image_lease slot.0)))) result }
{
    if let Some(_session) = holdings.sessions.get(slot) {
        return Err(Reply::AlreadyAttached);
    }
    let setting = holdings.setting;
    if slot.0 >= setting.geometry.images {
        return Err(Reply::NoImage);
    }
    match holdings.leases.get(slot) {
        Some(held) => {
            let image = Leased {
                setting,
                slot,
                until: held.until(),
            };
            Ok(Work::Attach(Attach::load(room.alloc, image, room.session)))
        }
        None => enter_claim(holdings, slot, room),
    }
}

// An attach of an image whose lease isn't held.
fn enter_claim(holdings: &mut Holdings, slot: SlotNo, room: Room) -> Result<Work, Reply>
    requires room { room.slots ≡ holdings.old.setting.geometry.slots }
    requires within { slot.0 < holdings.old.setting.geometry.images }
    requires free { image_leases holdings.old.leases.leases.items slot.0 ≡ Nothing }
    ensures { Enters holdings.old holdings.new
        (claim_image (nat_lt holdings.old.space.claims last_claim)
        (rules_setting holdings.old.setting) (known_of holdings.old) slot.0) result }
{
    let setting = holdings.setting;
    let Some(number) = holdings.space.next_claim() else {
        return Err(Reply::WornOut { count: LAST_CLAIM });
    };
    Ok(Work::Attach(Attach::claim(room.alloc, setting, slot, number, room.session, room.lease)))
}

// A detach has its first reading.
fn enter_detach(
    holdings: &Holdings,
    slot: SlotNo,
    lease: Block,
    reading: u64,
) -> Result<Work, Reply>
    ensures { Enters holdings.now holdings.now
        (of_attached (rules_setting holdings.now.setting) (known_of holdings.now)
        (holds_in holdings.now) reading slot.0
        (detach_process (rules_setting holdings.now.setting) (known_of holdings.now) slot.0))
        result }
{
    let Some(_session) = holdings.sessions.get(slot) else {
        return Err(Reply::NotAttached);
    };
    match holdings.leased(slot, reading) {
        Err(reply) => Err(reply),
        Ok(image) => Ok(Work::Detach(Detach::enter(image, lease))),
    }
}

// A command of an attached image has its first reading.
fn enter_image(
    holdings: &Holdings,
    slot: SlotNo,
    command: ImageCommand,
    reading: u64,
) -> Result<Work, Reply>
    ensures { Enters holdings.now holdings.now
        (of_attached (rules_setting holdings.now.setting) (known_of holdings.now)
        (holds_in holdings.now) reading slot.0
        (image_process (rules_setting holdings.now.setting) (known_of holdings.now) slot.0 command))
        result }
{
    let Some(session) = holdings.sessions.get(slot) else {
        return Err(Reply::NotAttached);
    };
    match holdings.leased(slot, reading) {
        Err(reply) => Err(reply),
        Ok(image) => enter_leased(command, image, session),
    }
}

// A command goes on at an image under its lease, with the image's session.
fn enter_leased(command: ImageCommand, image: Leased, session: &Session) -> Result<Work, Reply>
    requires { session.now.journal.slots ≡ image.setting.geometry.slots }
    ensures process { (lent : Lent) →
        lent.known.sessions image.slot.0 ≡ Some (session_of session.now) →
        work_entered lent result ≡ image_process (rules_setting image.setting) lent.known
        image.slot.0 command (session_of session.now) image.until }
    ensures image { IfOk result (IsOfImage image) }
{
    match command.enter(image, session) {
        Err(reply) => Err(reply),
        Ok(work) => Ok(Work::Image(work)),
    }
}

// A renew has its first reading.
fn enter_renew(
    holdings: &Holdings,
    room: Renewals,
    lease: Block,
    reading: u64,
) -> Result<Work, Reply>
    requires room { room.leases ≡ lease_count holdings.now.setting.geometry }
    requires reading { reading < 2 ^ 48 }
    ensures { Enters holdings.now holdings.now
        (renew_command (rules_setting holdings.now.setting) (known_of holdings.now)
        (holds_in holdings.now) reading) result }
{
    if let Some(due) = reached_lease(holdings, reading) {
        return Err(Reply::Lost {
            lease: holdings.setting.lease_name(due.lease),
            until: due.until,
            reading,
        });
    }
    let mut left = renewals(holdings, room, reading);
    let Some(renewal) = left.pop() else {
        return Err(Reply::Renewed);
    };
    let mut out = lease;
    renewal.spell(&mut out);
    Ok(Work::Renew(Renew {
        setting: holdings.setting,
        renewal,
        left,
        out,
    }))
}

// A reserve has its first reading.
fn enter_reserve(
    holdings: &Holdings,
    need: Need,
    room: MapRoom,
    lease: Block,
) -> Result<Work, Reply>
    ensures { Enters holdings.now holdings.now
        (reserve_process (rules_setting holdings.now.setting) (known_of holdings.now)
        (holds_in holdings.now) (hand_in holdings.now) need.count) result }
{
    match Take::begin(need.count, None, room, lease, &holdings.space) {
        Ok(work) => Ok(Work::Reserve(Reserve {
            setting: holdings.setting,
            work,
        })),
        Err(end) => Err(reserve_reply(end)),
    }
}

// A retire has its first reading.
fn enter_retire(
    holdings: &Holdings,
    room: MapRoom,
    extent_lease: Block,
    image_lease: Block,
) -> Result<Work, Reply>
    ensures { Enters holdings.now holdings.now
        (retire_process (rules_setting holdings.now.setting) (known_of holdings.now)
        (holds_in holdings.now) (hand_in holdings.now)) result }
{
    match Retire::enter(holdings, room, extent_lease, image_lease) {
        Err(reply) => Err(reply),
        Ok(retire) => Ok(Work::Retire(retire)),
    }
}
