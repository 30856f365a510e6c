//! What a retire finds of the leases of images that are held.
ghost use Rattle.std.specs.Prelude.{◌≡◌, ◌<◌, ◌≤◌, ℕ, IfOk, IfSome};
ghost use Rattle.plx_rules.specs.Process.{answered};
ghost use Rattle.plx_alloc.specs.Ending.{space_end};
ghost use Rattle.plx_session.specs.Ending.{enter_process};
ghost use Rattle.plx_session.specs.Giving.{rules_setting};
ghost use Rattle.plx_appliance.specs.Kept.{known_by};
ghost use Rattle.plx_appliance.specs.Releasing.{image_leases_after_release};
ghost use Rattle.plx_appliance.specs.Retires.{IsDue, IsNextDue, image_rest, images_from};
ghost use Rattle.plx_appliance.specs.Tokens.{image_leases};

use crate::lease::Leases;
use crate::sessions::Sessions;
use plx_alloc::SpaceEnd;
use plx_base::SlotNo;
use plx_commands::Reply;
use plx_disk::Answer;
use plx_session::{Leased, Setting};

/// The image whose lease is due next, of images from that one on, or the reply once none is left.
pub fn next_due(
    setting: &Setting,
    sessions: &Sessions,
    leases: &Leases,
    from: u32,
) -> Result<Leased, Reply>
    requires from { from ≤ setting.now.geometry.images }
    requires leased { leases.now.count ≡ setting.now.geometry.images }
    ensures process { IsNextDue setting.now sessions.now leases.now from result }
    ensures setting { IfOk result (λ image. image.setting ≡ setting.now) }
{
    for index in from..leases.count {
        if let Some(image) = due(setting, sessions, leases, SlotNo(index)) {
            return Ok(image);
        }
    }
    Err(Reply::Retired)
}

// The lease of an image, where it is held and no session needs it.
fn due(setting: &Setting, sessions: &Sessions, leases: &Leases, slot: SlotNo) -> Option<Leased>
    requires within { slot.0 < setting.now.geometry.images }
    ensures process { IsDue setting.now sessions.now leases.now slot.0 result }
    ensures setting { IfSome result (λ image. image.setting ≡ setting.now) }
    ensures slot { IfSome result (λ image. image.slot ≡ slot) }
{
    match sessions.get(slot) {
        Some(_session) => None,
        None => {
            let held = leases.get(slot)?;
            Some(Leased {
                setting: *setting,
                slot,
                until: held.until(),
            })
        }
    }
}

/// Once the part of the extents has ended: the image whose lease is due first, or the reply.
pub fn after_extents(
    end: SpaceEnd,
    setting: &Setting,
    sessions: &Sessions,
    leases: &Leases,
) -> Result<Leased, Reply>
    requires leased { leases.now.count ≡ setting.now.geometry.images }
    ensures process { (claims : ℕ) → enter_process (image_rest (rules_setting setting.now)
        (image_leases leases.now.leases.items)) (known_by sessions.now claims) result
        ≡ space_end (images_from (rules_setting setting.now) (known_by sessions.now claims)
        (image_leases leases.now.leases.items) 0) (known_by sessions.now claims) end }
    ensures setting { IfOk result (λ image. image.setting ≡ setting.now) }
{
    match end {
        SpaceEnd::Done => next_due(setting, sessions, leases, 0),
        SpaceEnd::Refused(reply) => Err(reply),
    }
}

/// The release of an image's lease is answered: the image whose lease is due next, or the reply.
/// An answer that doesn't fit leaves it.
pub fn answer_release(
    image: &Leased,
    sessions: &Sessions,
    leases: &mut Leases,
    answer: &Answer,
) -> Result<Leased, Reply>
    requires leased { leases.old.count ≡ image.now.setting.geometry.images }
    ensures process { (claims : ℕ) → enter_process (image_rest (rules_setting image.now.setting)
        (image_leases leases.new.leases.items)) (known_by sessions.now claims) result
        ≡ answered (image_rest (rules_setting image.now.setting)
        (image_leases leases.old.leases.items)
        (known_by sessions.now claims) image.now) answer.now }
    ensures setting { IfOk result (λ next. next.setting ≡ image.now.setting) }
    ensures leased { leases.new.count ≡ leases.old.count }
    ensures leases { image_leases leases.new.leases.items
        ≡ image_leases_after_release answer.now image.now.slot.0
        (image_leases leases.old.leases.items) }
{
    match answer {
        Answer::Done => {
            if let Some(held) = leases.take(image.slot) {
                held.released();
            }
            next_due(&image.setting, sessions, leases, image.slot.0 + 1)
        }
        Answer::Fault => Err(Reply::WriteFault {
            block: image.lease_block(),
        }),
        Answer::Missed(reading) => Err(image.lost(*reading)),
        _ => Ok(*image),
    }
}
