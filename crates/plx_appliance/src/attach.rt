//! An attach claims the image's lease, unless it is held already, and loads the image.
ghost use Rattle.std.specs.Prelude.{◌≡◌, ◌<◌, ◌^◌, ℕ, Some, None, IfOk};
ghost use Rattle.std.specs.Vec.{vec_len};
ghost use Rattle.plx_rules.specs.Ends.{ends};
ghost use Rattle.plx_session.specs.Ending.{known_after};
ghost use Rattle.plx_session.specs.Loads.{load_left};
ghost use Rattle.plx_appliance.specs.Kept.{known_by};

use crate::lease::Leases;
use crate::sessions::Sessions;
use plx_base::{Block, LeaseName, SlotNo};
use plx_commands::Reply;
use plx_disk::{Answer, Ask};
use plx_geom::Place;
use plx_lease::{ClaimEnd, LeaseClaim};
use plx_session::{Failure, Leased, Load, Session, Setting};
use plx_token::Image;
use std::alloc::Global;
use std::mem;

/// The claim of an image's lease, with the memory of the load that comes after it.
#[derive(Drop)]
pub struct ImageClaim {
    pub setting: Setting,
    pub slot: SlotNo,
    pub claim: LeaseClaim<Image>,
    pub slots: u32,
    pub session: Session,
    pub alloc: Global,
    ghost inside: { slot.0 < setting.geometry.images },
    ghost same: { session.journal.slots ≡ slots },
    ghost empty: { vec_len session.journal.writes ≡ 0 },
}

impl ImageClaim {
    ghost use Rattle.plx_rules.specs.Attaching.{after_claim, load_image};
    ghost use Rattle.plx_rules.specs.Session.{Known};
    ghost use Rattle.plx_lease.specs.ClaimEnds.{claim_end};
    ghost use Rattle.plx_session.specs.Ending.{enter_process};
    ghost use Rattle.plx_session.specs.Giving.{rules_setting};
    ghost use Rattle.plx_session.specs.Loads.{load_rest};
    ghost use Rattle.plx_appliance.specs.Attaches.{image_leases_after_claim};
    ghost use Rattle.plx_appliance.specs.Tokens.{image_leases};

    // The claim has ended: the load, or the reply.
    fn end(&mut self, leases: &mut Leases, end: ClaimEnd<Image>) -> Result<Load, Reply>
        requires own { self.old.slots ≡ self.old.setting.geometry.slots }
        requires leased { leases.old.count ≡ self.old.setting.geometry.images }
        ensures rest { (known : Known) → enter_process load_rest known result ≡ after_claim
            (rules_setting self.old.setting) known self.old.slot.0 (claim_end end) }
        ensures loads { IfOk result (λ load. load.image.setting ≡ self.old.setting) }
        ensures slots { IfOk result (λ load. load.slots ≡ self.old.slots) }
        ensures setting { self.new.setting ≡ self.old.setting }
        ensures leased { leases.new.count ≡ leases.old.count }
        ensures leases { image_leases leases.new.leases.items
            ≡ image_leases_after_claim (claim_end end) self.old.slot.0
            (image_leases leases.old.leases.items) }
    {
        let block = self.setting.block(Place::ImageLease(self.slot));
        match end {
            ClaimEnd::Held(held) => {
                let load = self.load(held.until());
                leases.put(self.slot, held);
                Ok(load)
            }
            ClaimEnd::Busy { seen } => Err(Reply::Busy {
                lease: LeaseName::Image(self.slot),
                seen,
            }),
            ClaimEnd::Lost { due, reading } => Err(Reply::Lost {
                lease: self.setting.lease_name(due.lease),
                until: due.until,
                reading,
            }),
            ClaimEnd::ReadFault => Err(Reply::ReadFault { block }),
            ClaimEnd::WriteFault => Err(Reply::WriteFault { block }),
            ClaimEnd::Damaged => Err(Reply::Damaged { block }),
        }
    }

    // The load of the image, whose lease is held up to this moment.
    fn load(&mut self, until: u64) -> Load
        requires own { self.old.slots ≡ self.old.setting.geometry.slots }
        requires high { until < 2 ^ 49 }
        ensures rest { (known : Known) → load_rest known result ≡ load_image
            (rules_setting self.old.setting) known self.old.slot.0 until }
        ensures loads { result.image.setting ≡ self.old.setting }
        ensures slots { result.slots ≡ self.old.slots }
        ensures setting { self.new.setting ≡ self.old.setting }
        ensures slot { self.new.slot ≡ self.old.slot }
    {
        let image = Leased {
            setting: self.setting,
            slot: self.slot,
            until,
        };
        self.slots = 0;
        let session = mem::replace(&mut self.session, Session::empty(self.alloc));
        Load::begin(self.alloc, image, session)
    }
}

/// An attach: at the claim of its image's lease, or at the load.
#[derive(Drop)]
pub enum Attach {
    Claim(ImageClaim),
    Load(Load),
}

impl Attach {
    ghost use Rattle.std.specs.Prelude.{[], Option};
    ghost use Rattle.plx_geom.specs.Geometry.{image_lease, lease_at};
    ghost use Rattle.plx_rules.specs.Process.{Process, answered, standing, bytes_out};
    ghost use Rattle.plx_commands.specs.Limits.{last_claim};
    ghost use Rattle.plx_rules.specs.Attaching.{after_claim, load_image};
    ghost use Rattle.plx_rules.specs.Claims.{claim_process};
    ghost use Rattle.plx_rules.specs.Machines.{AreWhole, IsTimely};
    ghost use Rattle.plx_rules.specs.Processes.{followed_by};
    ghost use Rattle.plx_rules.specs.Session.{Known};
    ghost use Rattle.plx_rules.specs.Holds.{Hold, Nothing};
    ghost use Rattle.plx_alloc.specs.Asking.{IsOnDevice};
    ghost use Rattle.plx_session.specs.Ending.{process_after};
    ghost use Rattle.plx_session.specs.Giving.{rules_setting};
    ghost use Rattle.plx_appliance.specs.Attaches.{attach_inside, attach_moves, attach_rest, attach_setting, attach_slots, attach_spares, attach_starts};
    ghost use Rattle.plx_appliance.specs.Tokens.{image_leases};

    /// The lease is to be claimed, by a boot that began so many claims before, with a block for what
    /// the claim writes.
    pub fn claim(
        alloc: Global,
        setting: Setting,
        slot: SlotNo,
        number: u64,
        session: Session,
        lease: Block,
    ) -> Attach
        requires within { slot.0 < setting.geometry.images }
        requires number { number < last_claim }
        requires slots { session.journal.slots ≡ setting.geometry.slots }
        requires empty { vec_len session.journal.writes ≡ 0 }
        ensures rest { (known : Known) → attach_rest known result ≡ followed_by
            (claim_process (rules_setting setting).boot [] (image_lease slot.0) number)
            (after_claim (rules_setting setting) known slot.0) }
        ensures starts { (leases : ℕ → Hold) → leases slot.0 ≡ Nothing →
            attach_starts leases result }
        ensures setting { attach_setting result ≡ setting }
        ensures slots { attach_slots result ≡ setting.geometry.slots }
    {
        let block = setting.block(Place::ImageLease(slot));
        let claim = LeaseClaim::begin(Image(slot), block, setting.boot, number, None, lease);
        let slots = session.journal.slots;
        Attach::Claim(ImageClaim {
            setting,
            slot,
            claim,
            slots,
            session,
            alloc,
        })
    }

    /// The lease is held up to this moment.
    pub fn load(alloc: Global, image: Leased, session: Session) -> Attach
        requires slots { session.journal.slots ≡ image.setting.geometry.slots }
        requires empty { vec_len session.journal.writes ≡ 0 }
        ensures rest { (known : Known) → attach_rest known result ≡ load_image
            (rules_setting image.setting) known image.slot.0 image.until }
        ensures starts { (leases : ℕ → Hold) → attach_starts leases result }
        ensures setting { attach_setting result ≡ image.setting }
        ensures slots { attach_slots result ≡ image.setting.geometry.slots }
    {
        Attach::Load(Load::begin(alloc, image, session))
    }

    /// The ask that stands.
    pub fn ask(&self) -> Ask
        requires { attach_slots self.now ≡ (attach_setting self.now).geometry.slots }
        ensures ask { (known : Known) → Some result ≡ standing (attach_rest known self.now) }
        ensures spare { attach_spares self.now result }
        ensures within { (holds : ℕ → Hold) (sample : Option ℕ) →
            attach_inside self.now holds sample →
            IsOnDevice (attach_setting self.now).geometry result }
    {
        match self {
            Attach::Claim(claim) => claim.claim.ask(),
            Attach::Load(load) => load.ask(),
        }
    }

    /// The bytes of the write that is asked for.
    pub fn out(&self) -> &[u8]
        ensures bytes { (known : Known) → result.now ≡ bytes_out (attach_rest known self.now) }
        ensures whole { (known : Known) →
            AreWhole (standing (attach_rest known self.now)) result.now }
    {
        match self {
            Attach::Claim(claim) => claim.claim.out(),
            Attach::Load(load) => load.out(),
        }
    }

    /// The ask is answered.
    pub fn answer(
        &mut self,
        sessions: &mut Sessions,
        leases: &mut Leases,
        answer: &Answer,
    ) -> Option<Reply>
        requires own { attach_slots self.old ≡ (attach_setting self.old).geometry.slots }
        requires count { sessions.old.count ≡ (attach_setting self.old).geometry.images }
        requires slots { sessions.old.slots ≡ (attach_setting self.old).geometry.slots }
        requires leased { leases.old.count ≡ (attach_setting self.old).geometry.images }
        requires timely { IsTimely answer.now }
        ensures rest { (claims : ℕ) → process_after
            (attach_rest (known_by sessions.new claims) self.new)
            (known_by sessions.new claims) result
            ≡ answered (attach_rest (known_by sessions.old claims) self.old) answer.now }
        ensures setting { attach_setting self.new ≡ attach_setting self.old }
        ensures own { result ≡ None → attach_slots self.new ≡ attach_slots self.old }
        ensures count { sessions.new.count ≡ sessions.old.count }
        ensures slots { sessions.new.slots ≡ sessions.old.slots }
        ensures sessions { result ≡ None → sessions.new ≡ sessions.old }
        ensures leased { leases.new.count ≡ leases.old.count }
        ensures moves { attach_moves self.old self.new answer.now
            (image_leases leases.old.leases.items) (image_leases leases.new.leases.items) result }
    {
        match self {
            Attach::Claim(claim) => match claim.claim.answer(answer) {
                None => None,
                Some(end) => match claim.end(leases, end) {
                    Ok(load) => {
                        *self = Attach::Load(load);
                        None
                    }
                    Err(reply) => Some(reply),
                },
            },
            Attach::Load(load) => match load.answer(answer) {
                None => None,
                Some(end) => Some(after_load(load, sessions, end)),
            },
        }
    }
}

// The load has ended.
fn after_load(load: &Load, sessions: &mut Sessions, end: Result<Session, Failure>) -> Reply
    requires count { sessions.old.count ≡ load.now.image.setting.geometry.images }
    requires slots { IfOk end (λ session. session.journal.slots ≡ sessions.old.slots) }
    ensures rest { (claims : ℕ) → ends result (known_after result (known_by sessions.new claims))
        ≡ load_left (known_by sessions.old claims) load.now (Some end) }
    ensures count { sessions.new.count ≡ sessions.old.count }
    ensures slots { sessions.new.slots ≡ sessions.old.slots }
{
    match end {
        Ok(session) => {
            let report = session.report();
            sessions.put(load.image.slot, session);
            Reply::Attached { report }
        }
        Err(failure) => failure.reply(&load.image),
    }
}
