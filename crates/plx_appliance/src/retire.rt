//! A retire gives up each lease of an extent, and then each lease of an image that no session
//! needs.
ghost use Rattle.std.specs.Prelude.{◌≡◌, None};
ghost use Rattle.plx_base.specs.declared.lease.LeaseRecord.TheVariants.{Free};
ghost use Rattle.plx_gate.specs.Leases.{lease_bytes};

use crate::holdings::Holdings;
use crate::retiring::{after_extents, answer_release};
use plx_alloc::{MapRoom, Retire as SpaceRetire};
use plx_base::{Block, LeaseRecord, WriteKind};
use plx_commands::Reply;
use plx_disk::{Answer, Ask};
use plx_lease::spell_lease;
use plx_session::{Leased, Setting};

/// Where a retire stands.
#[derive(Drop)]
pub enum RetireStage {
    /// In the part of the extents.
    Extents(SpaceRetire),
    /// At the release of an image's lease.
    Image(Leased),
}

/// A retire, with the block that spells a free lease.
#[derive(Drop)]
pub struct Retire {
    pub setting: Setting,
    pub stage: RetireStage,
    pub spelled: Block,
    ghost free: { spelled ≡ lease_bytes Free },
}

impl Retire {
    ghost use Rattle.std.specs.Prelude.{ℕ, List, Option, Some, Err, IfOk};
    ghost use Rattle.plx_alloc.specs.declared.allocator.Allocator.{Allocator};
    ghost use Rattle.plx_commands.specs.declared.reply.Reply.{Reply};
    ghost use Rattle.plx_geom.specs.Geometry.{Geometry};
    ghost use Rattle.plx_rules.specs.Machines.{AreWhole};
    ghost use Rattle.plx_rules.specs.Process.{answered, bytes_out, standing};
    ghost use Rattle.plx_rules.specs.Space.{retire_process};
    ghost use Rattle.plx_alloc.specs.Asking.{IsOnDevice};
    ghost use Rattle.plx_session.specs.Ending.{process_after, enter_process};
    ghost use Rattle.plx_session.specs.Giving.{rules_setting};
    ghost use Rattle.plx_appliance.specs.Kept.{known_of};
    ghost use Rattle.plx_appliance.specs.Lent.{Lent, lent_of};
    ghost use Rattle.plx_appliance.specs.RenewStarts.{holds_in};
    ghost use Rattle.plx_appliance.specs.Retires.{IsAtImage, image_rest, retire_entered, retire_moves, retire_images_rest, retire_suits, retire_tells};
    ghost use Rattle.plx_appliance.specs.Space.{hand_in};

    /// The retire begins, with the memory of its writes of maps and with blocks for the leases of extents
    /// and of images, or is over at once.
    pub fn enter(
        holdings: &Holdings,
        room: MapRoom,
        extent_lease: Block,
        image_lease: Block,
    ) -> Result<Retire, Reply>
        ensures process { retire_entered (lent_of holdings.now) result
            ≡ retire_process (rules_setting holdings.now.setting) (known_of holdings.now)
            (holds_in holdings.now) (hand_in holdings.now) }
        ensures setting { IfOk result (λ r. r.setting ≡ holdings.now.setting) }
        ensures tells { (g : Geometry) (found : Option (ℕ × List ℕ))
            → IfOk result (λ r. retire_tells g r.stage found) }
        ensures suits { IfOk result (λ r. retire_suits holdings.now.space r.setting r.stage) }
    {
        let mut spelled = image_lease;
        spell_lease(&LeaseRecord::Free, &mut spelled);
        let setting = holdings.setting;
        match SpaceRetire::begin(room, extent_lease, &holdings.space) {
            Ok(extents) => Ok(Retire {
                setting,
                stage: RetireStage::Extents(extents),
                spelled,
            }),
            Err(end) => match after_extents(end, &setting, &holdings.sessions, &holdings.leases) {
                Ok(image) => Ok(Retire {
                    setting,
                    stage: RetireStage::Image(image),
                    spelled,
                }),
                Err(reply) => Err(reply),
            },
        }
    }

    /// The ask that stands.
    pub fn ask(&self) -> Ask
        ensures ask { (lent : Lent) → Some result ≡ standing (retire_images_rest lent self.now) }
        ensures within { (space : Allocator)
            → retire_suits space self.now.setting self.now.stage
            → space.geometry ≡ self.now.setting.geometry
            → IsOnDevice self.now.setting.geometry result }
    {
        match &self.stage {
            RetireStage::Extents(extents) => extents.ask(),
            RetireStage::Image(image) => Ask::Write {
                kind: WriteKind::Release,
                block: image.lease_block(),
                guard: image.until,
            },
        }
    }

    /// The bytes of the write that is asked for.
    pub fn out(&self) -> &[u8]
        ensures bytes { (lent : Lent) → result.now ≡ bytes_out (retire_images_rest lent self.now) }
        ensures whole { (lent : Lent) → AreWhole
            (standing (retire_images_rest lent self.now)) result.now }
    {
        match &self.stage {
            RetireStage::Extents(extents) => extents.out(),
            RetireStage::Image(_) => self.spelled.as_slice(),
        }
    }

    /// The ask is answered.
    pub fn answer(&mut self, holdings: &mut Holdings, answer: &Answer) -> Option<Reply>
        requires setting { holdings.old.setting ≡ self.old.setting }
        requires suits { retire_suits holdings.old.space self.old.setting self.old.stage }
        ensures rest { process_after (retire_images_rest (lent_of holdings.new) self.new)
            (known_of holdings.new) result
            ≡ answered (retire_images_rest (lent_of holdings.old) self.old) answer.now }
        ensures setting { self.new.setting ≡ self.old.setting }
        ensures kept { holdings.new.setting ≡ holdings.old.setting }
        ensures sessions { holdings.new.sessions ≡ holdings.old.sessions }
        ensures suits { result ≡ None
            → retire_suits holdings.new.space self.new.setting self.new.stage }
        ensures moves { retire_moves self.old.stage self.new answer.now (lent_of holdings.old)
            (lent_of holdings.new) result }
    {
        match &mut self.stage {
            RetireStage::Extents(extents) => match extents.answer(&mut holdings.space, answer) {
                None => None,
                Some(end) => {
                    let next = after_extents(
                        end,
                        &self.setting,
                        &holdings.sessions,
                        &holdings.leases,
                    );
                    self.go_on(next)
                }
            },
            RetireStage::Image(image) => {
                let next = answer_release(image, &holdings.sessions, &mut holdings.leases, answer);
                self.go_on(next)
            }
        }
    }

    // The retire goes on at the lease of this image, or is over.
    fn go_on(&mut self, next: Result<Leased, Reply>) -> Option<Reply>
        requires { IfOk next (λ image. image.setting ≡ self.old.setting) }
        ensures rest { (lent : Lent)
            → process_after (retire_images_rest lent self.new) lent.known result
            ≡ enter_process (image_rest (rules_setting self.old.setting) lent.leases) lent.known next }
        ensures setting { self.new.setting ≡ self.old.setting }
        ensures image { result ≡ None → IsAtImage self.new.setting self.new.stage }
    {
        match next {
            Ok(image) => {
                self.stage = RetireStage::Image(image);
                None
            }
            Err(reply) => Some(reply),
        }
    }
}
