//! A command of an attached image, before its first reading of the clock.
ghost use Rattle.std.specs.Prelude.{◌≡◌, Some, IfOk};

use crate::leased::Leased;
use crate::read::Read;
use crate::record::Record;
use crate::session::Session;
use crate::work::ImageWork;
use crate::write::Write;
use plx_base::{Block, Label};
use plx_commands::Reply;

/// A command of an attached image, with all the memory that it can need.
#[derive(Drop)]
pub enum ImageCommand {
    Create {
        size: u32,
        label: Label,
        record: Block,
    },
    Delete {
        record: Block,
    },
    Read {
        vblock: u32,
        block: Block,
    },
    Write {
        vblock: u32,
        block: Block,
        descriptor: Block,
    },
}

impl ImageCommand {
    ghost use Rattle.plx_rules.specs.Session.{Known};
    ghost use Rattle.plx_session.specs.Commands.{image_process};
    ghost use Rattle.plx_session.specs.Ending.{enter_process};
    ghost use Rattle.plx_session.specs.Giving.{rules_setting};
    ghost use Rattle.plx_session.specs.Shown.{session_of};
    ghost use Rattle.plx_session.specs.Works.{image_leased, image_rest};

    /// The command goes on at its image under the image's lease, with the image's session, or is refused.
    pub fn enter(self, image: Leased, session: &Session) -> Result<ImageWork, Reply>
        requires { session.now.journal.slots ≡ image.setting.geometry.slots }
        ensures process { (known : Known) →
            known.sessions image.slot.0 ≡ Some (session_of session.now) →
            enter_process image_rest known result ≡ image_process (rules_setting image.setting)
            known image.slot.0 self (session_of session.now) image.until }
        ensures image { IfOk result (λ work. image_leased work ≡ image) }
    {
        match self {
            ImageCommand::Create {
                size,
                label,
                record,
            } => match Record::create(image, session, size, label, record) {
                Err(refusal) => Err(refusal.reply()),
                Ok(record) => Ok(ImageWork::Record(record)),
            },
            ImageCommand::Delete { record } => match Record::delete(image, session, record) {
                Err(refusal) => Err(refusal.reply()),
                Ok(record) => Ok(ImageWork::Record(record)),
            },
            ImageCommand::Read { vblock, block } => {
                match Read::enter(image, session, vblock, block) {
                    Err(refusal) => Err(refusal.reply()),
                    Ok(read) => Ok(ImageWork::Read(read)),
                }
            }
            ImageCommand::Write {
                vblock,
                block,
                descriptor,
            } => match Write::enter(image, session, vblock, block, descriptor) {
                Err(refusal) => Err(refusal.reply()),
                Ok(write) => Ok(ImageWork::Write(write)),
            },
        }
    }
}
