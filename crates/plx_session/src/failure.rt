//! How the work under the lease of an image fails.
ghost use Rattle.std.specs.Prelude.{◌≡◌};

use crate::leased::Leased;
use plx_base::BlockNo;
use plx_commands::Reply;

/// How the work under the lease of an image fails: a read or a write of this block, bytes outside the format at this
/// block, or a reading that has reached the end of the lease.
#[derive(Drop)]
pub enum Failure {
    ReadFault(BlockNo),
    WriteFault(BlockNo),
    Damaged(BlockNo),
    Lost(u64),
}

impl Failure {
    ghost use Rattle.plx_rules.specs.Ends.{ends};
    ghost use Rattle.plx_rules.specs.Session.{Known};
    ghost use Rattle.plx_session.specs.Ending.{known_after};
    ghost use Rattle.plx_session.specs.Failing.{failed};

    /// The reply to the command whose work fails so.
    pub fn reply(&self, image: &Leased) -> Reply
        ensures { (known : Known) → ends result (known_after result known)
            ≡ failed known image.now self.now }
    {
        match self {
            Failure::ReadFault(block) => Reply::ReadFault { block: *block },
            Failure::WriteFault(block) => Reply::WriteFault { block: *block },
            Failure::Damaged(block) => Reply::Damaged { block: *block },
            Failure::Lost(reading) => image.lost(*reading),
        }
    }
}
