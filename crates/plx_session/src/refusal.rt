//! Why a command of an attached image is refused before any work.
ghost use Rattle.std.specs.Prelude.{◌≡◌};

use plx_commands::Reply;

/// Why a command of an attached image is refused before any work: there is no image, or there is one already; the image
/// has or can have no more than so many blocks; it was made or written as often as it can be; or its journal is full.
#[derive(Drop)]
pub enum Refusal {
    NoImage,
    Exists,
    OutOfRange(u32),
    WornOut(u64),
    Full,
}

impl Refusal {
    ghost use Rattle.plx_rules.specs.Ends.{ends};
    ghost use Rattle.plx_rules.specs.Session.{Known};
    ghost use Rattle.plx_session.specs.Ending.{known_after};
    ghost use Rattle.plx_session.specs.Refusing.{refused};

    /// The reply to the command that is refused so.
    pub fn reply(&self) -> Reply
        ensures { (known : Known) → ends result (known_after result known)
            ≡ refused known self.now }
    {
        match self {
            Refusal::NoImage => Reply::NoImage,
            Refusal::Exists => Reply::Exists,
            Refusal::OutOfRange(size) => Reply::OutOfRange { size: *size },
            Refusal::WornOut(count) => Reply::WornOut { count: *count },
            Refusal::Full => Reply::Full,
        }
    }
}
