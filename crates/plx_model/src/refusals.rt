//! The refusals of a command whose facts hold.
use crate::replies::{OK, number_of};
use plx_commands::{LAST_CLAIM, Reply};

/// Which refusals' facts hold of a slot's image.
#[derive(Clone, Copy)]
pub struct ImageRefusals {
    pub no_image: bool,
    pub exists: bool,
    // The size that is named, where the block isn't below it or an image of such a size can't be made.
    pub range: Option<u32>,
    // The last value of the count that stands there.
    pub worn: Option<u64>,
}

impl ImageRefusals {
    ghost use Rattle.std.specs.Prelude.{◌≡◌, ◌↔◌, [], IsTrue, Some};
    ghost use Rattle.plx_commands.specs.Facts.{is_none};
    ghost use Rattle.plx_model.specs.Shown.{listed_images};

    // None.
    pub fn none() -> ImageRefusals
        ensures { listed_images result ≡ [] }
    {
        ImageRefusals {
            no_image: false,
            exists: false,
            range: None,
            worn: None,
        }
    }

    fn is_empty(&self) -> bool
        ensures { result ≡ is_none (listed_images self.now) }
    {
        !self.no_image && !self.exists && self.range.is_none() && self.worn.is_none()
    }

    fn is_beyond(&self, size: u32) -> bool
        ensures { IsTrue result ↔ (self.now.range ≡ Some size) }
    {
        self.range == Some(size)
    }
}

/// Which refusals' facts hold of an appliance's command.
#[derive(Clone, Copy)]
pub struct Refusals {
    pub attached: bool,
    pub not_attached: bool,
    pub images: ImageRefusals,
    // Whether the command may find that no claim is left.
    pub claims: bool,
}

impl Refusals {
    ghost use Rattle.std.specs.Prelude.{◌≡◌, ◌↔◌, ◌++◌, [], IsTrue};
    ghost use Rattle.plx_commands.specs.Facts.{is_none};
    ghost use Rattle.plx_commands.specs.Replies.{number_of};
    ghost use Rattle.plx_model.specs.Shown.{IsFoundedIn, IsWornAt, listed_refusals, listed_claims};

    // Whether there is none, apart from a claim that the model knows nothing of.
    pub fn is_empty(&self) -> bool
        ensures { result ≡ is_none (listed_refusals self.now) }
    {
        !self.attached && !self.not_attached && self.images.is_empty()
    }

    // Whether the reply is among them, where it rests on a fact.
    pub fn found(&self, reply: &Reply) -> bool
        ensures { IsTrue result ↔ IsFoundedIn
            (listed_refusals self.now ++ listed_claims self.now) reply.now }
    {
        match reply {
            Reply::NotAttached => self.not_attached,
            Reply::AlreadyAttached => self.attached,
            Reply::NoImage => self.images.no_image,
            Reply::Exists => self.images.exists,
            Reply::OutOfRange { size } => self.images.is_beyond(*size),
            Reply::WornOut { count } => self.is_worn(*count),
            Reply::Attached { .. } => true,
            Reply::Detached => true,
            Reply::Created => true,
            Reply::Deleted => true,
            Reply::Data { .. } => true,
            Reply::Written { .. } => true,
            Reply::Flushed { .. } => true,
            Reply::Reserved => true,
            Reply::Renewed => true,
            Reply::Retired => true,
            Reply::Reclaimed { .. } => true,
            Reply::Busy { .. } => true,
            Reply::Lost { .. } => true,
            Reply::ReadFault { .. } => true,
            Reply::WriteFault { .. } => true,
            Reply::Full => true,
            Reply::Damaged { .. } => true,
        }
    }

    // Whether there is none, where the reply is an Ok.
    pub fn allow(&self, reply: &Reply) -> bool
        ensures { IsTrue result ↔ (number_of reply.now ≡ 0 → listed_refusals self.now ≡ []) }
    {
        number_of(reply) != OK || self.is_empty()
    }

    fn is_worn(&self, count: u64) -> bool
        ensures { IsTrue result ↔ IsWornAt self.now.images.worn self.now.claims count }
    {
        self.images.worn == Some(count) || (self.claims && count == LAST_CLAIM)
    }
}
