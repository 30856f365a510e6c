//! What stands in a journal slot.
ghost use Rattle.std.specs.Prelude.{◌≡◌, ◌<◌};
ghost use Rattle.plx_rules.specs.Journal.{finding as finding_in};
ghost use Rattle.plx_rules.specs.Journal.{is_placed as is_in_place, is_unapplied as is_not_applied};
ghost use Rattle.plx_rules.specs.Records.{is_plain as is_plain_record};
ghost use Rattle.plx_session.specs.Finds.{finding_shown};

use crate::session::Session;
use plx_base::Block;
use plx_gate::{Descriptor, ImageRecord, read_descriptor};

/// What stands in a journal slot: bytes outside the format, nothing that counts, or a descriptor that does.
#[derive(Clone, Copy)]
pub enum Finding {
    Outside,
    Unused,
    Counts(Descriptor),
}

/// What stands in a slot of the journal of a session's image, of the bytes of its descriptor.
pub fn find(session: &Session, slot: u32, bytes: &Block) -> Finding
    requires { slot < session.now.journal.slots }
    ensures { finding_shown result
        ≡ finding_in session.now.image session.now.journal.slots slot bytes.now }
{
    let Some(read) = read_descriptor(bytes.as_slice()) else {
        return Finding::Outside;
    };
    let Some(descriptor) = read else {
        return Finding::Unused;
    };
    if !is_unapplied(session, &descriptor) {
        return Finding::Unused;
    }
    if !is_placed(session.journal.slots, slot, &descriptor) || descriptor.vblock >= session.size() {
        return Finding::Outside;
    }
    Finding::Counts(descriptor)
}

// Whether a descriptor is one of the image that its tree hasn't.
fn is_unapplied(session: &Session, descriptor: &Descriptor) -> bool
    ensures { result ≡ is_not_applied session.now.image descriptor.now }
{
    session.is_live()
        && descriptor.generation == session.generation()
        && session.applied() < descriptor.number
}

// Whether it stands in the slot of its number.
fn is_placed(slots: u32, slot: u32, descriptor: &Descriptor) -> bool
    requires { slot < slots }
    ensures { result ≡ is_in_place slots slot descriptor.now }
{
    descriptor.number.saturating_sub(1) % u64::from(slots) == u64::from(slot)
}

/// Whether an image has no snapshot and no tree.
pub fn is_plain(image: &ImageRecord) -> bool
    ensures { result ≡ is_plain_record image.now }
{
    match image {
        ImageRecord::Free { .. } => true,
        ImageRecord::Live(live) => live.taken == 0 && live.root.value() == 0,
    }
}
