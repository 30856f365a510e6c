//! What the virtual blocks of an image hold.
ghost use Rattle.std.specs.Prelude.{◌≡◌, ◌↔◌, IsTrue};
ghost use Rattle.plx_base.specs.Blocks.{zeros};
ghost use Rattle.plx_base.specs.Payload.{bytes_of};
ghost use Rattle.plx_commands.specs.Reports.{same_bytes};
ghost use Rattle.plx_model.specs.Shown.{content_of};

use plx_base::{Block, Label, Payload};
use std::collections::BTreeMap;

// Whether the virtual block holds these bytes.
pub fn holds(content: &BTreeMap<u32, Block>, vblock: u32, payload: &Payload) -> bool
    ensures { IsTrue result ↔ (bytes_of payload.now ≡ content_of content.now vblock) }
{
    match content.get(&vblock) {
        Some(block) => is_block(payload, block),
        None => is_zeros(payload),
    }
}

fn is_block(payload: &Payload, block: &Block) -> bool
    ensures { IsTrue result ↔ (bytes_of payload.now ≡ block.now) }
{
    match payload {
        Payload::All(byte) => block.is_filled(*byte),
        Payload::Whole(bytes) => is_same(bytes.as_slice(), block.as_slice()),
    }
}

fn is_zeros(payload: &Payload) -> bool
    ensures { IsTrue result ↔ (bytes_of payload.now ≡ zeros) }
{
    match payload {
        Payload::All(byte) => *byte == 0,
        Payload::Whole(block) => block.is_filled(0),
    }
}

// Whether the labels are the same.
pub fn is_label(label: &Label, other: &Label) -> bool
    ensures { result ≡ same_bytes label.now other.now }
{
    is_same(label.as_slice(), other.as_slice())
}

fn is_same(bytes: &[u8], others: &[u8]) -> bool
    ensures { IsTrue result ↔ (bytes.now ≡ others.now) }
{
    bytes == others
}
