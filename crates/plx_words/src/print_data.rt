//! How the bytes of blocks are printed.
ghost use Rattle.std.specs.Prelude.{◌≡◌, ◌<◌, ◌++◌, codes, flat_map, OnOk};
ghost use Rattle.std.specs.List.{All};
ghost use Rattle.plx_base.specs.Canonical.{payload_of};
ghost use Rattle.plx_base.specs.Payload.{bytes_of};
ghost use Rattle.plx_words.specs.Pieces.{IsData, data_spelled, hex_byte, hex_digit};

use crate::text::Text;
use plx_base::{Block, NoMemory, Payload};

/// What a block holds: one byte where all are equal, else all of them.
pub(crate) fn push_data(text: &mut Text, payload: &Payload) -> Result<(), NoMemory>
    ensures text { OnOk result
        (text.new ≡ text.old ++ data_spelled (payload_of (bytes_of payload.now))) }
    ensures fits { OnOk result (IsData (payload_of (bytes_of payload.now))) }
{
    match payload {
        Payload::All(byte) => push_all(text, *byte),
        Payload::Whole(block) => push_block(text, block),
    }
}

fn push_block(text: &mut Text, block: &Block) -> Result<(), NoMemory>
    ensures text { OnOk result (text.new ≡ text.old ++ data_spelled (payload_of block.now)) }
    ensures fits { OnOk result (IsData (payload_of block.now)) }
{
    let bytes = block.as_slice();
    let first = bytes[0];
    if block.is_filled(first) {
        return push_all(text, first);
    }
    text.push(b"hex:")?;
    push_each(text, bytes)
}

fn push_all(text: &mut Text, byte: u8) -> Result<(), NoMemory>
    ensures { OnOk result (text.new ≡ text.old ++ (codes "all:" ++ hex_byte byte)) }
{
    text.push(b"all:")?;
    push_byte(text, byte)
}

fn push_each(text: &mut Text, bytes: &[u8]) -> Result<(), NoMemory>
    ensures text { OnOk result (text.new ≡ text.old ++ flat_map hex_byte bytes.now) }
    ensures small { OnOk result (All (λ byte. byte < 256) bytes.now) }
{
    for byte in bytes {
        push_byte(text, *byte)?;
    }
    Ok(())
}

fn push_byte(text: &mut Text, byte: u8) -> Result<(), NoMemory>
    ensures { OnOk result (text.new ≡ text.old ++ hex_byte byte) }
{
    let digits = [digit(byte / 16), digit(byte % 16)];
    text.push(&digits)
}

fn digit(value: u8) -> u8
    requires { value < 16 }
    ensures { result ≡ hex_digit value }
{
    if value < 10 {
        b'0' + value
    } else {
        b'a' - 10 + value
    }
}
