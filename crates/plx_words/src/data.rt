//! The bytes of blocks, as words.

ghost use Rattle.std.specs.Prelude.{◌≡◌, ◌≢◌, ◌<◌, ◌∷◌, [], ℕ, List, IfNone, IfOk, IfSome, flat_map};
ghost use Rattle.plx_base.specs.declared.payload.Payload.{Payload};
ghost use Rattle.plx_words.specs.Pieces.{IsData, data_spelled, hex_byte, hex_digit};

use plx_base::{BLOCK_LEN, Block, NoMemory, Payload};
use std::alloc::Global;

/// What a block holds, by a word: `all:` and the two digits of one byte, or `hex:` and 8,192 digits.
/// `hex:` gives `Whole`, also where all bytes are equal. Memory is taken for `hex:` alone.
pub fn read_data(alloc: Global, word: &[u8]) -> Result<Option<Payload>, NoMemory>
    ensures some { IfOk result (λ found. IfSome found
        (λ payload. IsData payload × (word.now ≡ data_spelled payload))) }
    ensures none { IfOk result (λ found. IfNone found
        ((payload : Payload) → IsData payload → word.now ≢ data_spelled payload)) }
{
    if let Some(digits) = word.strip_prefix(b"all:".as_slice()) {
        return Ok(read_byte(digits).map(Payload::All));
    }
    let Some(digits) = word.strip_prefix(b"hex:".as_slice()) else {
        return Ok(None);
    };
    let Some(block) = read_block(alloc, digits)? else {
        return Ok(None);
    };
    Ok(Some(Payload::Whole(block)))
}

// The block whose bytes digits spell.
fn read_block(alloc: Global, digits: &[u8]) -> Result<Option<Block>, NoMemory>
    ensures some { IfOk result (λ found. IfSome found
        (λ block. IsData (Payload.Whole block) × (digits.now ≡ flat_map hex_byte block))) }
    ensures none { IfOk result (λ found. IfNone found
        ((block : List ℕ) → IsData (Payload.Whole block) → digits.now ≢ flat_map hex_byte block)) }
{
    let mut block = Block::zeros(alloc)?;
    let mut rest = digits;
    for at in 0..BLOCK_LEN {
        if rest.len() < 2 {
            return Ok(None);
        }
        let (pair, after) = rest.split_at(2);
        let Some(byte) = read_byte(pair) else {
            return Ok(None);
        };
        block.copy_from(at, &[byte]);
        rest = after;
    }
    if !rest.is_empty() {
        return Ok(None);
    }
    Ok(Some(block))
}

// The byte that two digits spell.
fn read_byte(text: &[u8]) -> Option<u8>
    ensures some { IfSome result (λ byte. (byte < 256) × (text.now ≡ hex_byte byte)) }
    ensures none { IfNone result ((byte : ℕ) → byte < 256 → text.now ≢ hex_byte byte) }
{
    let [high, low] = text else {
        return None;
    };
    Some(16 * read_digit(*high)? + read_digit(*low)?)
}

// The value of a digit of base 16.
fn read_digit(glyph: u8) -> Option<u8>
    ensures some { IfSome result (λ digit. (digit < 16) × (glyph ≡ hex_digit digit)) }
    ensures none { IfNone result ((digit : ℕ) → digit < 16 → glyph ≢ hex_digit digit) }
{
    match glyph {
        b'0'..=b'9' => Some(glyph - b'0'),
        b'a'..=b'f' => Some(glyph - b'a' + 10),
        _ => None,
    }
}
