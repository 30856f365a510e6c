//! The bits of a block, by words of 64 bits.
ghost use Rattle.std.specs.Prelude.{◌≡◌, ◌↔◌, ◌≤◌, ◌<◌, ◌+◌, ◌/◌, ◌==◌, ◌&&◌, ℕ, List, Bool, length, IsTrue, true, false, count_by};
ghost use Rattle.std.specs.Int.{bit_at};
ghost use Rattle.plx_extent.specs.Maps.{bit_of, bits_of, is_kept, kept_map, map_bytes};

use crate::marks::MarkSet;
use plx_base::{are_all, get_u64, put_u64};

/// The words of a block.
const WORDS: u32 = 512;

// Whether each bit from that one on is clear.
pub(crate) fn is_clear_from(bytes: &[u8], from: usize) -> bool
    requires { from / 8 ≤ length bytes.now }
    ensures { IsTrue result ↔ ((bit : ℕ) → from ≤ bit → bit_of bytes.now bit ≡ false) }
{
    let byte = from / 8;
    if byte == bytes.len() {
        return true;
    }
    bytes[byte] >> (from % 8) == 0 && are_all(&bytes[byte + 1..], 0)
}

// The least bit of a block that is clear, or how many it has.
pub(crate) fn first_clear(bytes: &[u8]) -> u32
    requires { length bytes.now ≡ 4096 }
    ensures set { (bit : ℕ) → bit < result → bit_of bytes.now bit ≡ true }
    ensures clear { result < 32768 → bit_of bytes.now result ≡ false }
    ensures high { result ≤ 32768 }
{
    for index in 0..WORDS {
        let word = get_u64(bytes, 8 * index as usize);
        if word != u64::MAX {
            return 64 * index + word.trailing_ones();
        }
    }
    64 * WORDS
}

// How many bits of a block are set.
pub(crate) fn count_set(bytes: &[u8]) -> u32
    requires { length bytes.now ≡ 4096 }
    ensures { result ≡ count_by (λ bit. bit) (bits_of 32768 bytes.now) }
{
    let mut set = 0;
    for index in 0..WORDS {
        set += get_u64(bytes, 8 * index as usize).count_ones();
    }
    set
}

// Clears each bit of a map that isn't marked, but for bit 0.
pub(crate) fn keep_marked<M: MarkSet>(bytes: &mut [u8], marks: &M)
    requires { length bytes.old ≡ 4096 }
    ensures { (bits : List Bool) → length bits ≤ 32768 → bytes.old ≡ map_bytes bits
        → bytes.new ≡ map_bytes (kept_map (M.is_marked marks.now) bits) }
{
    for index in 0..WORDS {
        let at = 8 * index as usize;
        let word = get_u64(bytes, at);
        put_u64(bytes, at, kept_word(word, 64 * index, marks));
    }
}

// A word of which each bit is cleared that isn't marked, but for bit 0. Its bits are counted from
// `first` on.
fn kept_word<M: MarkSet>(word: u64, first: u32, marks: &M) -> u64
    requires { first + 64 ≤ 32768 }
    ensures { (bit : ℕ) → bit < 64
        → (bit_at result bit == 1)
        ≡ ((bit_at word bit == 1) && is_kept (M.is_marked marks.now) (first + bit)) }
{
    if word == 0 {
        return 0;
    }
    let mut kept = word;
    for at in 0..64 {
        let bit = 1 << at;
        if word & bit != 0 && !stays_set(first + at, marks) {
            kept &= !bit;
        }
    }
    kept
}

// Whether a bit stays set: it is marked, or bit 0.
fn stays_set<M: MarkSet>(bit: u32, marks: &M) -> bool
    ensures { result ≡ is_kept (M.is_marked marks.now) bit }
{
    bit == 0 || marks.has(bit)
}
