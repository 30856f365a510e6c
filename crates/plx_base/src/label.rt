//! Labels of images.
ghost use Rattle.std.specs.Prelude.{◌≡◌, ◌≤◌, ◌↔◌, List, [], length, IsSome, IfSome};
ghost use Rattle.plx_base.specs.Labels.{IsLabel, is_label_byte};

use arrayvec::ArrayVec;
use std::marker::Model;

/// The most bytes that a label has.
const LABEL_LEN: usize = 32;

/// A label: 0 to 32 printable bytes without a blank, and not a lone `-`.
#[derive(Drop)]
pub struct Label {
    bytes: ArrayVec<u8, LABEL_LEN>,
}

impl Model for Label {
    ghost use Rattle.std.specs.Prelude.{ℕ, List};
    ghost use Rattle.plx_base.specs.Labels.{IsLabel};

    ghost Value = { List ℕ };

    ghost view = { λ l. l.bytes.items };

    ghost invariant = { λ l. IsLabel l.bytes.items };
}

impl Label {
    /// The label of these bytes.
    pub fn new(bytes: &[u8]) -> Option<Label>
        ensures label { IsSome result ↔ IsLabel bytes.now }
        ensures same { IfSome result (λ l. l ≡ bytes.now) }
    {
        if bytes.len() > LABEL_LEN {
            return None;
        }
        if !bytes.iter().all(|byte| is_allowed(*byte)) {
            return None;
        }
        if bytes == b"-".as_slice() {
            return None;
        }
        Some(Label { bytes: kept(bytes) })
    }

    /// The label without a byte.
    pub fn empty() -> Label
        ensures { result ≡ [] }
    {
        Label {
            bytes: ArrayVec::new(),
        }
    }

    /// The label's bytes.
    pub fn as_slice(&self) -> &[u8]
        ensures same { result.now ≡ self.now }
        ensures label { IsLabel self.now }
    {
        self.bytes.as_slice()
    }

    /// An equal label.
    pub fn copy(&self) -> Label
        ensures { result ≡ self.now }
    {
        Label {
            bytes: kept(self.bytes.as_slice()),
        }
    }
}

fn is_allowed(byte: u8) -> bool
    ensures { result ≡ is_label_byte byte }
{
    0x21 <= byte && byte <= 0x7e
}

// The bytes in a list of their own.
fn kept(bytes: &[u8]) -> ArrayVec<u8, LABEL_LEN>
    requires { length bytes.now ≤ 32 }
    ensures { result.items ≡ bytes.now }
{
    let mut items = ArrayVec::new();
    match items.try_extend_from_slice(bytes) {
        Ok(()) => items,
        Err(_) => unreachable!(),
    }
}
