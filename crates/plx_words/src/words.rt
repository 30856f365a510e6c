//! The words of a line, one after another.

ghost use Rattle.std.specs.Prelude.{◌≡◌, ◌≢◌, ◌<◌, ◌≤◌, ◌^◌, ◌∷◌, ◌++◌, [], ℕ, List, MatchOption, IfNone, IfSome, decimal};
ghost use Rattle.plx_base.specs.Labels.{IsLabel};
ghost use Rattle.plx_words.specs.Pieces.{label_spelled};
ghost use Rattle.plx_words.specs.Words.{words_of};

use crate::cut::{after, cut};
use crate::number::number;
use plx_base::Label;
use std::marker::Model;

/// The words of a line that are left. A word may be empty, since each space parts two words. What is
/// left after a call that gave `None` is not said.
#[derive(Drop)]
pub struct Words<'a> {
    rest: Option<&'a [u8]>,
}

impl<'a> Model for Words<'a> {
    ghost use Rattle.std.specs.Prelude.{ℕ, List};
    ghost use Rattle.plx_words.specs.Words.{words_left};

    ghost Value = { List (List ℕ) };

    ghost view = { λ w. words_left w.rest };
}

impl<'a> Words<'a> {
    /// The words of a line.
    pub fn of(line: &'a [u8]) -> Words<'a>
        ensures { result ≡ words_of line.now }
    {
        Words { rest: Some(line) }
    }

    /// Takes the next word.
    pub fn next(&mut self) -> Option<&'a [u8]>
        ensures { MatchOption result (self.old ≡ []) (λ word. self.old ≡ word.now ∷ self.new) }
    {
        let text = self.rest?;
        match cut(text, b' ') {
            Some((word, rest)) => {
                self.rest = Some(rest);
                Some(word)
            }
            None => {
                self.rest = None;
                Some(text)
            }
        }
    }

    /// `Some` where no word is left.
    pub fn end(&self) -> Option<()>
        ensures { MatchOption result (self.now ≢ []) (λ _. self.now ≡ []) }
    {
        match self.rest {
            Some(_) => None,
            None => Some(()),
        }
    }

    /// Takes this word.
    pub fn exactly(&mut self, expected: &[u8]) -> Option<()>
        ensures some { IfSome result (λ _. self.old ≡ expected.now ∷ self.new) }
        ensures none { IfNone result ((rest : List (List ℕ)) → self.old ≢ expected.now ∷ rest) }
    {
        if self.next()? == expected {
            return Some(());
        }
        None
    }

    /// Takes the next word, if no other is left.
    pub fn last(&mut self) -> Option<&'a [u8]>
        ensures some { IfSome result (λ word. self.old ≡ word.now ∷ []) }
        ensures none { IfNone result ((word : List ℕ) → self.old ≢ word ∷ []) }
    {
        let word = self.next()?;
        self.end()?;
        Some(word)
    }

    /// Takes a number from the least one to the most.
    pub fn number(&mut self, least: u64, most: u64) -> Option<u64>
        ensures some { IfSome result
            (λ n. (least ≤ n) × (n ≤ most) × (self.old ≡ decimal n ∷ self.new)) }
        ensures none { IfNone result ((n : ℕ) (rest : List (List ℕ)) → least ≤ n → n ≤ most
            → self.old ≢ decimal n ∷ rest) }
    {
        number(self.next()?, least, most)
    }

    /// Takes a number below 2^32.
    pub fn small(&mut self) -> Option<u32>
        ensures some { IfSome result (λ n. (n < 2 ^ 32) × (self.old ≡ decimal n ∷ self.new)) }
        ensures none { IfNone result ((n : ℕ) (rest : List (List ℕ)) → n < 2 ^ 32
            → self.old ≢ decimal n ∷ rest) }
    {
        let value = self.number(0, u64::from(u32::MAX))?;
        Some(value as u32)
    }

    /// Takes a number from the least one to the most, if no other word is left.
    pub fn last_number(&mut self, least: u64, most: u64) -> Option<u64>
        ensures some { IfSome result
            (λ n. (least ≤ n) × (n ≤ most) × (self.old ≡ decimal n ∷ [])) }
        ensures none { IfNone result ((n : ℕ) → least ≤ n → n ≤ most
            → self.old ≢ decimal n ∷ []) }
    {
        number(self.last()?, least, most)
    }

    /// Takes a number below 2^32, if no other word is left.
    pub fn last_small(&mut self) -> Option<u32>
        ensures some { IfSome result (λ n. (n < 2 ^ 32) × (self.old ≡ decimal n ∷ [])) }
        ensures none { IfNone result ((n : ℕ) → n < 2 ^ 32 → self.old ≢ decimal n ∷ []) }
    {
        let value = self.last_number(0, u64::from(u32::MAX))?;
        Some(value as u32)
    }

    /// Takes a name and a number that is at most this.
    pub fn named(&mut self, name: &[u8], most: u64) -> Option<u64>
        ensures some { IfSome result
            (λ n. (n ≤ most) × (self.old ≡ (name.now ++ decimal n) ∷ self.new)) }
        ensures none { IfNone result ((n : ℕ) (rest : List (List ℕ)) → n ≤ most
            → self.old ≢ (name.now ++ decimal n) ∷ rest) }
    {
        let word = self.next()?;
        let digits = after(word, name)?;
        number(digits, 0, most)
    }

    /// Takes a name and a number below 2^32.
    pub fn named_small(&mut self, name: &[u8]) -> Option<u32>
        ensures some { IfSome result
            (λ n. (n < 2 ^ 32) × (self.old ≡ (name.now ++ decimal n) ∷ self.new)) }
        ensures none { IfNone result ((n : ℕ) (rest : List (List ℕ)) → n < 2 ^ 32
            → self.old ≢ (name.now ++ decimal n) ∷ rest) }
    {
        let value = self.named(name, u64::from(u32::MAX))?;
        Some(value as u32)
    }

    /// Takes a name and a label.
    pub fn label(&mut self, name: &[u8]) -> Option<Label>
        ensures some { IfSome result
            (λ label. IsLabel label × (self.old ≡ (name.now ++ label_spelled label) ∷ self.new)) }
        ensures none { IfNone result ((label : List ℕ) (rest : List (List ℕ)) → IsLabel label
            → self.old ≢ (name.now ++ label_spelled label) ∷ rest) }
    {
        let word = self.next()?;
        let bytes = after(word, name)?;
        read_label(bytes)
    }
}

// The label that a word spells.
fn read_label(word: &[u8]) -> Option<Label>
    ensures some { IfSome result (λ label. IsLabel label × (word.now ≡ label_spelled label)) }
    ensures none { IfNone result
        ((label : List ℕ) → IsLabel label → word.now ≢ label_spelled label) }
{
    if word == b"-".as_slice() {
        return Some(Label::empty());
    }
    if word.is_empty() {
        return None;
    }
    Label::new(word)
}
