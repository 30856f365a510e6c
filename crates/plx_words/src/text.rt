//! Texts that are being written.
ghost use Rattle.std.specs.Prelude.{◌≡◌, ◌++◌, ◌∷◌, [], OnOk, decimal, map};
ghost use Rattle.plx_base.specs.Labels.{IsLabel};
ghost use Rattle.plx_words.specs.Pieces.{Tells, label_spelled, piece_text, word};
ghost use Rattle.plx_words.specs.Written.{AddsLine, AddsWords, piece_of};

use crate::print_data::push_data;
use itoa::Buffer;
use plx_base::{Label, NoMemory, Payload};
use std::alloc::Global;
use std::marker::Model;

/// One word of a line that is written.
#[derive(Clone, Copy)]
pub enum Word<'a> {
    /// The word itself.
    Plain(&'a [u8]),
    Number(u64),
    Small(u32),
    /// A name and a number.
    Named(&'a [u8], u64),
    NamedSmall(&'a [u8], u32),
    /// A name and a number below 2^128.
    NamedWide(&'a [u8], u128),
    /// A name and 1 or 0.
    Flag(&'a [u8], bool),
    /// A name and a label, or a hyphen where the label is empty.
    Label(&'a [u8], &'a Label),
    /// The bytes of a block: one byte where all are equal, else all of them.
    Data(&'a Payload),
}

/// A text, as bytes.
#[derive(Drop)]
pub struct Text {
    bytes: Vec<u8>,
}

impl Model for Text {
    ghost use Rattle.std.specs.Prelude.{ℕ, List};

    ghost Value = { List ℕ };

    ghost view = { λ text. text.bytes.items };
}

// What stands in a text after want of memory is not said.
impl Text {
    /// A text without a byte.
    pub fn new(alloc: Global) -> Text
        ensures { result ≡ [] }
    {
        Text {
            bytes: Vec::new(alloc),
        }
    }

    /// The text's bytes.
    pub fn as_slice(&self) -> &[u8]
        ensures { result.now ≡ self.now }
    {
        self.bytes.as_slice()
    }

    /// A line at the end, by its words.
    pub fn line(&mut self, first: &[u8], others: &[Word]) -> Result<(), NoMemory>
        ensures { OnOk result
            (AddsLine self.old self.new (word first.now ∷ map piece_of others.now)) }
    {
        self.begin(first)?;
        self.words(others)?;
        self.end()
    }

    /// The first word of a line, which goes on with `words` and ends by `end`.
    pub fn begin(&mut self, first: &[u8]) -> Result<(), NoMemory>
        ensures { OnOk result (self.new ≡ self.old ++ first.now) }
    {
        self.push(first)
    }

    /// Words at the end, each after a space.
    pub fn words(&mut self, words: &[Word]) -> Result<(), NoMemory>
        ensures { OnOk result (AddsWords self.old self.new (map piece_of words.now)) }
    {
        for word in words {
            self.push(b" ")?;
            self.word(word)?;
        }
        Ok(())
    }

    /// The end of a line: a line feed.
    pub fn end(&mut self) -> Result<(), NoMemory>
        ensures { OnOk result (self.new ≡ self.old ++ 10 ∷ []) }
    {
        self.push(b"\n")
    }

    // These bytes at the end.
    pub(crate) fn push(&mut self, bytes: &[u8]) -> Result<(), NoMemory>
        ensures { OnOk result (self.new ≡ self.old ++ bytes.now) }
    {
        self.bytes.extend_from_slice(bytes)?;
        Ok(())
    }

    fn word(&mut self, word: &Word) -> Result<(), NoMemory>
        ensures text { OnOk result (self.new ≡ self.old ++ piece_text (piece_of word.now)) }
        ensures tells { OnOk result (Tells (piece_of word.now)) }
    {
        match word {
            Word::Plain(letters) => self.push(letters),
            Word::Number(number) => self.push_number(*number),
            Word::Small(number) => self.push_number(u64::from(*number)),
            Word::Named(name, number) => self.push_field(name, *number),
            Word::NamedSmall(name, number) => self.push_field(name, u64::from(*number)),
            Word::NamedWide(name, number) => self.push_wide_field(name, *number),
            Word::Flag(name, flag) => self.push_field(name, u64::from(*flag)),
            Word::Label(name, label) => self.push_label(name, label),
            Word::Data(payload) => push_data(self, payload),
        }
    }

    // The digits of a number at the end.
    fn push_number(&mut self, number: u64) -> Result<(), NoMemory>
        ensures { OnOk result (self.new ≡ self.old ++ decimal number) }
    {
        let mut buffer = Buffer::new();
        self.push(buffer.format(number).as_bytes())
    }

    // A name and the digits of a number at the end.
    fn push_field(&mut self, name: &[u8], number: u64) -> Result<(), NoMemory>
        ensures { OnOk result (self.new ≡ self.old ++ (name.now ++ decimal number)) }
    {
        self.push(name)?;
        self.push_number(number)
    }

    // The same of a number below 2^128.
    fn push_wide_field(&mut self, name: &[u8], number: u128) -> Result<(), NoMemory>
        ensures { OnOk result (self.new ≡ self.old ++ (name.now ++ decimal number)) }
    {
        self.push(name)?;
        let mut buffer = Buffer::new();
        self.push(buffer.format(number).as_bytes())
    }

    // A name and a label at the end.
    fn push_label(&mut self, name: &[u8], label: &Label) -> Result<(), NoMemory>
        ensures text { OnOk result
            (self.new ≡ self.old ++ (name.now ++ label_spelled label.now)) }
        ensures fits { OnOk result (IsLabel label.now) }
    {
        self.push(name)?;
        let bytes = label.as_slice();
        if bytes.is_empty() {
            return self.push(b"-");
        }
        self.push(bytes)
    }
}
