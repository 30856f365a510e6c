//! The lines of a text, one after another.

ghost use Rattle.std.specs.Prelude.{◌≡◌, ◌+◌, ◌<◌, ◌^◌, ◌≤◌, [], ◌∷◌, length, MatchOption, IfNone, IfSome};
ghost use Rattle.plx_words.specs.Files.{count_left, is_skipped, lines_left, unended_text};

use crate::cut::cut;

/// What is left of a text, and how many lines were taken of it, skipped ones included.
#[derive(Clone, Copy)]
pub struct Lines<'a> {
    /// The bytes that are left. Once no line is left, they are those after the last line feed.
    pub rest: &'a [u8],
    /// The number of the line that was taken last, counted from 1; 0 before the first.
    pub number: u64,
}

/// A line that isn't skipped.
#[derive(Clone, Copy)]
pub struct Line<'a> {
    /// Its number, counted from 1. Skipped lines count.
    pub number: u64,
    /// Its bytes, without the line feed.
    pub text: &'a [u8],
}

impl<'a> Lines<'a> {
    /// The lines of a text.
    pub fn of(text: &'a [u8]) -> Lines<'a>
        ensures { (result.rest.now ≡ text.now) × (result.number ≡ 0) }
    {
        Lines {
            rest: text,
            number: 0,
        }
    }

    /// Takes the next line that isn't skipped: one that is empty or begins with `#` is.
    pub fn next(&mut self) -> Option<Line<'a>>
        requires { self.old.number + length self.old.rest.now + 1 < 2 ^ 64 }

        ensures line { MatchOption result (lines_left self.old.number self.old.rest.now ≡ [])
            (λ line. lines_left self.old.number self.old.rest.now
            ≡ (line.number, line.text.now) ∷ lines_left self.new.number self.new.rest.now) }
        ensures end { IfNone result ((unended_text self.new.rest.now ≡ self.new.rest.now)
            × (count_left self.new.number self.new.rest.now ≡ self.new.number)) }

        // What the taking of lines leaves as it is, and that it comes to an end.
        ensures count { count_left self.new.number self.new.rest.now
            ≡ count_left self.old.number self.old.rest.now }
        ensures left { unended_text self.new.rest.now ≡ unended_text self.old.rest.now }
        ensures shorter { IfSome result (λ _. length self.new.rest.now < length self.old.rest.now) }
        ensures room { self.new.number + length self.new.rest.now
            ≤ self.old.number + length self.old.rest.now }
    {
        while let Some((text, rest)) = cut(self.rest, b'\n') {
            self.rest = rest;
            self.number += 1;
            if !is_skipped(text) {
                let number = self.number;
                return Some(Line { number, text });
            }
        }
        None
    }
}

fn is_skipped(line: &[u8]) -> bool
    ensures { result ≡ is_skipped line.now }
{
    match line {
        [] => true,
        [first, ..] => *first == b'#',
    }
}
