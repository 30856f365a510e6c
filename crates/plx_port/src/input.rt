//! A source over a reader of the standard library, such as standard input.
ghost use Rattle.std.specs.Prelude.{◌≡◌, ◌≤◌, MatchResult, IfOk, length, drop};
ghost use Rattle.plx_port.specs.Adapters.{source_over};
ghost use Rattle.plx_port.specs.Streams.{Gives};

use crate::{Failed, Source};
use std::io::{BufRead, ErrorKind};

/// A source that gives what a buffered reader gives, and tells what is left where the reader does.
/// Standard input, of which nothing is known, tells nothing. Give its reader a large buffer.
#[derive(Drop)]
pub struct ReadSource<B> {
    reader: B,
    faults: u64,
}

impl<B: BufRead> ReadSource<B> {
    /// A source over a reader, which has not failed.
    pub fn new(reader: B) -> ReadSource<B>
        ensures { result ≡ source_over reader }
    {
        ReadSource { reader, faults: 0 }
    }
}

impl<B: BufRead> Source for ReadSource<B> {
    ghost faults = { λ s. s.faults };

    ghost left = { λ s. B.remaining s.reader };

    fn read(&mut self, into: &mut [u8]) -> Result<usize, Failed> {
        match read_once(&mut self.reader, into) {
            Ok(count) => Ok(count),
            Err(Failed) => {
                self.faults = self.faults.saturating_add(1);
                Err(Failed)
            }
        }
    }
}

// One read, made again where a signal interrupted it.
fn read_once<B: BufRead>(reader: &mut B, into: &mut [u8]) -> Result<usize, Failed>
    ensures count { IfOk result (λ n. n ≤ length into.old) }
    ensures given { Gives (B.remaining reader.old) (B.remaining reader.new) result into.new }
    ensures rest { MatchResult result (λ n. drop n into.new ≡ drop n into.old)
        (λ _. into.new ≡ into.old) }
{
    for _ in 0..u64::MAX {
        match take_front(reader, into) {
            Ok(count) => return Ok(count),
            Err(error) => {
                if error.kind() != ErrorKind::Interrupted {
                    return Err(Failed);
                }
            }
        }
    }
    Err(Failed)
}

// Takes the first bytes that the reader shows.
fn take_front<B: BufRead>(reader: &mut B, into: &mut [u8]) -> std::io::Result<usize>
    ensures count { IfOk result (λ n. n ≤ length into.old) }
    ensures given { Gives (B.remaining reader.old) (B.remaining reader.new) result into.new }
    ensures rest { MatchResult result (λ n. drop n into.new ≡ drop n into.old)
        (λ _. into.new ≡ into.old) }
{
    let shown = reader.fill_buf()?;
    let count = into.len().min(shown.len());
    into[..count].copy_from_slice(&shown[..count]);
    reader.consume(count);
    Ok(count)
}
