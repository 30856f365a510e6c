//! Reading a source to its end.
ghost use Rattle.std.specs.Prelude.{◌≡◌, ◌≢◌, ◌≤◌, ◌<◌, ◌+◌, ◌-◌, ◌^◌, ℕ, IfOk, IfErr, IsErrOf, OnOk, OnErr, length, take, drop, vec_len};
ghost use Rattle.std.specs.Io.KnownBytes.{Consumes, IsAtEnd, Keeps};
ghost use Rattle.plx_port.specs.Faults.{Rose};
ghost use Rattle.plx_port.specs.Streams.{ReadsToEnd, TakesCount};
ghost use Rattle.plx_port.specs.declared.reading.ReadError.TheVariants as variant;

use crate::{Failed, Source};
use std::alloc::{AllocError, Global};

/// The most bytes that are asked for at a time.
const CHUNK: usize = 64 * 1024;

/// Why a source was not read to its end.
#[derive(Clone, Copy, PartialEq, Eq)]
pub enum ReadError {
    /// The source failed.
    Failed,
    /// Memory ran out.
    NoMemory,
    /// The source has more bytes than the limit.
    TooLong,
}

impl From<Failed> for ReadError {
    ghost from_gives = { λ _ e. e ≡ variant.Failed };

    fn from(_: Failed) -> ReadError {
        ReadError::Failed
    }
}

impl From<AllocError> for ReadError {
    ghost from_gives = { λ _ e. e ≡ variant.NoMemory };

    fn from(_: AllocError) -> ReadError {
        ReadError::NoMemory
    }
}

/// Reads a source to its end, if that comes after at most `limit` bytes.
pub fn read_all<S: Source>(
    alloc: Global,
    source: &mut S,
    limit: usize,
) -> Result<Vec<u8>, ReadError>
    requires { limit < 2 ^ 64 - 1 }

    ensures ok { IfOk result (λ bytes. ReadsToEnd (S.left source.old)
        (S.left source.new) bytes.items) }
    ensures short { IfOk result (λ bytes. length bytes.items ≤ limit) }

    // Too long is answered exactly where one byte more than the limit was taken.
    ensures long { IsErrOf result ReadError.TooLong
        → TakesCount (S.left source.old) (S.left source.new) (limit + 1) }
    ensures stopped { IfErr result (λ e. e ≢ ReadError.TooLong
        → (n : ℕ) × (n ≤ limit) × TakesCount (S.left source.old) (S.left source.new) n) }

    ensures faults { S.faults source.old ≤ S.faults source.new }
    ensures failed { IsErrOf result ReadError.Failed
        → Rose (S.faults source.old) (S.faults source.new) }
{
    let mut bytes = Vec::new(alloc);
    let mut filled = 0;
    while filled <= limit {
        make_room(&mut bytes, filled, limit)?;
        let count = read_at(source, &mut bytes, filled)?;
        if count == 0 {
            bytes.truncate(filled);
            return Ok(bytes);
        }
        filled += count;
    }
    Err(ReadError::TooLong)
}

// Makes the buffer longer than what is filled, and no longer than one byte more than the limit.
fn make_room(bytes: &mut Vec<u8>, filled: usize, limit: usize) -> Result<(), AllocError>
    requires fits { limit < 2 ^ 64 - 1 }
    requires open { filled ≤ limit }
    requires filled { filled ≤ vec_len bytes.old }
    requires within { vec_len bytes.old ≤ limit + 1 }

    ensures room { OnOk result (filled < vec_len bytes.new) }
    ensures within { vec_len bytes.new ≤ limit + 1 }
    ensures front { take filled bytes.new.items ≡ take filled bytes.old.items }
{
    if filled < bytes.len() {
        return Ok(());
    }
    let more = CHUNK.min(limit + 1 - filled);
    bytes.resize(filled + more, 0)
}

// One read into the buffer's part that isn't filled.
fn read_at<S: Source>(source: &mut S, buffer: &mut [u8], at: usize) -> Result<usize, Failed>
    requires { at < length buffer.old }

    ensures count { IfOk result (λ n. at + n ≤ length buffer.new) }
    ensures front { take at buffer.new ≡ take at buffer.old }
    ensures given { IfOk result (λ n. Consumes (S.left source.old) (S.left source.new)
        (take n (drop at buffer.new))) }
    ensures end { IfOk result (λ n. n ≡ 0 → IsAtEnd (S.left source.old)) }
    ensures kept { OnErr result (Keeps (S.left source.old) (S.left source.new)) }

    ensures faults { S.faults source.old ≤ S.faults source.new }
    ensures failed { OnErr result (Rose (S.faults source.old) (S.faults source.new)) }
{
    source.read(&mut buffer[at..])
}
