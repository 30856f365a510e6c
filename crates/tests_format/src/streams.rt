//! Streams that are interrupted, give little, take nothing or fail.
use plx_port::{ReadError, ReadSource, WriteSink, read_all, write_all};
use std::alloc::Global;
use std::io;
use std::io::{BufReader, ErrorKind, Read, Write};

/// What one call of a stream does.
#[derive(Clone, Copy)]
enum Step {
    Interrupt,
    Fail,
    /// It gives or takes at most so many bytes.
    Move(usize),
}

/// A stream whose calls do one step after another. After the last it gives and takes nothing.
#[derive(Drop)]
struct Script {
    steps: &'static [Step],
    at: usize,
    taken: Vec<u8>,
}

impl Script {
    fn next(&mut self) -> io::Result<usize> {
        let step = self.steps.get(self.at).copied();
        self.at = self.at.saturating_add(1);
        match step {
            Some(Step::Interrupt) => Err(io::Error::from(ErrorKind::Interrupted)),
            Some(Step::Fail) => Err(io::Error::from(ErrorKind::BrokenPipe)),
            Some(Step::Move(count)) => Ok(count),
            None => Ok(0),
        }
    }
}

impl Read for Script {
    fn read(&mut self, into: &mut [u8]) -> io::Result<usize> {
        let count = self.next()?.min(into.len());
        into[..count].fill(b'a');
        Ok(count)
    }
}

impl Write for Script {
    fn write(&mut self, bytes: &[u8]) -> io::Result<usize> {
        let count = self.next()?.min(bytes.len());
        self.taken.extend_from_slice(&bytes[..count])?;
        Ok(count)
    }

    fn flush(&mut self) -> io::Result<()> {
        Ok(())
    }
}

/// A stream whose calls do these steps.
fn doing(alloc: Global, steps: &'static [Step]) -> Script {
    Script {
        steps,
        at: 0,
        taken: Vec::new(alloc),
    }
}

const INTERRUPTED: &[Step] = &[
    Step::Interrupt,
    Step::Interrupt,
    Step::Move(1),
    Step::Interrupt,
    Step::Interrupt,
    Step::Move(2),
    Step::Fail,
    Step::Move(1),
];

const LITTLE: &[Step] = &[
    Step::Move(1),
    Step::Interrupt,
    Step::Interrupt,
    Step::Move(3),
    Step::Move(1),
];

/// Whether a reader of these steps, in pieces of at most `capacity` bytes, gives these bytes up to
/// its end, once it has failed or at once.
fn reads(
    alloc: Global,
    (steps, capacity): (&'static [Step], usize),
    (fails_first, bytes): (bool, &[u8]),
) -> bool {
    let Ok(reader) = BufReader::with_capacity(alloc, capacity, doing(alloc, steps)) else {
        return false;
    };
    let mut source = ReadSource::new(reader);
    if fails_first && read_all(alloc, &mut source, 9).err() != Some(ReadError::Failed) {
        return false;
    }
    match read_all(alloc, &mut source, 9) {
        Ok(found) => found.as_slice() == bytes,
        Err(_) => false,
    }
}

#[test]
fn a_reader_is_read_through_interrupts_and_after_a_fault(rt: HostRuntime) {
    assert!(rt;
        reads(rt.alloc(), (INTERRUPTED, 4), (true, b"a")),
        "interrupts"
    );
    assert!(rt; reads(rt.alloc(), (LITTLE, 2), (false, b"aaaa")), "little");
}

const TAKING: &[Step] = &[
    Step::Interrupt,
    Step::Interrupt,
    Step::Move(1),
    Step::Move(2),
    Step::Fail,
    Step::Move(9),
    Step::Move(0),
];

/// Bytes, and whether their writing takes them all. It fails else.
const WRITES: &[(&[u8], bool)] = &[(b"hello", false), (b"lo", true), (b"you", false)];

/// Whether all steps are done, by which `hello` was taken.
fn has_taken(writer: &Script) -> bool {
    writer.taken.as_slice() == b"hello".as_slice() && writer.at == 7
}

#[test]
fn a_writer_is_given_what_it_has_not_taken(rt: HostRuntime) {
    let mut writer = doing(rt.alloc(), TAKING);
    let mut sink = WriteSink::new(&mut writer);
    for (case, &(bytes, is_taken)) in WRITES.iter().enumerate() {
        assert!(rt; write_all(&mut sink, bytes).is_ok() == is_taken, "{case}");
    }
    assert!(rt; has_taken(&writer), "what is taken");
}
