//! A run of the top call in memory, and schedules with the traces that they are to give.
use plx_cli::{MemSink, MemSource, Status, run};
use std::alloc::{AllocError, Global};
use std::process::Abort;

/// What a run gave: its status, and what it wrote.
#[derive(Drop)]
struct Outcome {
    status: Status,
    sink: MemSink,
}

impl Outcome {
    /// What was written; nothing where that is no text.
    fn written(&self) -> &str {
        str::from_utf8(self.sink.held()).unwrap_or("")
    }

    /// The run ended so, and wrote this.
    fn is(&self, rt: &impl Abort, status: Status, written: &str) {
        let found = self.written();
        assert!(rt; self.status == status && found == written, "{found}");
    }

    /// The run is done, and wrote the lines of a trace that the story has.
    fn is_told(&self, rt: &impl Abort, story: &str) {
        let is_told = self.status == Status::Done && is_trace(self.sink.held(), story);
        assert!(rt; is_told, "{}", self.written());
    }
}

/// The streams of a run: the input, how many bytes each call gives or takes at most, and the numbers of
/// the calls that fail.
#[derive(Clone, Copy)]
pub(crate) struct Streams<'a> {
    pub(crate) input: &'a [u8],
    pub(crate) gives: usize,
    pub(crate) takes: usize,
    pub(crate) failed_reads: &'a [u64],
    pub(crate) failed_writes: &'a [u64],
}

impl<'a> Streams<'a> {
    /// An input, where no call fails.
    pub(crate) fn of(input: &'a [u8]) -> Streams<'a> {
        Streams {
            input,
            gives: 4096,
            takes: 4096,
            failed_reads: &[],
            failed_writes: &[],
        }
    }

    fn source(&self, alloc: Global) -> Result<MemSource, AllocError> {
        let failed = Vec::from_slice(alloc, self.failed_reads)?;
        let input = Vec::from_slice(alloc, self.input)?;
        Ok(MemSource::new(input, self.gives.max(1), failed))
    }

    fn sink(&self, alloc: Global) -> Result<MemSink, AllocError> {
        let failed = Vec::from_slice(alloc, self.failed_writes)?;
        MemSink::new(alloc, self.takes.max(1), 1 << 24, failed)
    }
}

/// These words.
fn words(alloc: Global, given: &[&str]) -> Result<Vec<String>, AllocError> {
    let mut words = Vec::new(alloc);
    for word in given {
        words.push(String::from_str(alloc, word)?)?;
    }
    Ok(words)
}

/// A run with these words between the streams.
fn run_with(rt: &impl Abort, alloc: Global, given: &[&str], streams: Streams) -> Outcome {
    let words = words(alloc, given).expect(rt, "memory");
    let mut source = streams.source(alloc).expect(rt, "memory");
    let mut sink = streams.sink(alloc).expect(rt, "memory");
    let status = run(alloc, &words, &mut source, &mut sink);
    Outcome { status, sink }
}

/// The words that play the schedule of the input.
pub(crate) const REPLAY: &[&str] = &["plx", "replay"];

/// A run with these words between the streams ends so, and writes this.
pub(crate) fn ends(
    rt: &impl Abort,
    alloc: Global,
    given: &[&str],
    streams: Streams,
    (status, written): (Status, &str),
) {
    run_with(rt, alloc, given, streams).is(rt, status, written);
}

/// A story: the parts of a schedule, the first of which has the world. A comment `#> ..` has a line of the trace,
/// which has the world, the starts and the crashes too.
pub(crate) type Story = &'static [&'static str];

/// Appliance 0 attaches slot 0, which is free, and makes an image of eight blocks there, named `a`.
/// It takes 601 ms.
pub(crate) const OPEN: &str = "start 0 attach 0
run 0
tick 601
run 0
#> reply 0 attached live=0 gen=0 size=0 writes=0 taken=0 dropped=0 label=-
start 0 create 0 8 a
run 0
#> reply 0 created
";

/// No block of the pool is allocated at the end.
pub(crate) const END: &str = "#> end reachable=0 allocated=0\n";

/// Each of these stories has a schedule that gives its trace.
pub(crate) fn plays_each(rt: &impl Abort, alloc: Global, stories: &[Story]) {
    for parts in stories {
        plays(rt, alloc, parts);
    }
}

/// The story of these parts has.
pub(crate) fn plays(rt: &impl Abort, alloc: Global, parts: &[&str]) {
    let story = parts.concat(alloc).expect(rt, "memory");
    tells(rt, alloc, story.as_str(), 4096);
}

/// The story has a schedule that gives its trace, where each call of the streams gives or takes at most `piece`
/// bytes.
pub(crate) fn tells(rt: &impl Abort, alloc: Global, story: &str, piece: usize) {
    let streams = Streams {
        gives: piece,
        takes: piece,
        ..Streams::of(story.as_bytes())
    };
    run_with(rt, alloc, REPLAY, streams).is_told(rt, story);
}

/// Whether the trace has the lines that the story has, and no other.
fn is_trace(trace: &[u8], story: &str) -> bool {
    let mut rest = trace;
    for line in story.lines() {
        if let Some(told) = told(line) {
            let Some(left) = after(rest, told) else {
                return false;
            };
            rest = left;
        }
    }
    rest.is_empty()
}

/// What stands in the trace after this line, where it begins with it.
fn after<'a>(trace: &'a [u8], line: &str) -> Option<&'a [u8]> {
    trace.strip_prefix(line.as_bytes())?.strip_prefix(b"\n")
}

/// The line of the trace that stands in this line of a story, if one does.
fn told(line: &str) -> Option<&str> {
    if line.starts_with("world ") || line.starts_with("start ") || line.starts_with("crash ") {
        return Some(line);
    }
    line.strip_prefix("#> ")
}
