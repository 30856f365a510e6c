//! How a run of the program ends: its status, and what it wrote.
use crate::program::{REPLAY, Streams, ends};
use plx_cli::Status;

/// A world without events, and its trace.
const WORLD: &str = "world 1 1 16 2 1\n";

const WORLD_TRACE: &str = "world 1 1 16 2 1\nend reachable=0 allocated=0\n";

/// Words that are not known.
const WORDS: &[&[&str]] = &[
    &["plx"],
    &["plx", "replay", "x"],
    &["plx", "replay", "--"],
    &["plx", "reply"],
    &["plx", "Replay"],
    &["plx", "check"],
    &["plx", ""],
];

#[test]
fn words_that_are_not_known_are_refused(rt: HostRuntime) {
    for words in WORDS {
        let streams = Streams::of(WORLD.as_bytes());
        ends(&rt, rt.alloc(), words, streams, (Status::Usage, ""));
    }
}

/// Inputs, their status, and what is written: a bad line is told alone, and a world without events has a
/// trace.
const INPUTS: &[(&str, Status, &str)] = &[
    ("world 1 1 16 2 1\ntick 5", Status::BadLine, "bad line 2\n"),
    ("", Status::BadLine, "bad line 1\n"),
    ("world 0 1 16 2 1\n", Status::BadLine, "bad line 1\n"),
    (
        "world 1 1 16 2 1\nstart 0 attach 0\nrun 0\nrun\n",
        Status::BadLine,
        "bad line 4\n",
    ),
    ("#\n\n", Status::BadLine, "bad line 3\n"),
    (WORLD, Status::Done, WORLD_TRACE),
    (
        "\n# all limits\nworld 256 512 32768 64 8\n",
        Status::Done,
        "world 256 512 32768 64 8\nend reachable=0 allocated=0\n",
    ),
];

#[test]
fn an_input_has_a_status_and_a_text(rt: HostRuntime) {
    for &(input, status, text) in INPUTS {
        let streams = Streams::of(input.as_bytes());
        ends(&rt, rt.alloc(), REPLAY, streams, (status, text));
    }
}

#[test]
fn a_source_that_fails_at_any_call_gives_nothing(rt: HostRuntime) {
    for call in 0..18 {
        let streams = Streams {
            gives: 1,
            failed_reads: &[call],
            ..Streams::of(WORLD.as_bytes())
        };
        ends(&rt, rt.alloc(), REPLAY, streams, (Status::SourceFault, ""));
    }
}

#[test]
fn a_sink_that_fails_at_any_call_holds_a_front_of_the_trace(rt: HostRuntime) {
    for call in 0..45usize {
        let streams = Streams {
            takes: 1,
            failed_writes: &[call as u64],
            ..Streams::of(WORLD.as_bytes())
        };
        let front = WORLD_TRACE.get(..call).unwrap_or(WORLD_TRACE);
        ends(&rt, rt.alloc(), REPLAY, streams, (Status::SinkFault, front));
    }
}
