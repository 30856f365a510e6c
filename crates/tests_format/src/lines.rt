//! Schedules that are read, line by line, and lines that are refused.
use crate::devices::GREATEST;
use plx_base::{NoMemory, Payload};
use plx_commands::{Command, Event};
use plx_text::{Schedule, TextError, read_schedule};
use plx_words::Words;
use std::alloc::Global;
use std::process::Abort;

/// Whether this line of the text is the first one that is bad, or none is where it is 0.
fn is_first_bad(alloc: Global, text: &[u8], line: u64) -> bool {
    let wanted = match line {
        0 => None,
        _ => Some(TextError::BadLine { line }),
    };
    read_schedule(alloc, text).err() == wanted
}

/// Whether the text of a case is read, or refused at the line that stands before it.
fn is_case(alloc: Global, case: &str) -> bool {
    let (line, text) = case.split_once(':').unwrap_or(("", case));
    is_first_bad(alloc, text.as_bytes(), line.parse().unwrap_or(u64::MAX))
}

/// Each case, which a bar ends, is the number of a text's first line that is bad, or 0 where there
/// is none, a colon, and the text.
fn are_read(rt: &impl Abort, alloc: Global, cases: &str) {
    for case in cases.split_terminator('|') {
        assert!(rt; is_case(alloc, case), "{case}");
    }
}

/// Texts with the numbers of their first bad lines.
macro_rules! texts {
    ($(($line:literal, $text:literal),)*) => {
        concat!($($line, ":", $text, "|",)*)
    };
}

/// Worlds outside their limits.
const WORLDS: &str = texts![
    (1, "world 0 1 16 2 1\n"),
    (1, "world 257 1 16 2 1\n"),
    (1, "world 1 0 16 2 1\n"),
    (1, "world 1 513 16 2 1\n"),
    (1, "world 1 1 15 2 1\n"),
    (1, "world 1 1 32769 2 1\n"),
    (1, "world 1 1 16 1 1\n"),
    (1, "world 1 1 16 65 1\n"),
    (1, "world 1 1 16 2 0\n"),
    (1, "world 1 1 16 2 9\n"),
    (1, "world 1 1 16 2\n"),
    (1, "world 1 1 16 2 1 1\n"),
    (1, "world 01 1 16 2 1\n"),
    (1, "worlds 1 1 16 2 1\n"),
    (1, "run 0\n"),
    (1, "world 1 1 16 2 1"),
];

/// Lines that are skipped, which count, and texts without an end.
const SKIPPED: &str = texts![
    (0, "# a comment\n\nworld 1 1 16 2 1\n"),
    (0, "world 1 1 16 2 1\n#\n\n#start 0 attach 0\n"),
    (3, "# a comment\nworld 1 1 16 2 1\ntick 0\n"),
    (3, "\n\nworld 1 1 16 65 1\n"),
    (2, "#\nrun 0\n"),
    (5, "world 1 1 16 2 1\nrun 0\n\n# x\nrun 00\n"),
    (3, "world 1 1 16 2 1\nrun 0\nrun 00\nrun 00\n"),
    (1, ""),
    (2, "\n"),
    (4, "#\n\n#\n"),
    (1, "#"),
    (3, "#\n\n# no end"),
    (3, "world 1 1 16 2 1\nrun 0\nrun"),
    (3, "world 1 1 16 2 1\nrun 0\nrun 0"),
    (3, "world 1 1 16 2 1\n\nrun 0"),
    (3, "world 1 1 16 2 1\n\n# no end"),
    (2, "world 1 1 16 2 1\n #\n"),
    (2, "world 1 1 16 2 1\n \n"),
    (2, "world 1 1 16 2 1\n\r\n"),
];

/// Texts with these lines as their third, which is bad.
macro_rules! refused {
    ($($line:literal,)*) => {
        concat!($("3:world 1 1 16 2 1\nrun 0\n", $line, "\nrun 0\n|",)*)
    };
}

/// Lines outside the grammar.
const OUTSIDE: &str = refused![
    "world 1 1 16 2 1",
    "run  0",
    "run 0 ",
    " run 0",
    "run\t0",
    "run 0\r",
    "run +1",
    "run -1",
    "run 18446744073709551616",
    "run",
    "run ",
    "run 0 0",
    "RUN 0",
    "stop 0",
    "tick 0",
    "tick 05",
    "land 0 0",
    "fault",
    "fault 0 0",
    "miss 0",
    "start 0 attach",
    "start 0 renew 0",
    "start 0 reserve 0",
    "start 0 create 0 1",
    "start 0 create 0 1 a b",
    "start 0 create 0 1 ",
    "start 0 create 0 1 abcdefghijklmnopqrstuvwxyzabcdefg",
    "start 0 create 0 1 \x7f",
    "start 0 write 0 0",
    "start 0 write 0 0 all:AB",
    "start 0 write 0 0 all:a",
    "start 0 write 0 0 all:abc",
    "start 0 write 0 0 all:00 all:00",
    "start 0 write 0 0 hex:00",
    "upto 0",
    "upto 0 pool",
    "upto 0 jdata 0",
    "run 0\0",
    "run \u{661}",
];

/// Lines that are not built yet.
const NOT_BUILT: &str = refused![
    "start 0 flush 0",
    "start 0 reclaim",
    "start 0 snap 0",
    "upto 0 sweep",
    "upto 0 fresh",
    "upto 0 link",
    "upto 0 overwrite",
    "upto 0 log",
    "upto 0 r-log",
    "upto 0 r-pool",
];

/// A text whose third line has a byte that is no character.
const NO_CHARACTER: &[u8] = b"world 1 1 16 2 1\nrun 0\nrun \xff\nrun 0\n";

/// Texts whose third line has a number between these words: the greatest one, which is read, the
/// first too great one, two digits and none, which are refused.
macro_rules! limited {
    ($(($most:literal, $past:literal, $before:literal, $after:literal),)*) => {
        concat!($(
            "0:world 1 1 16 2 1\nrun 0\n", $before, $most, $after, "\nrun 0\n|",
            "3:world 1 1 16 2 1\nrun 0\n", $before, $past, $after, "\nrun 0\n|",
            "3:world 1 1 16 2 1\nrun 0\n", $before, "00", $after, "\nrun 0\n|",
            "3:world 1 1 16 2 1\nrun 0\n", $before, $after, "\nrun 0\n|",
        )*)
    };
}

const LIMITS: &str = limited![
    ("4294967295", "4294967296", "tick ", ""),
    ("4294967295", "4294967296", "run ", ""),
    ("4294967295", "4294967296", "crash ", ""),
    ("4294967295", "4294967296", "fault ", ""),
    ("4294967295", "4294967296", "start ", " attach 0"),
    ("4294967295", "4294967296", "start 1 attach ", ""),
    ("4294967295", "4294967296", "start 1 detach ", ""),
    ("4294967295", "4294967296", "start 1 create ", " 8 a"),
    ("4294967295", "4294967296", "start 1 create 0 ", " a"),
    ("4294967295", "4294967296", "start 1 delete ", ""),
    ("256", "257", "start 1 reserve ", ""),
    ("4294967295", "4294967296", "start 1 read ", " 0"),
    ("4294967295", "4294967296", "start 1 read 0 ", ""),
    ("4294967295", "4294967296", "start 1 write 0 ", " all:00"),
    (
        "18446744073709551615",
        "18446744073709551616",
        "land 0 ",
        " 0"
    ),
    ("255", "256", "land 0 0 ", ""),
    ("281474976710655", "281474976710656", "clock 0 ", ""),
    ("281474976710655", "281474976710656", "miss 0 ", ""),
    ("4294967295", "4294967296", "upto ", " jdata"),
];

const CASES: &[&str] = &[WORLDS, SKIPPED, OUTSIDE, NOT_BUILT, LIMITS];

#[test]
fn texts_are_read_or_refused_at_their_first_bad_line(rt: HostRuntime) {
    for cases in CASES {
        are_read(&rt, rt.alloc(), cases);
    }
    assert!(rt; is_first_bad(rt.alloc(), NO_CHARACTER, 3), "no character");
}

/// Each kind of line, 33 of them events, with numbers at their limits.
const EACH: &str = "# two hosts

world 256 512 32768 64 8
tick 1
start 4294967295 attach 0
start 0 detach 0
start 0 create 1 4294967295 disk-1
start 0 create 1 1 -
start 0 delete 4294967295
start 0 read 1 2
start 0 write 4294967295 4294967295 all:ff
start 0 renew
start 0 reserve 1
start 0 reserve 256
start 0 retire
read 0
issue 0
land 0 18446744073709551615 255
done 0
fault 0
miss 0 281474976710655
clock 0 281474976710655
crash 0
run 0
upto 0 claim
upto 0 renew
upto 0 release
upto 0 record
upto 0 jdata
upto 0 jcommit
upto 0 r-lease
upto 0 r-record
upto 0 r-journal
upto 0 take
upto 0 give
upto 0 r-map
";

fn is_each(schedule: &Schedule) -> bool {
    schedule.geometry == GREATEST && schedule.appliances == 8 && schedule.events.len() == 33
}

/// Whether the schedule of each kind of line is read.
fn each_is_read(alloc: Global) -> bool {
    match read_schedule(alloc, EACH.as_bytes()) {
        Ok(schedule) => is_each(&schedule),
        Err(_) => false,
    }
}

#[test]
fn each_line_of_a_schedule_is_read(rt: HostRuntime) {
    assert!(rt; each_is_read(rt.alloc()), "each line");
}

/// A text of two parts with so many digits between them.
pub(crate) fn with_digits(
    alloc: Global,
    start: &str,
    (digit, times): (&str, usize),
    end: &str,
) -> Result<String, NoMemory> {
    let digits = digit.repeat(alloc, times)?;
    [start, digits.as_str(), end].concat(alloc)
}

/// Whether the one event is a write of bytes `0x55`, but for the last, which is this one.
fn writes_fives(events: &[Event], last: u8) -> bool {
    let mut wanted = [0x55; 4096];
    wanted[4095] = last;
    match events {
        [
            Event::Start {
                command: Command::Write {
                    payload: Payload::Whole(block),
                    ..
                },
                ..
            },
        ] => block.as_slice() == wanted.as_slice(),
        _ => false,
    }
}

/// Whether the text is a schedule that writes fives but for the last byte.
fn is_written(alloc: Global, text: &str, last: u8) -> bool {
    match read_schedule(alloc, text.as_bytes()) {
        Ok(schedule) => writes_fives(schedule.events.as_slice(), last),
        Err(_) => false,
    }
}

/// How a schedule begins whose one event is a write.
const WRITE: &str = "world 1 1 16 2 1\nstart 0 write 0 3 hex:";

/// Whether a write of fives but for the last two digits is read.
fn is_read(alloc: Global, end: &str, last: u8) -> bool {
    match with_digits(alloc, WRITE, ("5", 8190), end) {
        Ok(text) => is_written(alloc, text.as_str(), last),
        Err(_) => false,
    }
}

#[test]
fn a_block_of_digits_is_read(rt: HostRuntime) {
    assert!(rt; is_read(rt.alloc(), "55\n", 0x55), "55");
    assert!(rt; is_read(rt.alloc(), "0f\n", 0x0f), "0f");
}

/// Texts whose third line is a write of a name, so many digits, and a last one.
macro_rules! written {
    ($(($name:literal, $times:literal, $last:literal),)*) => {
        &[$((
            concat!("world 1 1 16 2 1\nrun 0\nstart 0 write 0 3 ", $name),
            $times,
            concat!($last, "\nrun 0\n"),
        ),)*]
    };
}

const DATA: &[(&str, usize, &str)] = written![
    ("hex:", 8191, ""),
    ("hex:", 8193, ""),
    ("hex:", 8194, ""),
    ("hex:", 4096, ""),
    ("hex:", 0, ""),
    ("hex", 0, ""),
    ("hex:", 8191, "A"),
    ("hex:", 8191, "g"),
    ("hex: ", 8192, ""),
    ("Hex:", 8192, ""),
    ("all:", 8192, ""),
    ("", 8192, ""),
];

/// Whether the text is refused at its third line.
fn is_refused(alloc: Global, start: &str, times: usize, end: &str) -> bool {
    match with_digits(alloc, start, ("a", times), end) {
        Ok(text) => is_first_bad(alloc, text.as_bytes(), 3),
        Err(_) => false,
    }
}

#[test]
fn a_block_of_other_digits_is_refused(rt: HostRuntime) {
    for (case, &(start, times, end)) in DATA.iter().enumerate() {
        assert!(rt; is_refused(rt.alloc(), start, times, end), "{case}");
    }
}

/// Whether the next word is `label=` and this label.
fn is_label(words: &mut Words, label: &[u8]) -> bool {
    match words.label(b"label=") {
        Some(found) => found.as_slice() == label,
        None => false,
    }
}

/// Whether each word is read by its name, or not where it is none of that name.
fn are_named(words: &mut Words) -> bool {
    words.named(b"size=", 8) == Some(8)
        && words.named_small(b"gen=").is_none()
        && is_label(words, b"disk-1")
        && is_label(words, b"")
        && words.label(b"label=").is_none()
}

#[test]
fn words_are_read_by_name(rt: HostRuntime) {
    let mut words = Words::of(b"size=8 gen=4294967296 label=disk-1 label=- label=");
    assert!(rt; are_named(&mut words), "names");
    assert!(rt; words.end().is_some(), "the end");
}
