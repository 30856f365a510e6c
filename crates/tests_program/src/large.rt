//! Large schedules: a body that wants memory past some size fails here. What is kept grows with the bytes of the input, with its
//! events, with the entries of the trace and with the writes issued.
use crate::program::{END, OPEN, tells};
use std::alloc::{AllocError, Global};

/// An event that isn't possible.
const NOTHING: &str = "land 4294967295 18446744073709551615 255\n";

/// Events that aren't possible, and a boot of appliance 0 that writes once, and dies. The next boot waits until
/// the lease is expired, and attaches the image.
fn push_boot(story: &mut String, number: u32) -> Result<(), AllocError> {
    for _ in 0..27 {
        story.push_str(NOTHING)?;
    }
    let writes = number.saturating_add(1);
    let (vblock, byte) = (number % 8, number % 100);
    write!(
        story,
        "start 0 write 0 {vblock} all:{byte:02}
run 0
#> reply 0 written {writes}
crash 0
tick 9500
start 0 attach 0
run 0
tick 601
run 0
#> reply 0 attached live=1 gen=1 size=8 writes={writes} taken=0 dropped=0 label=a
"
    )
}

/// The journal has no room for one more write, and what was written last to each virtual block is read.
const FULL: &str = "start 0 write 0 0 all:00
run 0
#> reply 0 full
start 0 read 0 0
run 0
#> reply 0 data all:56
start 0 read 0 1
run 0
#> reply 0 data all:57
start 0 read 0 2
run 0
#> reply 0 data all:58
start 0 read 0 3
run 0
#> reply 0 data all:59
start 0 read 0 4
run 0
#> reply 0 data all:60
start 0 read 0 5
run 0
#> reply 0 data all:61
start 0 read 0 6
run 0
#> reply 0 data all:62
start 0 read 0 7
run 0
#> reply 0 data all:63
#> end reachable=0 allocated=0
";

/// Each of 64 boots writes once, and dies. The last one finds the journal full.
fn push_story(story: &mut String) -> Result<(), AllocError> {
    story.push_str("world 1 1 16 64 1\n")?;
    story.push_str(OPEN)?;
    for number in 0..64 {
        push_boot(story, number)?;
    }
    story.push_str(FULL)
}

#[test]
fn a_full_journal_is_filled_over_crashes(rt: HostRuntime) {
    let mut story = String::new(rt.alloc());
    let is_large = push_story(&mut story).is_ok() && story.len() > 65_536;
    assert!(rt; is_large, "the story is as large as wanted");
    tells(&rt, rt.alloc(), story.as_str(), 100);
}

/// How many bytes a call of the streams gives or takes at most, where much is read and written.
const PIECE: usize = 65_536;

/// A story that has the line so many times between two parts.
fn with_lines(
    alloc: Global,
    start: &str,
    (line, times): (&str, u32),
    end: &str,
) -> Result<String, AllocError> {
    let mut story = String::from_str(alloc, start)?;
    for _ in 0..times {
        story.push_str(line)?;
    }
    story.push_str(end)?;
    Ok(story)
}

/// Appliance 0 attaches slot 0: it holds the lease up to 11,000 ms. At 1,601 ms it is attached.
const ATTACHED: &str = "world 1 1 16 2 1
start 0 attach 0
run 0
tick 601
run 0
#> reply 0 attached live=0 gen=0 size=0 writes=0 taken=0 dropped=0 label=-
";

/// The lease is lost after so many milliseconds.
const LOST: &str = "start 0 create 0 8 a
run 0
#> reply 0 lost lease=image:0 until=11000 reading=9501601
#> end reachable=0 allocated=0
";

#[test]
fn an_input_has_room_for_nine_million_events(rt: HostRuntime) {
    let alloc = rt.alloc();
    let ticks = ("tick 1\n", 9_500_000);
    let story = with_lines(alloc, ATTACHED, ticks, LOST).expect(&rt, "memory");
    tells(&rt, alloc, story.as_str(), PIECE);
}

/// The boot after many others attaches slot 0.
const LAST_BOOT: &str = "start 0 attach 0
run 0
tick 601
run 0
#> reply 0 attached live=0 gen=0 size=0 writes=0 taken=0 dropped=0 label=-
#> end reachable=0 allocated=0
";

#[test]
fn a_million_crashes_are_told_and_what_follows(rt: HostRuntime) {
    let alloc = rt.alloc();
    let crashes = ("crash 0\n", 1_100_000);
    let story = with_lines(alloc, "world 1 1 16 2 1\n", crashes, LAST_BOOT).expect(&rt, "memory");
    tells(&rt, alloc, story.as_str(), PIECE);
}

/// All leases that are held are renewed.
const RENEWED: &str = "start 0 renew
run 0
#> reply 0 renewed
";

/// One more slot is attached, and all leases are renewed before the first one ends.
fn push_lease(story: &mut String, slot: u32) -> Result<(), AllocError> {
    write!(
        story,
        "start 0 attach {slot}
run 0
tick 601
run 0
#> reply 0 attached live=0 gen=0 size=0 writes=0 taken=0 dropped=0 label=-
"
    )?;
    story.push_str(RENEWED)
}

/// The leases of 64 images are held, and renewed so often.
fn renewals(alloc: Global, times: u32) -> Result<String, AllocError> {
    let mut story = String::from_str(alloc, "world 64 1 16 2 1\n")?;
    for slot in 0..64 {
        push_lease(&mut story, slot)?;
    }
    with_lines(alloc, story.as_str(), (RENEWED, times), END)
}

#[test]
fn a_million_writes_are_issued(rt: HostRuntime) {
    let alloc = rt.alloc();
    let story = renewals(alloc, 17_000).expect(&rt, "memory");
    tells(&rt, alloc, story.as_str(), PIECE);
}
