//! Whole schedules of one appliance and their traces, written out by hand from the rules.
use crate::program::{END, OPEN, REPLAY, Story, Streams, ends, plays, plays_each};
use plx_cli::Status;
use std::alloc::Global;
use std::process::Abort;

/// The trace of a schedule that makes an image, fills a block of it with the byte 5a, and reads it.
const FIRST_TRACE: &str = "world 1 1 16 2 1
start 0 attach 0
reply 0 attached live=0 gen=0 size=0 writes=0 taken=0 dropped=0 label=-
start 0 create 0 8 a
reply 0 created
start 0 write 0 0 all:5a
reply 0 written 1
start 0 read 0 0
reply 0 data all:5a
start 0 read 0 1
reply 0 data all:00
end reachable=0 allocated=0
";

/// The schedule, in parts between which its DATA stands.
const MAKES: &str = "start 0 attach 0
run 0
tick 601
run 0
start 0 create 0 8 a
run 0
start 0 write 0 0 ";

const READS: &str = "
run 0
start 0 read 0 0
run 0
start 0 read 0 1
run 0
";

/// The schedule with these lines that are skipped, and this DATA, has that trace.
fn first_plays(rt: &impl Abort, alloc: Global, skipped: &str, data: &str) {
    let parts = ["world 1 1 16 2 1\n", skipped, MAKES, data, READS];
    let schedule = parts.concat(alloc).expect(rt, "memory");
    let streams = Streams::of(schedule.as_bytes());
    ends(rt, alloc, REPLAY, streams, (Status::Done, FIRST_TRACE));
}

#[test]
fn a_block_is_written_and_read_back(rt: HostRuntime) {
    let alloc = rt.alloc();
    first_plays(&rt, alloc, "", "all:5a");
    first_plays(&rt, alloc, "\n# an image of eight blocks\n", "all:5a");
    let digits = "5a".repeat(alloc, 4096).expect(&rt, "memory");
    let data = ["hex:", digits.as_str()]
        .concat(alloc)
        .expect(&rt, "memory");
    first_plays(&rt, alloc, "", data.as_str());
}

const NOT_POSSIBLE: &str = "world 1 1 16 2 2
# Nothing runs, and there is no appliance 2.
run 0
read 0
issue 0
land 0 0 0
done 0
fault 0
miss 0 1000
clock 0 1000
upto 0 claim
start 2 attach 0
run 2
crash 2
land 2 0 0
upto 2 jdata
start 0 attach 0
# The clock is asked, from 950 to 1,050 ms, and no second command starts.
start 0 renew
read 0
issue 0
done 0
fault 0
miss 0 1001
clock 0 949
clock 0 1051
clock 0 950
clock 0 1050
# The lease is read.
clock 0 1000
issue 0
done 0
miss 0 1001
read 0
# The claim is written: one sector after another, each once, and not yet done. It is too early for a miss.
read 0
clock 0 1000
done 0
miss 0 1050
issue 0
issue 0
done 0
land 0 0 7
land 0 0 7
land 0 0 8
land 0 0 255
land 0 1 0
land 1 0 0
land 0 0 1
land 0 0 2
land 0 0 3
land 0 0 4
land 0 0 5
land 0 0 6
done 0
land 0 0 0
read 0
done 0
done 0
# The sample was 1,050 ms: the wait is over at 1,651 ms.
tick 600
clock 0 1650
run 0
clock 0 1651
tick 1
clock 0 1650
clock 0 1651
run 0
tick 9549
start 1 attach 0
run 1
tick 1
start 1 attach 0
run 1
tick 601
run 1
";

const NOT_POSSIBLE_TRACE: &str = "world 1 1 16 2 2
start 0 attach 0
reply 0 attached live=0 gen=0 size=0 writes=0 taken=0 dropped=0 label=-
start 1 attach 0
reply 1 busy lease=image:0 boot=1 claim=0 sample=1050 until=11050
start 1 attach 0
reply 1 attached live=0 gen=0 size=0 writes=0 taken=0 dropped=0 label=-
end reachable=0 allocated=0
";

#[test]
fn events_that_are_not_possible_change_nothing(rt: HostRuntime) {
    let streams = Streams::of(NOT_POSSIBLE.as_bytes());
    ends(
        &rt,
        rt.alloc(),
        REPLAY,
        streams,
        (Status::Done, NOT_POSSIBLE_TRACE),
    );
}

/// A second write begins, and its data is issued.
const SECOND_WRITE: &str = "start 0 write 0 0 all:aa
run 0
#> reply 0 written 1
start 0 write 0 0 all:bb
upto 0 jdata
issue 0
";

/// Its sectors land: those of the data, and those of the descriptor.
const SECTORS: &str = "land 0 0 0
land 0 0 1
land 0 0 2
land 0 0 3
land 0 0 4
land 0 0 5
land 0 0 6
land 0 0 7
";

/// The data is done, and the descriptor issued.
const DESCRIPTOR: &str = "done 0
issue 0
";

const CRASH: &str = "crash 0
# It is 1,601 ms. The lease was claimed up to 11,000 ms, and is busy 100 ms longer.
tick 9499
start 0 attach 0
run 0
#> reply 0 busy lease=image:0 boot=1 claim=0 sample=1000 until=11000
tick 1
";

const COMMITTED: &str = "start 0 attach 0
run 0
tick 601
run 0
#> reply 0 attached live=1 gen=1 size=8 writes=2 taken=0 dropped=0 label=a
start 0 read 0 0
run 0
#> reply 0 data all:bb
start 0 read 0 1
run 0
#> reply 0 data all:00
";

const NOT_COMMITTED: &str = "start 0 attach 0
run 0
tick 601
run 0
#> reply 0 attached live=1 gen=1 size=8 writes=1 taken=0 dropped=0 label=a
start 0 read 0 0
run 0
#> reply 0 data all:aa
start 0 read 0 1
run 0
#> reply 0 data all:00
";

const WORLD: &str = "world 1 1 16 2 1\n";

/// The first so many of the eight sectors land: a line for each.
fn landings(count: usize) -> &'static str {
    SECTORS.get(..count.saturating_mul(11)).unwrap_or(SECTORS)
}

// The data's eight sectors land before the descriptor's eight, the first of which commits the write.
#[test]
fn a_crash_before_the_commit_leaves_nothing_of_a_write(rt: HostRuntime) {
    for landed in 0..9 {
        let landings = landings(landed);
        let parts = [
            WORLD,
            OPEN,
            SECOND_WRITE,
            landings,
            CRASH,
            NOT_COMMITTED,
            END,
        ];
        plays(&rt, rt.alloc(), &parts);
    }
    plays(&rt, rt.alloc(), ISSUED);
}

/// The descriptor is issued, and none of its sectors lands.
const ISSUED: Story = &[
    WORLD,
    OPEN,
    SECOND_WRITE,
    SECTORS,
    DESCRIPTOR,
    CRASH,
    NOT_COMMITTED,
    END,
];

#[test]
fn a_crash_after_the_commit_leaves_the_whole_write(rt: HostRuntime) {
    for landed in 1..9 {
        let landings = landings(landed);
        let parts = [
            WORLD,
            OPEN,
            SECOND_WRITE,
            SECTORS,
            DESCRIPTOR,
            landings,
            CRASH,
            COMMITTED,
            END,
        ];
        plays(&rt, rt.alloc(), &parts);
    }
}

const FULL: &str = "start 0 write 0 0 all:01
run 0
#> reply 0 written 1
start 0 write 0 0 all:01
run 0
#> reply 0 written 2
start 0 write 0 0 all:01
run 0
#> reply 0 full
start 0 write 0 8 all:01
run 0
#> reply 0 out-of-range size=8
start 0 attach 1
run 0
#> reply 0 no-image
start 0 attach 0
run 0
#> reply 0 already-attached
";

const FILLED: &str = "start 0 attach 0
run 0
#> reply 0 already-attached
start 0 create 0 8 b
run 0
#> reply 0 exists
start 0 create 0 0 b
run 0
#> reply 0 exists
start 0 write 0 8 all:01
run 0
#> reply 0 out-of-range size=8
start 0 write 0 0 all:07
run 0
#> reply 0 written 1
start 0 write 0 0 all:08
run 0
#> reply 0 written 2
start 0 delete 0
run 0
#> reply 0 deleted
start 0 read 0 0
run 0
#> reply 0 no-image
start 0 create 0 0 b
run 0
#> reply 0 out-of-range size=134217728
start 0 create 0 134217728 b
run 0
#> reply 0 created
start 0 attach 2
run 0
#> reply 0 no-image
start 0 read 1 0
run 0
#> reply 0 not-attached
# The image has the slot's second generation, and no write of the first one.
start 0 read 0 0
run 0
#> reply 0 data all:00
start 0 write 0 134217727 all:09
run 0
#> reply 0 written 1
start 0 detach 0
run 0
#> reply 0 detached
start 0 attach 0
run 0
tick 601
run 0
#> reply 0 attached live=1 gen=2 size=134217728 writes=1 taken=0 dropped=0 label=b
start 0 read 0 134217727
run 0
#> reply 0 data all:09
start 0 delete 0
run 0
#> reply 0 deleted
start 0 detach 0
run 0
#> reply 0 detached
start 0 attach 0
run 0
tick 601
run 0
#> reply 0 attached live=0 gen=2 size=0 writes=0 taken=0 dropped=0 label=-
";

/// A record is issued.
const CREATE: &str = "start 0 attach 0
run 0
tick 601
run 0
#> reply 0 attached live=0 gen=0 size=0 writes=0 taken=0 dropped=0 label=-
start 0 create 0 8 a
upto 0 record
issue 0
";

/// Which sector of the record landed, and what is there then: all of a record lies in its first sector.
const MADE: &str = "land 0 0 0
crash 0
tick 9500
start 0 attach 0
run 0
tick 601
run 0
#> reply 0 attached live=1 gen=1 size=8 writes=0 taken=0 dropped=0 label=a
";

const NOT_MADE: &str = "land 0 0 1
crash 0
tick 9500
start 0 attach 0
run 0
tick 601
run 0
#> reply 0 attached live=0 gen=0 size=0 writes=0 taken=0 dropped=0 label=-
";

const LOST: &str = "tick 9398
start 0 read 0 0
run 0
#> reply 0 data all:00
tick 1
start 0 read 0 0
run 0
#> reply 0 lost lease=image:0 until=11000 reading=11000
start 0 read 0 0
run 0
#> reply 0 not-attached
";

const RENEWED: &str =
    "# It is 1,601 ms, and the lease is held up to 11,601 ms. A clock that runs behind changes nothing of that.
start 0 renew
run 0
#> reply 0 renewed
start 0 renew
clock 0 1551
run 0
#> reply 0 renewed
tick 9999
start 0 read 0 0
run 0
#> reply 0 data all:00
tick 1
start 0 renew
run 0
#> reply 0 lost lease=image:0 until=11601 reading=11601
start 0 renew
run 0
#> reply 0 renewed
";

const SESSIONS: &str = "# The lease of image 1 is claimed at 1,601 ms, up to 11,601 ms.
start 0 attach 1
run 0
tick 601
run 0
#> reply 0 attached live=0 gen=0 size=0 writes=0 taken=0 dropped=0 label=-
start 0 create 1 8 b
run 0
#> reply 0 created
tick 8798
start 0 read 1 0
run 0
#> reply 0 data all:00
# The first reading of a command names only its own image.
start 0 read 0 0
run 0
#> reply 0 lost lease=image:0 until=11000 reading=11000
start 0 read 1 0
run 0
#> reply 0 not-attached
start 0 attach 1
run 0
#> reply 0 busy lease=image:1 boot=1 claim=1 sample=1601 until=11601
";

const FAILED_WRITE: &str = "start 0 write 0 0 all:11
upto 0 jcommit
fault 0
#> reply 0 write-fault block=6
start 0 read 0 0
run 0
#> reply 0 not-attached
start 0 attach 0
run 0
#> reply 0 busy lease=image:0 boot=1 claim=0 sample=1000 until=11000
";

/// A descriptor is issued.
const WRITE: &str = "start 0 write 0 0 all:cc
upto 0 jcommit
issue 0
";

/// How a boot ends at it.
const BOOT_CRASH: &str = "crash 0
";

const BOOT_FAULT: &str = "fault 0
#> reply 0 write-fault block=6
";

/// Its first sector lands, and what is found then. Sectors land up to 50 ms after their guard, which is the
/// end of the lease: 11,000 ms.
const LANDED: &str = "tick 9449
land 0 0 0
tick 51
start 0 attach 0
run 0
tick 601
run 0
#> reply 0 attached live=1 gen=1 size=8 writes=1 taken=0 dropped=0 label=a
start 0 read 0 0
run 0
#> reply 0 data all:cc
";

const NOT_LANDED: &str = "tick 9450
land 0 0 0
tick 50
start 0 attach 0
run 0
tick 601
run 0
#> reply 0 attached live=1 gen=1 size=8 writes=0 taken=0 dropped=0 label=a
start 0 read 0 0
run 0
#> reply 0 data all:00
";

const FAILED_READS: &str = "start 0 attach 0
upto 0 r-lease
fault 0
#> reply 0 read-fault block=2
# The lease is claimed, and the record can't be read.
start 0 attach 0
run 0
tick 601
upto 0 r-record
fault 0
#> reply 0 read-fault block=4
# The lease is held still: there is no wait.
start 0 attach 0
run 0
#> reply 0 attached live=0 gen=0 size=0 writes=0 taken=0 dropped=0 label=-
start 0 create 0 8 a
run 0
#> reply 0 created
start 0 detach 0
run 0
#> reply 0 detached
start 0 attach 0
run 0
tick 601
upto 0 r-journal
read 0
fault 0
#> reply 0 read-fault block=8
start 0 read 0 0
run 0
#> reply 0 not-attached
";

/// A claim may be issued up to 200 ms after its sample. A clock is 50 ms off at the most.
const LATE_CLAIM: &str = "start 0 attach 0
upto 0 claim
tick 150
miss 0 1201
tick 1
miss 0 1200
miss 0 1201
#> reply 0 lost lease=image:0 until=1200 reading=1201
start 0 attach 0
# It is 1,151 ms, and 1,352 ms then.
upto 0 claim
tick 201
run 0
#> reply 0 lost lease=image:0 until=1351 reading=1352
# A claim that was issued in time, and whose sectors aren't all there in time.
start 0 attach 0
upto 0 claim
issue 0
tick 251
land 0 0 0
run 0
#> reply 0 write-fault block=2
start 0 attach 0
run 0
tick 601
run 0
#> reply 0 attached live=0 gen=0 size=0 writes=0 taken=0 dropped=0 label=-
";

const RETIRED: &str =
    "# A read of the record fails, and the lease of image 1 stays held with no session.
start 0 attach 1
run 0
tick 601
upto 0 r-record
fault 0
#> reply 0 read-fault block=6
start 0 retire
run 0
#> reply 0 retired
# It is free, and image 0 isn't.
start 1 attach 0
run 1
#> reply 1 busy lease=image:0 boot=1 claim=0 sample=1000 until=11000
start 1 attach 1
run 1
tick 601
run 1
#> reply 1 attached live=0 gen=0 size=0 writes=0 taken=0 dropped=0 label=-
";

const STORIES: &[Story] = &[
    // A journal is full, and an attached image stays attached.
    &["world 1 1 16 2 1\n", OPEN, FULL, END],
    // Slots are filled, emptied and filled again.
    &["world 2 1 16 2 1\n", OPEN, FILLED, END],
    // A crash at a create leaves an image or a free slot.
    &["world 1 1 16 2 1\n", CREATE, MADE, END],
    &["world 1 1 16 2 1\n", CREATE, NOT_MADE, END],
    // A lease is lost at its end.
    &["world 1 1 16 2 1\n", OPEN, LOST, END],
    // A renewal never shortens a lease.
    &["world 1 1 16 2 1\n", OPEN, RENEWED, END],
    // One lost lease ends all sessions.
    &["world 2 1 16 2 1\n", OPEN, SESSIONS, END],
    // A failed write ends the session and leaves the lease.
    &["world 1 1 16 2 1\n", OPEN, FAILED_WRITE, END],
    // A failed write may land later.
    &["world 1 1 16 2 1\n", OPEN, WRITE, BOOT_CRASH, LANDED, END],
    &["world 1 1 16 2 1\n", OPEN, WRITE, BOOT_FAULT, LANDED, END],
    &[
        "world 1 1 16 2 1\n",
        OPEN,
        WRITE,
        BOOT_CRASH,
        NOT_LANDED,
        END,
    ],
    &[
        "world 1 1 16 2 1\n",
        OPEN,
        WRITE,
        BOOT_FAULT,
        NOT_LANDED,
        END,
    ],
    // A failed read leaves what was got.
    &["world 1 1 16 2 1\n", FAILED_READS, END],
    // A claim that comes too late is lost.
    &["world 1 1 16 2 1\n", LATE_CLAIM, END],
    // A retire gives up images without a session.
    &["world 2 1 16 2 2\n", OPEN, RETIRED, END],
];

#[test]
fn schedules_have_their_traces(rt: HostRuntime) {
    plays_each(&rt, rt.alloc(), STORIES);
}
