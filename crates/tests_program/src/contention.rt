//! Several appliances that share images: schedules and their traces, written out by hand from the rules.
use crate::program::{END, OPEN, Story, plays_each};

const RELEASED: &str = "tick 5000
start 0 renew
run 0
#> reply 0 renewed
tick 8000
start 0 read 0 0
run 0
#> reply 0 data all:00
start 0 detach 0
run 0
#> reply 0 detached
start 0 read 0 0
run 0
#> reply 0 not-attached
start 1 attach 0
run 1
tick 601
run 1
#> reply 1 attached live=1 gen=1 size=8 writes=0 taken=0 dropped=0 label=a
";

/// Two claims are asked.
const CLAIMS: &str = "start 0 attach 0
start 1 attach 0
upto 0 claim
upto 1 claim
";

/// The order in which they land, and the replies of both appliances.
const LANDED_SECOND: &str = "run 0
run 1
tick 601
run 0
run 1
#> reply 0 busy lease=image:0 boot=2 claim=0 sample=1000 until=11000
#> reply 1 attached live=0 gen=0 size=0 writes=0 taken=0 dropped=0 label=-
";

const LANDED_FIRST: &str = "run 1
run 0
tick 601
run 0
run 1
#> reply 0 attached live=0 gen=0 size=0 writes=0 taken=0 dropped=0 label=-
#> reply 1 busy lease=image:0 boot=1 claim=0 sample=1000 until=11000
";

/// A boot dies once its claim is issued, and another's claim waits.
const DEAD_CLAIM: &str = "start 0 attach 0
upto 0 claim
issue 0
crash 0
start 1 attach 0
run 1
";

/// When the dead boot's claim lands, and what the other's gives. A claim's sectors land up to 50 ms after its
/// guard, 200 ms after its sample.
const LATE_CLAIM: &str = "tick 250
land 0 0 0
tick 351
run 1
#> reply 1 busy lease=image:0 boot=1 claim=0 sample=1000 until=11000
";

const TOO_LATE_CLAIM: &str = "tick 251
land 0 0 0
tick 350
run 1
#> reply 1 attached live=0 gen=0 size=0 writes=0 taken=0 dropped=0 label=-
";

const EIGHT: &str = "start 0 attach 0
start 1 attach 0
start 2 attach 0
start 3 attach 0
start 4 attach 0
start 5 attach 0
start 6 attach 0
start 7 attach 0
upto 0 claim
upto 1 claim
upto 2 claim
upto 3 claim
upto 4 claim
upto 5 claim
upto 6 claim
upto 7 claim
# The claim of appliance 5 lands last.
run 0
run 7
run 1
run 6
run 2
run 4
run 3
run 5
tick 601
run 0
run 1
run 2
run 3
run 4
run 5
run 6
run 7
#> reply 0 busy lease=image:0 boot=6 claim=0 sample=1000 until=11000
#> reply 1 busy lease=image:0 boot=6 claim=0 sample=1000 until=11000
#> reply 2 busy lease=image:0 boot=6 claim=0 sample=1000 until=11000
#> reply 3 busy lease=image:0 boot=6 claim=0 sample=1000 until=11000
#> reply 4 busy lease=image:0 boot=6 claim=0 sample=1000 until=11000
#> reply 5 attached live=0 gen=0 size=0 writes=0 taken=0 dropped=0 label=-
#> reply 6 busy lease=image:0 boot=6 claim=0 sample=1000 until=11000
#> reply 7 busy lease=image:0 boot=6 claim=0 sample=1000 until=11000
";

const TAKEN_OVER: &str = "start 0 write 0 0 all:aa
upto 0 jdata
# The lease ended at 11,000 ms. It is 11,100 ms, and 11,101 ms then.
tick 9499
start 1 attach 0
run 1
#> reply 1 busy lease=image:0 boot=1 claim=0 sample=1000 until=11000
tick 1
start 1 attach 0
run 1
tick 601
run 1
#> reply 1 attached live=1 gen=1 size=8 writes=0 taken=0 dropped=0 label=a
start 1 write 0 0 all:bb
run 1
#> reply 1 written 1
# The first holder's write wasn't issued, and it is too late for it now.
run 0
#> reply 0 lost lease=image:0 until=11000 reading=11702
start 1 read 0 0
run 1
#> reply 1 data all:bb
start 0 read 0 0
run 0
#> reply 0 not-attached
start 0 attach 0
run 0
#> reply 0 busy lease=image:0 boot=2 claim=1 sample=11101 until=21101
";

const LATE_SECTORS: &str = "start 0 write 0 0 all:aa
run 0
#> reply 0 written 1
# Of the second write the data is there, and seven sectors of the descriptor: all but the first,
# which has its bytes.
start 0 write 0 0 all:bb
upto 0 jcommit
issue 0
land 0 0 1
land 0 0 2
land 0 0 3
land 0 0 4
land 0 0 5
land 0 0 6
land 0 0 7
crash 0
tick 9500
land 0 0 0
start 1 attach 0
run 1
tick 601
run 1
#> reply 1 attached live=1 gen=1 size=8 writes=1 taken=0 dropped=0 label=a
land 0 0 0
start 1 read 0 0
run 1
#> reply 1 data all:aa
start 1 write 0 1 all:cc
run 1
#> reply 1 written 2
land 0 0 0
land 0 1 0
start 1 detach 0
run 1
#> reply 1 detached
# The second boot of the dead appliance finds what the other one left.
start 0 attach 0
run 0
tick 601
run 0
#> reply 0 attached live=1 gen=1 size=8 writes=2 taken=0 dropped=0 label=a
land 0 1 0
start 0 read 0 0
run 0
#> reply 0 data all:aa
start 0 read 0 1
run 0
#> reply 0 data all:cc
";

/// A boot dies once its release is issued.
const DEAD_RELEASE: &str = "start 0 detach 0
upto 0 release
issue 0
crash 0
";

/// When the release lands, and what others find.
const RELEASE: &str = "start 1 attach 0
run 1
#> reply 1 busy lease=image:0 boot=1 claim=0 sample=1000 until=11000
land 0 0 0
start 1 attach 0
run 1
tick 601
run 1
#> reply 1 attached live=1 gen=1 size=8 writes=0 taken=0 dropped=0 label=a
";

/// More than 50 ms after its guard it doesn't land, and another's claim stays.
const TOO_LATE_RELEASE: &str = "tick 9450
land 0 0 0
tick 50
start 1 attach 0
run 1
tick 601
run 1
#> reply 1 attached live=1 gen=1 size=8 writes=0 taken=0 dropped=0 label=a
land 0 0 0
start 0 attach 0
run 0
#> reply 0 busy lease=image:0 boot=2 claim=0 sample=11101 until=21101
";

/// A renewal has landed.
const RENEWAL: &str = "tick 5000
start 0 renew
upto 0 renew
issue 0
land 0 0 0
";

/// How its boot ends.
const CRASH: &str = "crash 0
";

const FAULT: &str = "fault 0
#> reply 0 write-fault block=2
";

const LONGER: &str = "# It is 6,601 ms; the lease is claimed up to 16,601 ms now.
tick 10100
start 1 attach 0
run 1
#> reply 1 busy lease=image:0 boot=1 claim=0 sample=1000 until=16601
tick 1
start 1 attach 0
run 1
tick 601
run 1
#> reply 1 attached live=1 gen=1 size=8 writes=0 taken=0 dropped=0 label=a
start 0 read 0 0
run 0
#> reply 0 not-attached
";

const RENEWALS: &str = "start 0 attach 1
run 0
tick 601
run 0
#> reply 0 attached live=0 gen=0 size=0 writes=0 taken=0 dropped=0 label=-
# It is 5,000 ms. The renewal of the first lease is done, and the second's isn't asked yet.
tick 2798
start 0 renew
upto 0 renew
issue 0
upto 0 renew
crash 0
start 1 attach 0
run 1
#> reply 1 busy lease=image:0 boot=1 claim=0 sample=1000 until=15000
start 1 attach 1
run 1
#> reply 1 busy lease=image:1 boot=1 claim=1 sample=1601 until=11601
";

const CLOCKS: &str = "# The holder's clock is 50 ms slow, the other's 50 ms fast. It is 11,049 ms.
tick 9448
start 0 read 0 0
clock 0 10999
clock 0 10999
#> reply 0 data all:00
start 1 attach 0
clock 1 11099
clock 1 11099
run 1
#> reply 1 busy lease=image:0 boot=1 claim=0 sample=1000 until=11000
# At 11,050 ms neither has it.
tick 1
start 0 read 0 0
clock 0 10999
clock 0 11000
#> reply 0 lost lease=image:0 until=11000 reading=11000
start 1 attach 0
clock 1 11100
clock 1 11100
run 1
#> reply 1 busy lease=image:0 boot=1 claim=0 sample=1000 until=11000
tick 1
start 1 attach 0
clock 1 11101
clock 1 11101
run 1
tick 601
run 1
clock 1 11702
run 1
#> reply 1 attached live=1 gen=1 size=8 writes=0 taken=0 dropped=0 label=a
";

const CHANGES: &str = "start 1 attach 1
run 1
tick 601
run 1
#> reply 1 attached live=0 gen=0 size=0 writes=0 taken=0 dropped=0 label=-
start 1 create 1 4 b
run 1
#> reply 1 created
start 0 write 0 3 all:0a
run 0
#> reply 0 written 1
start 1 write 1 3 all:0b
run 1
#> reply 1 written 1
# Each finds the other's busy. The lease of image 1 was claimed at 1,601 ms.
start 0 attach 1
run 0
#> reply 0 busy lease=image:1 boot=2 claim=0 sample=1601 until=11601
start 1 attach 0
run 1
#> reply 1 busy lease=image:0 boot=1 claim=0 sample=1000 until=11000
start 0 read 1 3
run 0
#> reply 0 not-attached
start 0 detach 0
run 0
#> reply 0 detached
start 1 detach 1
run 1
#> reply 1 detached
start 0 attach 1
start 1 attach 0
run 0
run 1
tick 601
run 1
run 0
#> reply 1 attached live=1 gen=1 size=8 writes=1 taken=0 dropped=0 label=a
#> reply 0 attached live=1 gen=1 size=4 writes=1 taken=0 dropped=0 label=b
start 0 read 1 3
run 0
#> reply 0 data all:0b
start 1 read 0 3
run 1
#> reply 1 data all:0a
";

const STORIES: &[Story] = &[
    // A renewed and released lease goes to the next.
    &["world 1 1 16 2 2\n", OPEN, RELEASED, END],
    // Of claims at once the last that landed is held.
    &["world 1 1 16 2 2\n", CLAIMS, LANDED_SECOND, END],
    &["world 1 1 16 2 2\n", CLAIMS, LANDED_FIRST, END],
    // A claim that lands last is held even of a dead boot.
    &["world 1 1 16 2 2\n", DEAD_CLAIM, LATE_CLAIM, END],
    &["world 1 1 16 2 2\n", DEAD_CLAIM, TOO_LATE_CLAIM, END],
    // Eight appliances claim one image.
    &["world 1 1 16 2 8\n", EIGHT, END],
    // A claim waits, and the first holder is lost.
    &["world 1 1 16 2 2\n", OPEN, TAKEN_OVER, END],
    // Late sectors of a dead boot change nothing.
    &["world 1 1 16 2 2\n", OPEN, LATE_SECTORS, END],
    // A release of a dead boot frees the lease in time.
    &["world 1 1 16 2 2\n", OPEN, DEAD_RELEASE, RELEASE, END],
    &[
        "world 1 1 16 2 2\n",
        OPEN,
        DEAD_RELEASE,
        TOO_LATE_RELEASE,
        END,
    ],
    // A renewal of a dead or failed boot holds the lease longer.
    &["world 1 1 16 2 2\n", OPEN, RENEWAL, CRASH, LONGER, END],
    &["world 1 1 16 2 2\n", OPEN, RENEWAL, FAULT, LONGER, END],
    // Leases are renewed one after another.
    &["world 2 1 16 2 2\n", OPEN, RENEWALS, END],
    // Clocks at their limits leave no two holders.
    &["world 1 1 16 2 2\n", OPEN, CLOCKS, END],
    // Two appliances change their images.
    &["world 2 1 16 2 2\n", OPEN, CHANGES, END],
];

#[test]
fn appliances_share_images(rt: HostRuntime) {
    plays_each(&rt, rt.alloc(), STORIES);
}
