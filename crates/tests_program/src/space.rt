//! Fresh blocks that are taken and given back, with traces written out by hand from the rules.
//!
//! In a world of one image and two journal slots the maps of extents of 16 blocks are blocks 10 and 26.
use crate::program::{END, Story, plays_each};

/// Appliance 0 takes three blocks, and then all others of the one extent.
const FILLED: &str = "start 0 reserve 3
run 0
tick 601
run 0
#> reply 0 reserved
start 1 reserve 1
run 1
#> reply 1 busy lease=extent:0 boot=1 claim=0 sample=1000 until=11000
start 0 reserve 15
run 0
#> reply 0 reserved
start 0 reserve 16
run 0
#> reply 0 full
# No block is free, so no lease is claimed.
start 1 reserve 1
run 1
#> reply 1 full
";

const GIVEN_BACK: &str = "start 0 retire
run 0
#> reply 0 retired
";

/// The lease of the extent was released too.
const TAKEN_AGAIN: &str = "start 1 reserve 2
run 1
tick 601
run 1
#> reply 1 reserved
";

const PAST_BUSY: &str = "start 0 reserve 3
run 0
tick 601
run 0
#> reply 0 reserved
start 1 reserve 4
run 1
tick 601
run 1
#> reply 1 reserved
# Appliance 0 gets what is left of extent 0 and all of extent 2, and names the first that was busy.
start 0 reserve 31
run 0
tick 601
run 0
#> reply 0 busy lease=extent:1 boot=2 claim=1 sample=1601 until=11601
# What it got stays in hand.
start 0 reserve 30
run 0
#> reply 0 reserved
";

const CRASHED: &str = "start 0 reserve 3
run 0
tick 601
run 0
#> reply 0 reserved
crash 0
start 0 reserve 1
run 0
#> reply 0 busy lease=extent:0 boot=1 claim=0 sample=1000 until=11000
# The lease ended at 11,000 ms, and it is 11,101 ms. The three blocks are nobody's.
tick 9500
start 0 reserve 1
run 0
tick 601
run 0
#> reply 0 reserved
start 0 retire
run 0
#> reply 0 retired
";

const GIVEN_UP: &str = "start 0 reserve 3
run 0
tick 601
run 0
#> reply 0 reserved
# It is 11,000 ms: the first reading drops the lease, which isn't expired for a claim yet.
tick 9399
start 0 reserve 1
run 0
#> reply 0 busy lease=extent:0 boot=1 claim=0 sample=1000 until=11000
tick 101
start 0 reserve 1
run 0
tick 601
run 0
#> reply 0 reserved
";

const RENEWED: &str = "start 0 reserve 3
run 0
tick 601
run 0
#> reply 0 reserved
tick 9398
start 0 renew
run 0
#> reply 0 renewed
tick 5000
# Three are in hand still.
start 0 reserve 3
run 0
#> reply 0 reserved
start 0 retire
run 0
#> reply 0 retired
";

const FAILED_TAKE: &str = "start 0 reserve 3
upto 0 r-map
read 0
run 0
tick 601
upto 0 take
issue 0
fault 0
#> reply 0 write-fault block=10
start 0 reserve 1
run 0
#> reply 0 busy lease=extent:0 boot=1 claim=0 sample=1000 until=11000
# What was issued lands yet.
land 0 0 0
";

const MISSED_GIVE: &str = "start 0 reserve 3
run 0
tick 601
run 0
#> reply 0 reserved
start 0 retire
upto 0 give
tick 9400
run 0
#> reply 0 lost lease=extent:0 until=11000 reading=11001
";

const STORIES: &[Story] = &[
    // An extent is filled and given back.
    &["world 1 1 16 2 2\n", FILLED, GIVEN_BACK, END],
    &[
        "world 1 1 16 2 2\n",
        FILLED,
        GIVEN_BACK,
        TAKEN_AGAIN,
        "#> end reachable=0 allocated=2\n",
    ],
    // Blocks in hand are allocated.
    &[
        "world 1 1 16 2 2\n",
        FILLED,
        "#> end reachable=0 allocated=15\n",
    ],
    // A take goes past a busy extent.
    &[
        "world 1 3 16 2 2\n",
        PAST_BUSY,
        "#> end reachable=0 allocated=34\n",
    ],
    // A crash leaves its blocks allocated.
    &[
        "world 1 1 16 2 1\n",
        CRASHED,
        "#> end reachable=0 allocated=3\n",
    ],
    // Blocks are given up with their lease.
    &[
        "world 1 1 16 2 1\n",
        GIVEN_UP,
        "#> end reachable=0 allocated=4\n",
    ],
    // A renew keeps an extent.
    &["world 1 1 16 2 1\n", RENEWED, END],
    // A take that fails loses the extent.
    &[
        "world 1 1 16 2 1\n",
        FAILED_TAKE,
        "#> end reachable=0 allocated=3\n",
    ],
    // A give that is missed loses the extent.
    &[
        "world 1 1 16 2 1\n",
        MISSED_GIVE,
        "#> end reachable=0 allocated=3\n",
    ],
];

#[test]
fn blocks_are_taken_and_given_back(rt: HostRuntime) {
    plays_each(&rt, rt.alloc(), STORIES);
}
