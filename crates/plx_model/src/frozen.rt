//! What an image held when snapshots of it were taken.
ghost use Rattle.std.specs.Prelude.{◌≡◌, ◌<◌, ◌≤◌, ◌^◌, length, map};
ghost use Rattle.plx_commands.specs.Images.{count_dropped};
ghost use Rattle.plx_model.specs.Shown.{frozen_of};

use plx_base::Block;
use std::collections::BTreeMap;

/// What an image held when a snapshot of it was taken, and whether the snapshot is dropped.
#[derive(Drop)]
pub struct Frozen {
    pub content: BTreeMap<u32, Block>,
    pub dropped: bool,
}

// How many snapshots are dropped.
pub fn count_dropped(frozen: &[Frozen]) -> u32
    requires { length frozen.now < 2 ^ 32 }
    ensures dropped { result ≡ count_dropped (map frozen_of frozen.now) }
    ensures few { result ≤ length frozen.now }
{
    match frozen {
        [] => 0,
        [snapshot, others @ ..] => {
            let count = count_dropped(others);
            if snapshot.dropped { count + 1 } else { count }
        }
    }
}
