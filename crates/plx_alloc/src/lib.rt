//! Space: the extents whose leases a boot holds, the fresh blocks in its hand, and how blocks are
//! taken and given back.
#![tactic(auto)]

mod allocator;
mod choosing;
mod give_back;
mod giving;
mod reserve;
mod retire;
mod room;
mod rules;
mod space_end;
mod spell;

pub use allocator::{Allocator, HAND_LEN};
pub use give_back::GiveBack;
pub use reserve::{Met, Pass, Reserve, ReserveAt};
pub use retire::{Retire, RetireAt};
pub use room::MapRoom;
pub use rules::{extent_gives_keep_rules, extent_takes_keep_rules, give_backs_keep_rules};
pub use space_end::{SpaceEnd, lease_name};
