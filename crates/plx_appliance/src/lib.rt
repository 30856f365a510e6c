//! One boot of an appliance under leases: a machine that asks, and is answered.
#![tactic(auto)]

mod appliance;
mod attach;
mod begun;
mod detach;
mod empty;
mod entering;
mod fitting;
mod holdings;
mod lease;
mod renew;
mod renewals;
mod renewing;
mod reserve;
mod retire;
mod retiring;
mod rules;
mod sessions;
mod work;

pub use appliance::{Appliance, Stage};
pub use attach::{Attach, ImageClaim};
pub use begun::{Begun, Need, Room};
pub use detach::Detach;
pub use entering::enter;
pub use fitting::fits;
pub use holdings::Holdings;
pub use lease::Leases;
pub use renew::Renew;
pub use renewals::Renewals;
pub use reserve::Reserve;
pub use retire::{Retire, RetireStage};
pub use rules::appliances_keep_rules;
pub use sessions::Sessions;
pub use work::Work;
