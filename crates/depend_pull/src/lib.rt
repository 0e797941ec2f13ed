//! Pulls: what is taken of a list of packages by queries, with what that depends on.
#![tactic(auto)]

mod by_seed;
mod flags;
mod grow;
mod laws;
mod places;
mod pull;
mod satisfier;
mod seeds;

pub use flags::{PullFlags, Pulled};
pub use laws::{passed_places_stay_passed, pulls_leave_nothing_to_take};
pub use pull::{pull_set, with_deps};
