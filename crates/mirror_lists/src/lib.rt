//! Mirrors by name, and what they fetched last.
#![tactic(auto)]

mod fetched;

pub use fetched::{fetched_there, mirror_there, updated_of};
