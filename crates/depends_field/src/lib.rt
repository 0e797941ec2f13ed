//! Relation fields of packages: what they depend on, conflict with and provide (Debian Policy 7.1, 7.5).
#![tactic(auto)]

mod alternative;
mod fault;
mod laws;
mod phase;
mod pieces;
mod read;
mod state;

pub use alternative::{Alternative, Group};
pub use fault::DependsFault;
pub use laws::{fields_have_one_reading, fields_say_their_groups};
pub use read::{read_depends, read_provides};
