//! Commands as values: what each is made of, and copies of them.
#![tactic(auto)]

mod command;
mod copying;
mod following;

pub use command::{Command, Follow, Origin};
pub use copying::copies;
pub use following::is_following;
