//! Snapshots: their commands.
#![tactic(auto)]

mod checks;
mod creation;
mod early;
mod family;
mod filtering;
mod lawful;
mod merging;
mod naming;
mod replies;
mod shown;
mod way;

pub use creation::create;
pub use family::{change, needs};
pub use filtering::{filter, search};
pub use lawful::snapshot_cases_are_lawful;
pub use merging::merge;
pub use naming::{drop, rename};
pub use shown::{list, show};
pub use snapshot_pull::pull;
pub use way::Way;
