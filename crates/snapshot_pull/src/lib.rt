//! Pulls of one snapshot onto another, and what all commands of snapshots have in common.
#![tactic(auto)]

mod checks;
mod early;
mod lawful;
mod making;
mod needs;
mod onto;
mod pulling;
mod replies;

pub use checks::{free, there};
pub use lawful::pulls_are_lawful;
pub use making::made;
pub use needs::pull_needs;
pub use pulling::pull;
