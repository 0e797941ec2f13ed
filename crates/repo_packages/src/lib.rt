//! The commands that give local repositories other packages: what is added, taken out, copied, moved and imported.
#![tactic(auto)]

mod addition;
mod checks;
mod early;
mod imports;
mod laws;
mod listing;
mod needs;
mod pairs;
mod removal;
mod replies;

pub use addition::add_packages;
pub use checks::{named_repo, there};
pub use imports::import_packages;
pub use laws::package_cases_are_lawful;
pub use needs::{addition_needs, import_needs, pair_needs, removal_needs};
pub use pairs::{copy_packages, move_packages};
pub use removal::remove_packages;
