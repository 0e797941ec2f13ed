//! Local repositories: their commands.
#![tactic(auto)]

mod checks;
mod creation;
mod early;
mod editing;
mod family;
mod lawful;
mod named;
mod naming;
mod packages;
mod replies;
mod settings;
mod shown;

pub use creation::create;
pub use editing::edit;
pub use family::{change, needs};
pub use lawful::repo_cases_are_lawful;
pub use naming::{drop, rename};
pub use package_intake::add;
pub use packages::{copy, import, remove, taken, transfer};
pub use shown::{list, show};
