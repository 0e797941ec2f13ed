//! The commands of mirrors, by their verbs.
#![tactic(auto)]

mod checks;
mod creation;
mod early;
mod family;
mod lawful;
mod names;
mod naming;
mod ordered;
mod settings;
mod shown;
mod updating;

pub use creation::create;
pub use family::{change, needs};
pub use lawful::mirror_cases_are_lawful;
pub use names::Part;
pub use naming::{drop, rename};
pub use shown::{list, show};
pub use updating::update;
