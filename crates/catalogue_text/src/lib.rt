//! The root text: a state as a store keeps it, written and read back.
#![tactic(auto)]

mod fault;
mod laws;
mod mirror_values;
mod mirrors;
mod place;
mod read;
mod repo_values;
mod repos;
mod snapshots;
mod write;
mod write_mirrors;

pub use fault::RootFault;
pub use laws::laws_of_root_texts;
pub use place::publications_line;
pub use read::read_root;
pub use write::root_text;
