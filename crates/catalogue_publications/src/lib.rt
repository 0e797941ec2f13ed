//! The publications of a root text, both ways.
#![tactic(auto)]

mod generations;
mod publication_sources;
mod publication_values;
mod publications;
mod write_publications;

pub use publications::read_publications;
pub use write_publications::put_publications;
