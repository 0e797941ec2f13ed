//! An archive arrives for a mirror: its Release, the indexes that are wanted of it, and the files of the packages that the filter chooses.
#![tactic(auto)]

mod arrive;
mod filter;
mod indexes;
mod laws;
mod release;
mod wanted;

pub use arrive::update;
pub use laws::archives_fit;
pub use release::fetch_release;
