//! Indexes of binary packages: their text read (the Packages index of the Debian repository format).
#![tactic(auto)]

mod fault;
mod read;
mod relations;

pub use fault::IndexFault;
pub use read::read_packages;
