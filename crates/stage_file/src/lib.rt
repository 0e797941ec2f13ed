//! Files of a store are laid in the folder of staged files, synced, and then renamed to their paths, so that a stop leaves
//! a path with its old file or with its new one, whole.
#![tactic(auto)]

mod pieces;
mod staging;

pub use staging::{Stage, StageName};
