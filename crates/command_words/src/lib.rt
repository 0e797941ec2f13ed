//! The words of a command line, read as commands of the repository manager.
#![tactic(auto)]

mod build;
mod commands;
mod demo;
mod fault;
mod laws;
mod list;
mod piece;
mod read;
mod words;

pub use command_value::{Command, Follow, Origin};
pub use commands::read_words;
pub use fault::WordFault;
pub use laws::{fronts_complete, one_usage_place};
pub use words::Words;
