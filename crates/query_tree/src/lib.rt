//! Package queries as trees: their words, the pieces and the grammar of their texts, and how they are written.
#![tactic(auto)]

mod copy;
mod laws;
mod piece;
mod query;
mod words;
mod write;
mod write_tree;

pub use laws::{written_query_is_one_line, written_query_is_read_back};
pub use piece::{Cut, Place, Shape, first_cut, next_place};
pub use query::{Query, Test};
pub use words::{arch_of, is_field, is_package, may_test, package_of, version_of};
pub use write_tree::write_query;
