//! Package queries: how they are read. Their trees, and how these are written, are those of `query_tree`.
#![tactic(auto)]

mod begin;
mod fault;
mod laws;
mod level;
mod read;
mod reader;
mod term;
mod value;

pub use fault::{QueryFault, QueryKind};
pub use laws::{queries_have_one_tree, queries_say_their_trees};
pub use query_tree::{
    Query, Test, write_query, written_query_is_one_line, written_query_is_read_back,
};
pub use read::{read_filter, read_query};
