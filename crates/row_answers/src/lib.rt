//! What test programs print of what the calls of single crates answer.
#![tactic(auto)]

mod answers;
mod commands;
mod digests;
mod indexes;
mod lists;
mod names;
mod packages;
mod pools;
mod queries;
mod relations;
mod roots;
mod stanzas;
mod versions;

pub use answers::{Answer, reply};
pub use digests::{put_difference, put_digests, put_hexadecimal};
pub use lists::put_last;
pub use packages::{put_held, put_text, put_triple};
pub use roots::put_state;
pub use stanzas::{put_stanza, put_stanzas};
pub use versions::relation_text;
