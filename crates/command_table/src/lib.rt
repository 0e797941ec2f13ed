//! The table of commands: the words of each, its flags and its arguments.
#![tactic(auto)]

mod arguments;
mod flags;
mod table;

pub use arguments::arguments_fault;
pub use flags::{flags_len, standing_flags, switch_of, text_of, texts_of};
pub use table::{
    Arguments, Flag, Form, Kind, MirrorVerb, OtherVerb, PublishVerb, RepoVerb, Row, SnapshotVerb,
    find_row, is_group,
};
