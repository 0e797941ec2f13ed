//! The lines of a root text, both ways: its pieces, the values that lines give, the packages that are known, and lists of them.
#![tactic(auto)]

mod known;
mod lines;
mod names;
mod put;
mod sets;
mod shared_values;
mod stop;
mod values;
mod write_packages;

pub use known::{Known, read_known};
pub use lines::{after_line, as_text, end_before, is_ended, key_line, line_before, line_ends};
pub use names::follows;
pub use put::{put_count, put_fixed, put_line, put_names, put_number, put_setting};
pub use sets::{named_member, read_set};
pub use shared_values::{Listed, names_line, path_of_bytes};
pub use stop::Stop;
pub use values::{count_line, line_text_of, name_line, name_of_bytes, setting};
pub use write_packages::{put_known, put_set};
