//! The language of the rows that test programs answer: what a line's arguments are, and the small texts of answers.
#![tactic(auto)]

mod answers;
mod desk;
mod given;
mod row;
mod stop;

pub use answers::{put, put_at, put_bytes, put_order, sign_of, yes_or_no};
pub use desk::Desk;
pub use given::{bytes_of, decoded, first_word, number_of, text_of};
pub use row::{answered, extend_base};
pub use stop::Stop;
