//! What a command is in a state: why it is refused, what it reads, and what it comes to. This crate knows no command.
#![tactic(auto)]

mod laws;
mod names;
mod queries;
mod reading;

pub use laws::cases_are_stepped;
pub use names::{folder_of, name_of};
pub use package_list::without_of;
pub use queries::{chosen_in, found_in, prepare_queries, prepared, prepared_all, read_queries};
pub use reading::Reading;
