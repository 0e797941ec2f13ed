//! The state of the machine, when it is valid, and why a command is refused.
#![tactic(auto)]

mod arrived;
mod change;
mod copied;
mod fetched;
mod limit;
mod mirror;
mod named;
mod publication;
mod refusal;
mod repo;
mod snapshot;
mod sources;
mod state;
mod texts;
mod words;

pub use arrived::{Arrived, UpdateFault};
pub use change::{Change, ChangeFault};
pub use fetched::Fetched;
pub use limit::{Kind, Limit};
pub use mirror::Mirror;
pub use named::{Named, find_named, place_of_name, put_named, set_named, take_named};
pub use publication::{Generation, Publication, place_of_publication};
pub use refusal::Refusal;
pub use repo::{Repo, place_of_repo};
pub use snapshot::Snapshot;
pub use sources::{in_use, rename_sources};
pub use state::State;
pub use texts::{is_line, is_line_text};
pub use words::{filter_text, kind_word, prefix_word, put_blank_and, put_names_behind, yes_or_no};
