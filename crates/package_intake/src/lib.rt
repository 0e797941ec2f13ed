//! What is taken in from the inbox: an index, the packages that it describes, and their files into the pool; and what arrives so of a
//! folder.
#![tactic(auto)]

mod arrive;
mod body;
mod by_package;
mod catalogue;
mod fault;
mod fit;
mod folder;
mod index;
mod join;
mod known;
mod laws;
mod taken;
mod taking;

pub use arrive::add;
pub use catalogue::check_known;
pub use fault::{absent, malformed, of_list};
pub use index::{path_below, read_entries, read_index, read_stated, read_within};
pub use join::{Paths, join as join_packages, split};
pub use laws::arrivals_fit;
pub use taking::{take_all, take_each};
