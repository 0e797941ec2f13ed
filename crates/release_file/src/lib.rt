//! Release files: what one says of an archive (the Debian repository format), read.
#![tactic(auto)]

mod date;
mod fault;
mod listing;
mod names;
mod once;
mod ordered;
mod read;
mod release;
mod words;

pub use fault::ReleaseFault;
pub use listing::Listed;
pub use read::read_release;
pub use release::Release;
