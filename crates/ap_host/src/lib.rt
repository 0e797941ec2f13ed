//! The outside of a store: its folder and its output, as one log of operations.
#![tactic(auto)]

mod bytes;
mod holders;
mod host;
mod images;
mod inbox;
mod laws;
mod mem;
mod mem_inbox;
mod names;
mod ordinals;
mod replay;
mod table;

pub use bytes::Bytes;
pub use host::{Host, HostErr, Op};
pub use inbox::{Inbox, InboxErr};
pub use laws::{law_of_absent, law_of_barrier, law_of_live_image, law_of_phases, law_of_untouched};
pub use mem::MemHost;
pub use mem_inbox::MemInbox;
