//! Control texts of Debian: stanzas of named fields, read, looked up and written (Debian Policy 5.1).
#![tactic(auto)]

mod begun;
mod fault;
mod gathered;
mod line;
mod read;
mod series;
mod stanza;
mod text;
mod write;

pub use fault::{StanzaFault, StanzaKind};
pub use read::{read_stanzas, read_stored};
pub use series::series_are_read;
pub use stanza::{Field, Stanza};
pub use text::Text;
pub use write::write_stanza;
