//! The state of a store: which files stand for which state, how it is loaded, and how it is committed so that a stop leaves the
//! old state or the new one.
#![tactic(auto)]

mod committing;
mod damage;
mod laws;
mod loading;
mod opening;

pub use committing::{commit, save};
pub use damage::{Damage, LoadFault};
pub use laws::{law_of_open_stores, stored_states_are_equal};
pub use loading::load;
pub use opening::{enter, open_store};
