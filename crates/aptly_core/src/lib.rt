//! The machine over a store: the state is loaded from it, each command is decided and committed before its reply is said, and
//! whatever moment a call is stopped at, the store stands for the state after some first commands.
#![tactic(auto)]

mod decide;
mod fault;
mod laws;
mod run;
mod status;

pub use catalogue_root::{Damage, stored_states_are_equal};
pub use fault::RunFault;
pub use laws::{calls_begin_on_nothing, calls_hand_over, calls_that_say_hand_over};
pub use run::{aptly, run_one};
pub use status::Status;
