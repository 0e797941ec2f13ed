//! One step of the machine: what a command comes to in a state.
#![tactic(auto)]

mod family;
mod laws;
mod needs;
mod outcome;
mod packages;
mod steps;

pub use family::Family;
pub use laws::laws_of_steps;
pub use needs::need;
pub use outcome::Outcome;
pub use step_model::Reading;
pub use steps::{step, step_at};
