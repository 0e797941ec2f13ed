//! What queries choose of a list, with what that depends on where it is asked for.
#![tactic(auto)]

mod archs;
mod by_name;
mod check;
mod choice;
mod laws;

pub use archs::{archs_for, archs_for_both};
pub use check::check_follow;
pub use choice::choose;
pub use laws::choices_are_of_the_list;
