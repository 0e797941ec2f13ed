//! Shell patterns: which texts a pattern stands for.
#![tactic(auto)]

mod class;
mod element;
mod glob;
mod glob_end;
mod last;
mod laws;
mod letter;
mod literal;

pub use glob::glob_matches;
pub use laws::globs_cut_values;
