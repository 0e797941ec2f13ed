//! The truth of queries on packages: relations, fields, shell patterns and regular expressions.
#![tactic(auto)]

mod asked;
mod copy;
mod expression;
mod fault;
mod field;
mod node;
mod patterns;
mod prepare;
mod prepared;
mod several;
mod truth;

pub use fault::EvalFault;
pub use patterns::{MemPatterns, PatternErr, Patterns, RegexPatterns};
pub use prepared::Prepared;
pub use several::is_any_true;
pub use shell_pattern::{glob_matches, globs_cut_values};
