//! The size and the digests of a byte list, taken in pieces, and what is said of it beside them.
#![tactic(auto)]

mod difference;
mod facts;
mod hasher;
mod written;

pub use difference::mismatch;
pub use facts::{Digests, Said, What};
pub use hasher::{Hashing, digests_of};
pub use written::{Digits, digest_of_hex};
