//! The pool of a store: files under the names of their SHA-256.
#![tactic(auto)]

mod fault;
mod laws;
mod lodging;
mod name;
mod pool;
mod reading;
mod taking;

pub use fault::PoolFault;
pub use laws::{law_of_growth, law_of_pool_names};
pub use lodging::put;
pub use name::pool_path;
pub use pool::{get, has, length};
pub use reading::{read_file, read_input, read_whole};
pub use taking::take;
