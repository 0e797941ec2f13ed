//! Names, safe paths and decimal numbers: the small texts that everything in a store is named by.
#![tactic(auto)]

mod decimal;
mod fault;
mod laws;
mod name;
mod path;

pub use decimal::{read_decimal, write_decimal};
pub use fault::TextFault;
pub use laws::{
    decimals_are_names, fronts_of_names, joined_paths, names_are_paths, numbers_are_decimals,
};
pub use name::{Name, is_architecture, is_component, is_name, is_package_name};
pub use path::{SafePath, is_safe_path};
