//! Lists of packages in their order, without equals, and how two of them are joined.
#![tactic(auto)]

mod apart;
mod by_triple;
mod fault;
mod gather;
mod join;
mod joined;
mod laws;
mod list;
mod parts;
mod place;
mod push;
mod reduce;
mod shared;

pub use fault::ListFault;
pub use joined::JoinedPackages;
pub use laws::{packages_join_in_turn, unions_have_what_either_has};
pub use list::{MOST_KNOWN, MOST_MEMBERS, PackageList};
pub use parts::{greatest_in, without_of};
pub use shared::{SharedPackage, share};
