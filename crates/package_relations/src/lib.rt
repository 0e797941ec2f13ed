//! What a package asks for and gives: its relation fields, when it satisfies one, and which of several is the greatest.
#![tactic(auto)]

mod fields;
mod laws;
mod offer;
mod order;
mod satisfied;

pub use fields::{RelationField, groups_of, provided};
pub use laws::{
    packages_ask_for_what_they_say, packages_provide_what_they_say, version_first_order_is_total,
};
pub use offer::Offer;
pub use order::compare_by_version;
pub use satisfied::{is_satisfied, satisfies};
