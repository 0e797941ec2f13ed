//! Versions of Debian packages: their texts, their order and the relations between them (Debian Policy 5.6.12).
#![tactic(auto)]

mod laws;
mod order;
mod parts;
mod runs;
mod text;

pub use laws::{
    equal_versions_may_differ_as_texts, version_bytes_are_few, version_is_spelled_by_its_parts,
    version_order_is_total, version_part_is_made_of_its_cuts,
};
pub use order::{Relation, compare, copy_relation, meets};
pub use text::{Version, VersionFault, is_version};
