//! Packages: what a binary stanza says of one, its identity, its order and its text.
#![tactic(auto)]

mod architecture;
mod bytes;
mod fault;
mod laws;
mod order;
mod package;
mod path;
mod reading;
mod said;
mod sizes;
mod source;
mod stored;
mod text;

pub use fault::{CompleteFault, PackageFault, Required};
pub use laws::{
    equal_packages_are_twins, file_lines_end_a_stanza, package_order_is_total, sizes_are_decimals,
    sources_are_found, texts_tell_packages_apart, triples_begin_the_order,
};
pub use order::{compare_packages, has_same_triple};
pub use package::Package;
pub use path::without_dots;
pub use reading::is_file_field;
pub use text::put_file_lines;
