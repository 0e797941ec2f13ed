//! Fields of a package as queries see them, and their tests.

ghost use Rattle.std.specs.Prelude.{◌≡◌, IfOk, Some};
ghost use Rattle.std.specs.Option.{option_copied};
ghost use Rattle.query_eval.specs.Truth.{value_in, version_compares, is_for_all as for_all, text_compares, compares as stands_so};

use deb_version::{Relation, Version, VersionFault, meets};
use package_core::{Package, is_file_field};
use std::alloc::{AllocError, Global};

/// The value of a field, if it is there.
#[tactic(auto, unfolding(crate::specs::Truth::value_in))]
pub(crate) fn value_of<'p>(candidate: &'p Package, name: &str) -> Option<&'p str>
    ensures { option_copied result ≡ value_in candidate.now name.now }
{
    match name {
        "Name" | "Package" => Some(candidate.name.as_str()),
        "$Version" => Some(candidate.version.as_str()),
        "$Architecture" => Some(candidate.arch.as_str()),
        "$Source" => Some(candidate.source().0),
        "$SourceVersion" => Some(candidate.source().1),
        "$PackageType" => Some("deb"),
        _ => {
            if is_file_field(name) {
                None
            } else {
                candidate.stanza.get(name)
            }
        }
    }
}

fn is_for_all(asked: Relation, arch: &str) -> bool
    ensures { result ≡ for_all asked arch.now }
{
    match asked {
        Relation::Equal => arch == "all",
        _ => false,
    }
}

#[tactic(auto, unfolding(deb_version::specs::VersionText::is_version))]
fn compares_as_version(
    alloc: Global,
    asked: Relation,
    version: &Version,
    text: &str,
) -> Result<bool, AllocError>
    ensures { IfOk result (λ b. b ≡ version_compares asked version.now text.now) }
{
    match Version::parse(alloc, text) {
        Ok(other) => Ok(meets(version, asked, &other)),
        Err(VersionFault::OutOfMemory) => Err(AllocError),
        Err(_) => Ok(false),
    }
}

/// Whether a field's value stands in the relation to a text.
#[tactic(auto, unfolding(crate::specs::Truth::compares))]
pub(crate) fn compares(
    alloc: Global,
    candidate: &Package,
    name: &str,
    asked: Relation,
    value: &str,
    text: &str,
) -> Result<bool, AllocError>
    requires { value_in candidate.now name.now ≡ Some value.now }
    ensures { IfOk result (λ b. b ≡ stands_so name.now asked value.now text.now) }
{
    if name == "$Version" {
        return compares_as_version(alloc, asked, &candidate.version, text);
    }
    let stands = asked.holds(value.cmp(text));
    Ok(stands || (name == "$Architecture" && is_for_all(asked, value)))
}
