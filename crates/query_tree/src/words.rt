//! The words of queries: names of packages and of fields, architectures, versions.

ghost use Rattle.std.specs.Prelude.{◌≡◌, IsTrue, IsFalse, IfOk, MatchOption, slice_index};
ghost use Rattle.ap_text.specs.Names.{is_name, is_architecture as architecture};
ghost use Rattle.deb_version.specs.VersionText.{is_version};
ghost use Rattle.query_tree.specs.Words.{has_no_underscore as no_underscore, is_lower_or_digit as lower_or_digit, is_package as package_name, is_upper as upper, is_special_field as special_field, is_field as field_name, is_comparing as comparing, wants_version as asks_version, may_test as allows};

use crate::query::Test;
use ap_text::Name;
use deb_version::{Version, VersionFault};
use std::alloc::{AllocError, Global};

fn has_no_underscore(text: &[u8]) -> bool
    ensures { result ≡ no_underscore text.now }
{
    text.iter().all(|c| *c != b'_')
}

fn begins_lower_or_digit(text: &[u8]) -> bool
    ensures { result ≡ lower_or_digit (slice_index text.now 0) }
{
    match text {
        [] => false,
        [c, ..] => matches!(*c, b'a'..=b'z' | b'0'..=b'9'),
    }
}

/// The name of a wanted package: a name without `_` that begins with a lower case letter or a digit.
#[tactic(auto, unfolding(crate::specs::Words::is_package))]
pub fn is_package(word: &str) -> bool
    ensures { result ≡ package_name word.now }
{
    ap_text::is_name(word)
        && has_no_underscore(word.as_bytes())
        && begins_lower_or_digit(word.as_bytes())
}

fn begins_upper(text: &[u8]) -> bool
    ensures { result ≡ upper (slice_index text.now 0) }
{
    match text {
        [] => false,
        [c, ..] => matches!(*c, b'A'..=b'Z'),
    }
}

fn is_special_field(word: &str) -> bool
    ensures { result ≡ special_field word.now }
{
    word == "$Source"
        || word == "$SourceVersion"
        || word == "$Architecture"
        || word == "$Version"
        || word == "$PackageType"
}

/// The name of a field: a word that begins with an upper case letter, or one of the five special fields.
#[tactic(auto, unfolding(crate::specs::Words::is_field))]
pub fn is_field(word: &str) -> bool
    ensures { result ≡ field_name word.now }
{
    begins_upper(word.as_bytes()) || is_special_field(word)
}

fn is_comparing(test: Test) -> bool
    ensures { result ≡ comparing test }
{
    match test {
        Test::Glob | Test::Pattern => false,
        _ => true,
    }
}

/// A comparing test of `$Version` wants a version as its value.
#[tactic(auto, unfolding(crate::specs::Words::wants_version))]
fn wants_version(field: &str, test: Test) -> bool
    ensures { result ≡ asks_version field.now test }
{
    field == "$Version" && is_comparing(test)
}

/// The name that a text is.
fn name_of(alloc: Global, text: &str) -> Result<Name, AllocError>
    requires { IsTrue (is_name text.now) }
    ensures { IfOk result (λ name. name ≡ text.now) }
{
    match Name::new(alloc, text) {
        Ok(name) => Ok(name),
        Err(_) => Err(AllocError),
    }
}

/// The version that a text is, if it is one.
#[tactic(auto, unfolding(deb_version::specs::VersionText::is_version))]
pub fn version_of(alloc: Global, text: &str) -> Result<Option<Version>, AllocError>
    ensures { IfOk result (λ found. MatchOption found (IsFalse (is_version text.now)) (λ version. (version ≡ text.now) × IsTrue (is_version text.now))) }
{
    match Version::parse(alloc, text) {
        Ok(version) => Ok(Some(version)),
        Err(VersionFault::OutOfMemory) => Err(AllocError),
        Err(_) => Ok(None),
    }
}

/// The architecture that a text is.
#[tactic(auto, using(crate::proofs::WordFacts::arch_is_name))]
pub fn arch_of(alloc: Global, text: &str) -> Result<Name, AllocError>
    requires { IsTrue (architecture text.now) }
    ensures { IfOk result (λ name. name ≡ text.now) }
{
    name_of(alloc, text)
}

/// The package name that a text is.
#[tactic(auto, using(crate::proofs::WordFacts::package_is_name))]
pub fn package_of(alloc: Global, text: &str) -> Result<Name, AllocError>
    requires { IsTrue (package_name text.now) }
    ensures { IfOk result (λ name. name ≡ text.now) }
{
    name_of(alloc, text)
}

/// The value may stand in the test of the field.
#[tactic(auto, unfolding(crate::specs::Words::may_test))]
pub fn may_test(field: &str, test: Test, value: &str) -> bool
    ensures { result ≡ allows field.now test value.now }
{
    !wants_version(field, test) || deb_version::is_version(value)
}
