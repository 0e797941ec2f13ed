//! The word that a term begins with.

ghost use Rattle.std.specs.Prelude.{◌≡◌, length, IfOk, MatchOption};
ghost use Rattle.std.specs.List.{before_first, after_first, position_or_len};
ghost use Rattle.query_tree.specs.Words.{is_underscore};
ghost use Rattle.query_grammar.specs.Reading.{as_reference, reference_in, begun};
ghost use Rattle.query_tree.specs.Tree.{plain, reference as reference_tree};
ghost use Rattle.query_grammar.specs.Views.{progress_view};

use crate::fault::QueryKind;
use crate::term::{Begun, Progress};
use ap_text::{Name, is_architecture};
use control_stanza::Text;
use deb_version::Version;
use query_tree::{Query, arch_of, is_field, is_package, package_of, version_of};
use std::alloc::{AllocError, Global};

/// What stands before the first `_`, and what follows it.
#[tactic(auto, using(std::proofs::lemmas::Str::Pattern::split_once_first))]
fn cut(text: &str) -> Option<(&str, &str)>
    ensures { MatchOption result
        (position_or_len is_underscore text.now ≡ length text.now)
        (λ p. (p.0.now ≡ before_first is_underscore text.now) × (p.1.now ≡ after_first is_underscore text.now)) }
{
    text.split_once('_')
}

fn reference_of(name: Name, version: Version, arch: Name) -> Query
    ensures { plain result ≡ reference_tree name version arch }
{
    Query::Reference {
        name,
        version,
        arch,
    }
}

/// The reference that the parts between the first two `_` make, if each is what it has to be.
fn reference_by_parts(
    alloc: Global,
    name: &str,
    version: &str,
    arch: &str,
) -> Result<Progress, AllocError>
    ensures { IfOk result (λ p. progress_view p ≡ reference_in name.now version.now arch.now) }
{
    if !is_package(name) {
        return Ok(Progress::Wrong(QueryKind::WantTerm));
    }
    let Some(version) = version_of(alloc, version)? else {
        return Ok(Progress::Wrong(QueryKind::WantTerm));
    };
    if !is_architecture(arch) {
        return Ok(Progress::Wrong(QueryKind::WantTerm));
    }
    let name = package_of(alloc, name)?;
    let arch = arch_of(alloc, arch)?;
    Ok(Progress::Whole(reference_of(name, version, arch)))
}

/// A word that is no name of a package or of a field: `name_version_arch`, or the word can't begin a term.
#[tactic(auto, using(crate::proofs::WordFacts::no_underscore_no_reference, crate::proofs::WordFacts::one_underscore_no_reference, crate::proofs::WordFacts::as_reference_by_parts))]
fn reference(alloc: Global, word: &str) -> Result<Progress, AllocError>
    ensures { IfOk result (λ p. progress_view p ≡ as_reference word.now) }
{
    let Some((name, rest)) = cut(word) else {
        return Ok(Progress::Wrong(QueryKind::WantTerm));
    };
    let Some((version, arch)) = cut(rest) else {
        return Ok(Progress::Wrong(QueryKind::WantTerm));
    };
    reference_by_parts(alloc, name, version, arch)
}

/// What a word begins where a term must begin.
#[tactic(auto, unfolding(crate::specs::Reading::begun))]
pub(crate) fn begin(alloc: Global, word: &str) -> Result<Progress, AllocError>
    ensures { IfOk result (λ p. progress_view p ≡ begun word.now) }
{
    if is_package(word) {
        let name = package_of(alloc, word)?;
        return Ok(Progress::GoesOn(Begun::Package(name)));
    }
    if is_field(word) {
        let field = Text::new(alloc, word)?;
        return Ok(Progress::GoesOn(Begun::Field(field)));
    }
    reference(alloc, word)
}
