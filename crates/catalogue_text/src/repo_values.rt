//! The lines of a repository that give one value each.
ghost use Rattle.std.specs.Prelude.{◌≡◌, ℕ, List, [], Option, IfOk, IfSome, MatchOption, IsTrue, unwrap_or};
ghost use Rattle.ap_text.specs.Names.{is_component as component};
ghost use Rattle.machine_state.specs.State.{IsLineText};
ghost use Rattle.catalogue_text.specs.Root.{comment_line as comment_spelled, distribution_line as distribution_spelled, component_line as component_spelled};
ghost use Rattle.catalogue_lines.specs.PartForms.{IsName};
ghost use Rattle.catalogue_lines.specs.Reading.{NoLine, ReadsLine};

use ap_text::{Name, is_component};
use catalogue_lines::{key_line, line_text_of, name_line, name_of_bytes, setting};
use control_stanza::Text;
use std::alloc::{AllocError, Global};

/// A line with the comment on a repository.
pub(crate) fn comment_line(alloc: Global, text: &[u8]) -> Result<Option<(Text, &[u8])>, AllocError>
    ensures { IfOk result (λ found. MatchOption found (NoLine comment_spelled IsLineText text.now) (λ p. ReadsLine comment_spelled IsLineText text.now p.0 p.1.now)) }
{
    match key_line(text, "comment") {
        None => Ok(None),
        Some((written, rest)) => match setting(written) {
            None => Ok(None),
            Some(value) => match line_text_of(alloc, value)? {
                None => Ok(None),
                Some(comment) => Ok(Some((comment, rest))),
            },
        },
    }
}

fn optional_name(alloc: Global, value: &[u8]) -> Result<Option<Option<Name>>, AllocError>
    ensures { IfOk result (λ found. MatchOption found ((n : Option (List ℕ)) → IfSome n IsName → value.now ≡ unwrap_or n [] → ⊥) (λ n. IfSome n IsName × (value.now ≡ unwrap_or n []))) }
{
    if value.is_empty() {
        return Ok(Some(None));
    }
    match name_of_bytes(alloc, value)? {
        None => Ok(None),
        Some(name) => Ok(Some(Some(name))),
    }
}

/// A line with the distribution of a repository.
pub(crate) fn distribution_line(
    alloc: Global,
    text: &[u8],
) -> Result<Option<(Option<Name>, &[u8])>, AllocError>
    ensures { IfOk result (λ found. MatchOption found (NoLine distribution_spelled (λ n. IfSome n IsName) text.now) (λ p. ReadsLine distribution_spelled (λ n. IfSome n IsName) text.now p.0 p.1.now)) }
{
    match key_line(text, "distribution") {
        None => Ok(None),
        Some((written, rest)) => match setting(written) {
            None => Ok(None),
            Some(value) => match optional_name(alloc, value)? {
                None => Ok(None),
                Some(distribution) => Ok(Some((distribution, rest))),
            },
        },
    }
}

/// A line with the component of a repository.
pub(crate) fn component_line(
    alloc: Global,
    text: &[u8],
) -> Result<Option<(Name, &[u8])>, AllocError>
    ensures { IfOk result (λ found. MatchOption found (NoLine component_spelled (λ n. IsTrue (component n)) text.now) (λ p. ReadsLine component_spelled (λ n. IsTrue (component n)) text.now p.0 p.1.now)) }
{
    match name_line(alloc, text, "component ")? {
        None => Ok(None),
        Some((name, rest)) => {
            if is_component(name.as_str()) {
                Ok(Some((name, rest)))
            } else {
                Ok(None)
            }
        }
    }
}
