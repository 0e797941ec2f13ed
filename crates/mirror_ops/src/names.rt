//! Lists of names, as words state them.
ghost use Rattle.std.specs.Prelude.{◌≡◌, [], IfOk, IfErr, OnOk, None};
ghost use Rattle.step_model.specs.Answers.{IsFirst, IsMemory};
ghost use Rattle.mirror_ops.specs.Settings.{bad_among, bad_word, fits as fits_as, in_order as ordered};

use crate::ordered::{Word, in_order};
use ap_text::{Name, is_architecture, is_component};
use control_stanza::Text;
use machine_state::{ChangeFault, Refusal};
use std::alloc::{AllocError, Global};
use std::collections::BTreeSet;

/// What the names of a list are in a mirror.
#[derive(Clone, Copy)]
pub enum Part {
    /// Components: each a name other than `Release`.
    Component,
    /// Architectures that can be listed: each a name other than `source` and `all`.
    Architecture,
}

/// Whether the text can be one of these.
fn fits(part: Part, text: &str) -> bool
    ensures { result ≡ fits_as part text.now }
{
    match part {
        Part::Component => is_component(text),
        Part::Architecture => is_architecture(text) && text != "all",
    }
}

/// The text can be one of these. Another one is refused as a bad name.
fn check_word(alloc: Global, part: Part, text: &Text) -> Result<(), ChangeFault>
    ensures good { OnOk result (bad_word (fits_as part text.now) text.now ≡ None) }
    ensures fault { IfErr result (IsFirst (bad_word (fits_as part text.now) text.now)) }
{
    if fits(part, text.as_str()) {
        return Ok(());
    }
    Err(ChangeFault::Refused(Refusal::BadName(text.copy(alloc)?)))
}

/// Each of the texts can be one of these. The first that can't is refused as a bad name.
pub(crate) fn check_names(alloc: Global, part: Part, texts: &[Text]) -> Result<(), ChangeFault>
    ensures good { OnOk result (bad_among part texts.now ≡ None) }
    ensures fault { IfErr result (IsFirst (bad_among part texts.now)) }
{
    for i in 0..texts.len() {
        check_word(alloc, part, &texts[i])?;
    }
    Ok(())
}

/// The texts in the order of their bytes, each once.
fn set_of<'a>(alloc: Global, texts: &'a [Text]) -> Result<BTreeSet<Word<'a>>, AllocError>
    ensures { IfOk result (λ set. set.keys ≡ ordered texts.now) }
{
    let mut words = Vec::new(alloc);
    for text in texts {
        words.push(Word::new(text.as_str()))?;
    }
    in_order(alloc, &words)
}

/// The word as a name, which it is.
fn named(alloc: Global, text: &str) -> Result<Name, AllocError>
    ensures { IfOk result (λ name. name ≡ text.now) }
{
    match Name::new(alloc, text) {
        Ok(name) => Ok(name),
        Err(_) => Err(AllocError),
    }
}

/// The names of a set, in their order.
fn names_in<'a>(alloc: Global, set: BTreeSet<Word<'a>>) -> Result<Vec<Name>, AllocError>
    ensures { IfOk result (λ names. names.items ≡ set.entry.keys) }
{
    let mut names = Vec::with_capacity(alloc, set.len())?;
    for word in set {
        names.push(named(alloc, word.text())?)?;
    }
    Ok(names)
}

/// The texts as names, which they are, in the order of their bytes and each once. It takes n log n comparisons.
pub(crate) fn names_of(alloc: Global, texts: &[Text]) -> Result<Vec<Name>, AllocError>
    ensures { IfOk result (λ names. names.items ≡ ordered texts.now) }
{
    let set = set_of(alloc, texts)?;
    names_in(alloc, set)
}
