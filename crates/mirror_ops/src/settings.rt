//! The settings of a mirror.
ghost use Rattle.std.specs.Prelude.{◌≡◌, ◌≤◌, ℕ, List, Option, IfOk, IfErr, OnOk, None, Some};
ghost use Rattle.std.specs.Option.{option_map};
ghost use Rattle.query_tree.specs.Tree.{plain};
ghost use Rattle.step_model.specs.Answers.{AreBuilt, FaultIs, IsFirst, IsMemory, KeepsBy, QueriesRefuse, ToldBy};
ghost use Rattle.mirror_ops.specs.Settings.{asked, bad_among, bad_path, bad_settings, bad_text, bare_mirror as bare, filter_tree, filtered as filtered_as, in_order, written};
ghost use Rattle.mirror_ops.specs.declared.names.Part.TheVariants.{Architecture};

use crate::names::{Part, check_names, names_of};
use ap_text::{Name, SafePath, is_safe_path};
use control_stanza::Text;
use machine_state::{ChangeFault, Mirror, Refusal};
use query_eval::Patterns;
use query_grammar::{Query, read_query};
use std::alloc::{AllocError, Global};
use step_model::{name_of, prepared};

/// The architectures that are written can all be listed. The first that can't is refused as a bad name.
fn check_architectures(alloc: Global, texts: &Option<Vec<Text>>) -> Result<(), ChangeFault>
    ensures good { OnOk result (bad_among Architecture (written (option_map (λ v. v.items) texts.now)) ≡ None) }
    ensures fault { IfErr result (IsFirst (bad_among Architecture (written (option_map (λ v. v.items) texts.now)))) }
{
    match texts {
        Some(texts) => check_names(alloc, Part::Architecture, texts),
        None => Ok(()),
    }
}

/// The text as a path of at most so many bytes. Another one is refused as a bad name.
fn path_of(alloc: Global, most: u64, text: &Text) -> Result<SafePath, ChangeFault>
    ensures good { OnOk result (bad_path most text.now ≡ None) }
    ensures fault { IfErr result (IsFirst (bad_path most text.now)) }
    ensures same { IfOk result (λ path. path ≡ text.now) }
{
    if !is_safe_path(text.as_str()) || text.as_str().len() as u64 > most {
        return Err(ChangeFault::Refused(Refusal::BadName(text.copy(alloc)?)));
    }
    match SafePath::new(alloc, text.as_str()) {
        Ok(path) => Ok(path),
        Err(_) => Err(ChangeFault::OutOfMemory),
    }
}

/// A filter is text.
fn filters_are_text(filter: &Option<Text>)
    ensures { bad_text filter.now ≡ None }
{
    if let Some(text) = filter {
        text_is_utf8(text.as_str());
    }
}

/// A text is UTF-8.
fn text_is_utf8(text: &str)
    ensures { bad_text (Some text.now) ≡ None }
{}

/// The names that are written, in the order of their bytes and each once: none where the list isn't written.
fn written_names(alloc: Global, texts: &Option<Vec<Text>>) -> Result<Vec<Name>, AllocError>
    ensures { IfOk result (λ names. names.items ≡ in_order (written (option_map (λ v. v.items) texts.now))) }
{
    match texts {
        Some(texts) => names_of(alloc, texts),
        None => Ok(Vec::new(alloc)),
    }
}

/// The mirror of these settings as it is made without a filter. The first of them, in the order of the table of commands, that can't be a
/// mirror's is refused as a bad name.
pub(crate) fn settings_of(
    alloc: Global,
    architectures: &Option<Vec<Text>>,
    filter: &Option<Text>,
    name: &Text,
    archive: &Text,
    distribution: &Text,
    components: &[Text],
) -> Result<Mirror, ChangeFault>
    ensures good { OnOk result (bad_settings (option_map (λ v. v.items) architectures.now) filter.now name.now archive.now distribution.now components.now ≡ None) }
    ensures fault { IfErr result (IsFirst (bad_settings (option_map (λ v. v.items) architectures.now) filter.now name.now archive.now distribution.now components.now)) }
    ensures same { IfOk result (λ mirror. mirror ≡ bare (option_map (λ v. v.items) architectures.now) name.now archive.now distribution.now components.now) }
{
    check_architectures(alloc, architectures)?;
    filters_are_text(filter);
    let name = name_of(alloc, name)?;
    let archive = path_of(alloc, 200, archive)?;
    let distribution = path_of(alloc, 100, distribution)?;
    check_names(alloc, Part::Component, components)?;
    Ok(Mirror {
        name,
        archive,
        distribution,
        components: names_of(alloc, components)?,
        architectures: written_names(alloc, architectures)?,
        filter: None,
        with_deps: false,
        updated: None,
    })
}

/// The tree of a text that is a query.
fn tree_of(alloc: Global, text: &Text) -> Result<Query, ChangeFault>
    ensures tree { IfOk result (λ query. Some (plain query) ≡ filter_tree (Some text.now)) }
    ensures fits { IfErr result IsMemory }
{
    match read_query(alloc, text.as_str()) {
        Ok(query) => Ok(query),
        Err(_) => Err(ChangeFault::OutOfMemory),
    }
}

/// The filter, read and its patterns built as those of the first query of a command. None written is good.
pub(crate) fn filter_of<M: Patterns>(
    alloc: Global,
    filter: &Option<Text>,
    patterns: &mut M,
) -> Result<Option<Query>, ChangeFault>
    ensures tree { IfOk result (λ made. option_map plain made ≡ filter_tree filter.now) }
    ensures good { OnOk result (AreBuilt (asked filter.now)) }
    ensures fault { IfErr result (FaultIs (λ refusal. ToldBy M.Patterns patterns.old patterns.new (λ large. QueriesRefuse large (asked filter.now) refusal))) }
    ensures never_falls { M.refusals patterns.old ≤ M.refusals patterns.new }
    // Which text was refused for its size changes only where such a pattern is told.
    ensures kept { KeepsBy M.Patterns patterns.old patterns.new result }
{
    match filter {
        None => Ok(None),
        Some(text) => {
            prepared(alloc, text, patterns)?;
            Ok(Some(tree_of(alloc, text)?))
        }
    }
}

/// The mirror with this filter, and with what that depends on where it is asked for.
pub(crate) fn filtered(mirror: Mirror, filter: Option<Query>, with_deps: &Option<bool>) -> Mirror
    ensures { (text : Option (List ℕ)) → option_map plain filter ≡ filter_tree text → result ≡ filtered_as text with_deps.now mirror }
{
    let mut mirror = mirror;
    mirror.filter = filter;
    mirror.with_deps = with_deps.unwrap_or(false);
    mirror
}
