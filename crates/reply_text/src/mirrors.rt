//! The replies of commands on mirrors.
ghost use Rattle.std.specs.Prelude.{◌≡◌, ◌++◌, codes, IfOk, OnOk, string_bytes, length};
ghost use Rattle.std.specs.List.{flat_map};
ghost use Rattle.std.specs.Option.{option_map};
ghost use Rattle.query_tree.specs.Tree.{plain};
ghost use Rattle.reply_text.specs.Words.{line as line_of, blank_and, filter_text as filter_text_of};
ghost use Rattle.reply_text.specs.Mirrors.{mirror_created as created, mirror_updated as updated, mirror_renamed as renamed, mirror_dropped as dropped, fetched_list, mirror_line, mirror_list as listed, origin_lines, names_lines, filter_lines, fetched_lines, mirror_show as shown};

use crate::put::{put_asked, put_count, put_line, put_listed, put_names, put_setting, whole_line};
use ap_text::{Name, SafePath};
use control_stanza::Text;
use machine_state::{Fetched, Mirror, State, filter_text, yes_or_no};
use query_tree::Query;
use std::alloc::{AllocError, Global};

/// The reply to a mirror's making: `Mirror <name> created.` Fails only for want of memory.
#[tactic(auto, unfolding(crate::specs::Mirrors::mirror_created))]
pub fn mirror_created(alloc: Global, name: &Name) -> Result<Text, AllocError>
    ensures { IfOk result (λ text. text ≡ created name.now) }
{
    let text = format!(in alloc; "Mirror {} created.", name.as_str())?;
    whole_line(alloc, text.as_str())
}

/// The reply to an update: `Mirror <name> updated: <packages> packages.` Fails only for want of memory.
#[tactic(auto, unfolding(crate::specs::Mirrors::mirror_updated), using(std::proofs::Common::append_assoc))]
pub fn mirror_updated(alloc: Global, name: &Name, packages: u64) -> Result<Text, AllocError>
    ensures { IfOk result (λ text. text ≡ updated name.now packages) }
{
    let text = format!(in alloc; "Mirror {} updated: {} packages.", name.as_str(), packages)?;
    whole_line(alloc, text.as_str())
}

/// The reply to a renaming: `Mirror <before> renamed to <after>.` Fails only for want of memory.
#[tactic(auto, unfolding(crate::specs::Mirrors::mirror_renamed), using(std::proofs::Common::append_assoc))]
pub fn mirror_renamed(alloc: Global, before: &Name, after: &Name) -> Result<Text, AllocError>
    ensures { IfOk result (λ text. text ≡ renamed before.now after.now) }
{
    let text = format!(in alloc; "Mirror {} renamed to {}.", before.as_str(), after.as_str())?;
    whole_line(alloc, text.as_str())
}

/// The reply to a mirror's removal: `Mirror <name> dropped.` Fails only for want of memory.
#[tactic(auto, unfolding(crate::specs::Mirrors::mirror_dropped))]
pub fn mirror_dropped(alloc: Global, name: &Name) -> Result<Text, AllocError>
    ensures { IfOk result (λ text. text ≡ dropped name.now) }
{
    let text = format!(in alloc; "Mirror {} dropped.", name.as_str())?;
    whole_line(alloc, text.as_str())
}

/// How many packages were fetched.
fn fetched_count(fetched: &Option<Fetched>) -> usize
    ensures { result ≡ length (fetched_list fetched.now) }
{
    match fetched {
        None => 0,
        Some(fetched) => fetched.list.len(),
    }
}

#[tactic(auto, unfolding(crate::specs::Mirrors::mirror_line))]
fn put_each(out: &mut String, mirrors: &[Mirror]) -> Result<(), AllocError>
    ensures { OnOk result (string_bytes out.new ≡ string_bytes out.old ++ flat_map mirror_line mirrors.now) }
{
    for mirror in mirrors {
        put_listed(out, &mirror.name, fetched_count(&mirror.updated))?;
    }
    Ok(())
}

/// The reply of `mirror list`: `Mirrors: <n>`, and then ` * <name> [<packages>]` for each mirror in the order of their names, 0
/// packages for one that was never updated. Fails only for want of memory.
#[tactic(auto, unfolding(crate::specs::Mirrors::mirror_list, crate::specs::Words::line), using(std::proofs::Common::append_assoc))]
pub fn mirror_list(alloc: Global, state: &State) -> Result<Text, AllocError>
    ensures { IfOk result (λ text. text ≡ listed state.now.mirrors) }
{
    let mut out = format!(in alloc; "Mirrors: {}\n", state.mirrors.len())?;
    put_each(&mut out, &state.mirrors)?;
    Text::new(alloc, out.as_str())
}

/// The line of a filter.
fn put_filter(alloc: Global, out: &mut String, filter: &Option<Query>) -> Result<(), AllocError>
    ensures { OnOk result (string_bytes out.new ≡ string_bytes out.old ++ line_of (codes "Filter:" ++ blank_and (filter_text_of (option_map plain filter.now)))) }
{
    let text = filter_text(alloc, filter)?;
    put_setting(out, "Filter:", text.as_str())
}

#[tactic(auto, unfolding(crate::specs::Mirrors::origin_lines), using(std::proofs::Common::append_assoc))]
fn put_origin(
    out: &mut String,
    name: &Name,
    archive: &SafePath,
    distribution: &SafePath,
) -> Result<(), AllocError>
    ensures { OnOk result (string_bytes out.new ≡ string_bytes out.old ++ origin_lines name.now archive.now distribution.now) }
{
    put_line(out, "Name: ", name.as_str())?;
    put_line(out, "Archive: ", archive.as_str())?;
    put_line(out, "Distribution: ", distribution.as_str())
}

#[tactic(auto, unfolding(crate::specs::Mirrors::names_lines), using(std::proofs::Common::append_assoc))]
fn put_wanted_names(
    out: &mut String,
    components: &[Name],
    architectures: &[Name],
) -> Result<(), AllocError>
    ensures { OnOk result (string_bytes out.new ≡ string_bytes out.old ++ names_lines components.now architectures.now) }
{
    put_names(out, "Components:", components)?;
    put_names(out, "Architectures:", architectures)
}

#[tactic(auto, unfolding(crate::specs::Mirrors::filter_lines), using(std::proofs::Common::append_assoc))]
fn put_wanted(
    alloc: Global,
    out: &mut String,
    filter: &Option<Query>,
    with_deps: bool,
) -> Result<(), AllocError>
    ensures { OnOk result (string_bytes out.new ≡ string_bytes out.old ++ filter_lines (option_map plain filter.now) with_deps) }
{
    put_filter(alloc, out, filter)?;
    put_line(out, "Filter-With-Deps: ", yes_or_no(with_deps))
}

#[tactic(auto, unfolding(crate::specs::Mirrors::fetched_lines), using(std::proofs::Common::append_assoc))]
fn put_fetched(
    alloc: Global,
    out: &mut String,
    fetched: &Option<Fetched>,
    with_packages: bool,
) -> Result<(), AllocError>
    ensures { OnOk result (string_bytes out.new ≡ string_bytes out.old ++ fetched_lines fetched.now with_packages) }
{
    let Some(fetched) = fetched else {
        return put_line(out, "Packages: never updated", "");
    };
    put_setting(out, "Date:", fetched.date.as_str())?;
    put_count(out, fetched.list.len())?;
    put_asked(alloc, out, &fetched.list, with_packages)
}

/// The reply of `mirror show`: the lines `Name: <name>`, `Archive: <path>`, `Distribution: <path>`, `Components:` and `Architectures:`
/// with a blank before each name, `Filter:` with the query as it is written, `Filter-With-Deps: yes` or `no`; then `Date:` and
/// `Packages: <n>`, or `Packages: never updated` in place of both; and, where the packages are asked for, a blank and
/// `name_version_arch` for each in the order of the list. Fails only for want of memory.
#[tactic(auto, unfolding(crate::specs::Mirrors::mirror_show), using(std::proofs::Common::append_assoc))]
pub fn mirror_show(alloc: Global, mirror: &Mirror, with_packages: bool) -> Result<Text, AllocError>
    ensures { IfOk result (λ text. text ≡ shown mirror.now with_packages) }
{
    let mut out = String::new(alloc);
    put_origin(
        &mut out,
        &mirror.name,
        &mirror.archive,
        &mirror.distribution,
    )?;
    put_wanted_names(&mut out, &mirror.components, &mirror.architectures)?;
    put_wanted(alloc, &mut out, &mirror.filter, mirror.with_deps)?;
    put_fetched(alloc, &mut out, &mirror.updated, with_packages)?;
    Text::new(alloc, out.as_str())
}
