//! The architectures whose dependencies are followed.
ghost use Rattle.std.specs.Prelude.{◌≡◌, ◌++◌, ◌∷◌, [], IfOk, OnOk, None};
ghost use Rattle.command_value.specs.Plain.{plain_follow};
ghost use Rattle.package_core.specs.Order.{text_cmp};
ghost use Rattle.package_list.specs.Sorted.{union};
ghost use Rattle.package_choice.specs.Choice.{all_archs, archs_for as archs_of, archs_met, bad_archs, bad_follow, or_all};

use crate::by_name::ByName;
use ap_text::Name;
use command_value::Follow;
use control_stanza::Text;
use package_core::Package;
use package_list::PackageList;
use std::alloc::{AllocError, Global};
use std::collections::BTreeSet;

/// The text as a name, which it is.
fn named(alloc: Global, text: &str) -> Result<Name, AllocError>
    ensures { IfOk result (λ name. name ≡ text.now) }
{
    match Name::new(alloc, text) {
        Ok(name) => Ok(name),
        Err(_) => Err(AllocError),
    }
}

/// The texts as names, which they are.
fn names_of(alloc: Global, texts: &[Text]) -> Result<Vec<Name>, AllocError>
    ensures { IfOk result (λ names. names.items ≡ texts.now) }
{
    let mut names = Vec::new(alloc);
    for text in texts {
        names.push(named(alloc, text.as_str())?)?;
    }
    Ok(names)
}

/// These names, each once.
fn set_of<'a>(alloc: Global, names: &'a [Name]) -> Result<BTreeSet<ByName<'a>>, AllocError>
    ensures { IfOk result (λ set. set.keys ≡ union text_cmp [] names.now) }
{
    let mut set = BTreeSet::new(alloc);
    for name in names {
        set.insert(ByName::new(name))?;
    }
    Ok(set)
}

/// The names of a set, in their order.
fn names_in<'a>(alloc: Global, set: BTreeSet<ByName<'a>>) -> Result<Vec<Name>, AllocError>
    ensures { IfOk result (λ names. names.items ≡ set.entry.keys) }
{
    let mut names = Vec::with_capacity(alloc, set.len())?;
    for member in set {
        names.push(member.name().copy(alloc)?)?;
    }
    Ok(names)
}

/// The architectures that are written, in their order and each once.
fn archs_written(alloc: Global, texts: &[Text]) -> Result<Vec<Name>, AllocError>
    ensures { IfOk result (λ archs. archs.items ≡ union text_cmp [] texts.now) }
{
    let names = names_of(alloc, texts)?;
    let set = set_of(alloc, &names)?;
    names_in(alloc, set)
}

/// With the package's architecture, unless that is `all`.
fn meet<'a>(set: &mut BTreeSet<ByName<'a>>, member: &'a Package) -> Result<(), AllocError>
    ensures { OnOk result (set.new.keys ≡ union text_cmp set.old.keys (archs_met (member.now ∷ []))) }
{
    if member.arch.as_str() != "all" {
        set.insert(ByName::new(&member.arch))?;
    }
    Ok(())
}

/// With the architectures of these packages, but `all`.
fn meet_all<'a>(set: &mut BTreeSet<ByName<'a>>, list: &'a PackageList) -> Result<(), AllocError>
    ensures { OnOk result (set.new.keys ≡ union text_cmp set.old.keys (archs_met list.now)) }
{
    for member in list.as_slice() {
        meet(set, member.package())?;
    }
    Ok(())
}

/// The architectures of both lists but `all`, in their order and each once.
fn met_in(alloc: Global, base: &PackageList, source: &PackageList) -> Result<Vec<Name>, AllocError>
    ensures { IfOk result (λ archs. archs.items ≡ union text_cmp [] (archs_met (base.now ++ source.now))) }
{
    let mut set = BTreeSet::new(alloc);
    meet_all(&mut set, base)?;
    meet_all(&mut set, source)?;
    names_in(alloc, set)
}

/// These, or `all` where there is none.
fn or_all_of(alloc: Global, archs: Vec<Name>) -> Result<Vec<Name>, AllocError>
    ensures { IfOk result (λ made. made.items ≡ or_all archs.items) }
{
    if !archs.is_empty() {
        return Ok(archs);
    }
    let mut alone = Vec::new(alloc);
    alone.push(named(alloc, "all")?)?;
    Ok(alone)
}

/// The architectures that are followed where packages of a source come to a base: those that are written, or else all but `all` that
/// either has, or else `all` alone; in the order of their bytes and each once. Those that are written can be listed. Fails only for want of
/// memory.
pub fn archs_for_both(
    alloc: Global,
    follow: &Follow,
    base: &PackageList,
    source: &PackageList,
) -> Result<Vec<Name>, AllocError>
    requires { bad_follow (plain_follow follow.now) ≡ None }
    ensures { IfOk result (λ archs. archs.items ≡ archs_of (plain_follow follow.now).architectures (base.now ++ source.now)) }
{
    if let Some(texts) = &follow.architectures {
        return archs_written(alloc, texts);
    }
    let met = met_in(alloc, base, source)?;
    or_all_of(alloc, met)
}

/// The same of one list.
pub fn archs_for(
    alloc: Global,
    follow: &Follow,
    list: &PackageList,
) -> Result<Vec<Name>, AllocError>
    requires { bad_follow (plain_follow follow.now) ≡ None }
    ensures { IfOk result (λ archs. archs.items ≡ archs_of (plain_follow follow.now).architectures list.now) }
{
    let nothing = PackageList::new(alloc);
    archs_for_both(alloc, follow, &nothing, list)
}
