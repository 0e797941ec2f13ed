//! Reads an index.
ghost use Rattle.std.specs.Prelude.{◌≡◌, ℕ, List, IfOk, IfErr, IfSome, MatchOption, MatchResult, map};
ghost use Rattle.control_stanza.specs.declared.stanza.Field.{Field};
ghost use Rattle.package_core.specs.Card.{Card, IsPackage, card_of, path_in};
ghost use Rattle.package_core.specs.Whole.{IsSaid};
ghost use Rattle.index_text.specs.Index.{IsEntry, AreEntries, entry_of, Lists, ArePackages, IsAt, IsAtOf, IsFaultOf, IsOtherOf};

use crate::fault::IndexFault;
use crate::relations::has_relations;
use ap_text::SafePath;
use control_stanza::{Stanza, read_stanzas};
use package_core::{Package, PackageFault};
use std::alloc::{AllocError, Global};

/// What a stanza of an index describes; `None` where it can't stand in one.
fn read_entry(alloc: Global, stanza: &Stanza) -> Result<Option<(Package, SafePath)>, AllocError>
    ensures entry { IfOk result (λ made. MatchOption made (IsEntry stanza.now → ⊥) (λ e. IsEntry stanza.now × (e ≡ (card_of stanza.now, path_in stanza.now)))) }
    ensures package { IfOk result (λ made. IfSome made (λ e. IsPackage e.0 × IsSaid e.0.said)) }
{
    if !has_relations(alloc, stanza)? {
        return Ok(None);
    }
    match Package::from_stanza(alloc, stanza) {
        Ok(entry) => Ok(Some(entry)),
        Err(PackageFault::OutOfMemory) => Err(AllocError),
        Err(_) => Ok(None),
    }
}

/// What the stanzas describe, each of which is let go once it is read.
fn read_entries(
    alloc: Global,
    stanzas: Vec<(u64, Stanza)>,
) -> Result<Vec<(Package, SafePath)>, IndexFault>
    ensures are_entries { IfOk result (λ v. AreEntries stanzas.items) }
    ensures described { IfOk result (λ v. v.items ≡ map entry_of stanzas.items) }
    ensures packages { IfOk result (λ v. ArePackages v.items) }
    ensures other { IfErr result (IsOtherOf stanzas.items) }
{
    let mut entries = Vec::new(alloc);
    for (line, stanza) in stanzas {
        match read_entry(alloc, &stanza)? {
            Some(entry) => entries.push(entry)?,
            None => return Err(IndexFault::At { line }),
        }
    }
    Ok(entries)
}

/// The packages of an index and the paths of their files, in the order of its stanzas.
///
/// Each stanza is a binary stanza, as [`Package::from_stanza`] reads it, in which Pre-Depends, Depends, Recommends,
/// Suggests and Provides can be read where they are there (Debian Policy 7.1, 7.5). Of a text that is not made of
/// stanzas the first line that can't stand there is told, and else the first line of the first stanza that is no such.
pub fn read_packages(alloc: Global, bytes: &[u8]) -> Result<Vec<(Package, SafePath)>, IndexFault>
    // What is read is listed so.
    ensures found { IfOk result (λ v. Lists bytes.now v.items) }
    // What is listed so is read, unless memory runs out.
    ensures only { (entries : List (Card × List ℕ)) → Lists bytes.now entries → MatchResult result (λ v. v.items ≡ entries) (λ e. e ≡ IndexFault.OutOfMemory) }
    // The line of a fault is the first that shows one.
    ensures fault { IfErr result (IsFaultOf bytes.now) }
    // The first line that shows a fault is told, unless memory runs out.
    ensures told { (line : ℕ) → IsAt bytes.now line → IsAtOf line result }
    // A package whose four facts are all said is whole, so that its text reads back.
    ensures packages { IfOk result (λ v. ArePackages v.items) }
{
    let stanzas = read_stanzas(alloc, bytes)?;
    read_entries(alloc, stanzas)
}
