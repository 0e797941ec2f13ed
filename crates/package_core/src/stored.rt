//! A package read back from its text.
ghost use Rattle.std.specs.Prelude.{◌≡◌, ◌∷◌, [], ℕ, List, None, Some, true, IfOk, IfSome};
ghost use Rattle.control_stanza.specs.declared.stanza.Field.{Field};
ghost use Rattle.control_stanza.specs.Lines.{lines_of};
ghost use Rattle.control_stanza.specs.Spelled.{Stanzas};
ghost use Rattle.package_core.specs.Card.{Card, IsPackage, card_of, is_complete as complete};
ghost use Rattle.package_core.specs.Faults.{fault_of};
ghost use Rattle.package_core.specs.Whole.{IsSaid, IsTextOf};

use crate::fault::PackageFault;
use crate::package::Package;
use control_stanza::{Stanza, StanzaFault, read_stored};
use std::alloc::{AllocError, Global};

/// The stanza, where there is one and no other.
fn the_only(stanzas: Vec<(u64, Stanza)>) -> Option<Stanza>
    ensures { (number : ℕ) → (fields : List Field) → stanzas.items ≡ (number, fields) ∷ [] → result ≡ Some fields }
{
    let mut stanzas = stanzas;
    if stanzas.len() != 1 {
        return None;
    }
    match stanzas.pop() {
        Some((_, stanza)) => Some(stanza),
        None => None,
    }
}

/// The stanza of a text that has one and no other.
fn one_stanza(alloc: Global, bytes: &[u8]) -> Result<Option<Stanza>, AllocError>
    ensures { (fields : List Field) → Stanzas None 1 (lines_of bytes.now) ((1, fields) ∷ []) → IfOk result (λ found. found ≡ Some fields) }
{
    match read_stored(alloc, bytes) {
        Ok(stanzas) => Ok(the_only(stanzas)),
        Err(StanzaFault::OutOfMemory) => Err(AllocError),
        Err(StanzaFault::At { .. }) => Ok(None),
    }
}

/// The package of a stanza without faults.
fn package_in(alloc: Global, stanza: &Stanza) -> Result<Option<Package>, AllocError>
    ensures found { fault_of stanza.now ≡ None → IfOk result (λ found. found ≡ Some (card_of stanza.now)) }
    ensures package { IfOk result (λ found. IfSome found IsPackage) }
    ensures said { IfOk result (λ found. IfSome found (λ p. IsSaid p.said)) }
{
    match Package::from_stanza(alloc, stanza) {
        Ok((package, _)) => Ok(Some(package)),
        Err(PackageFault::OutOfMemory) => Err(AllocError),
        Err(_) => Ok(None),
    }
}

fn is_complete(of: &Package) -> bool
    ensures { result ≡ complete of.now }
{
    of.said.sha1.is_some() && of.said.md5.is_some()
}

/// The package, where these bytes are its text.
fn with_text(alloc: Global, read: Package, bytes: &[u8]) -> Result<Option<Package>, AllocError>
    requires package { IsPackage read }
    requires said { IsSaid read.said }
    ensures found { IsTextOf bytes.now read → IfOk result (λ found. found ≡ Some read) }
    ensures is { IfOk result (λ found. IfSome found (IsTextOf bytes.now)) }
{
    let text = read.text(alloc)?;
    if is_complete(&read) && text.as_str().as_bytes() == bytes {
        Ok(Some(read))
    } else {
        Ok(None)
    }
}

pub(crate) fn package_of(alloc: Global, bytes: &[u8]) -> Result<Option<Package>, AllocError>
    ensures found { IfOk result (λ found. IfSome found (IsTextOf bytes.now)) }
    ensures only { (p : Card) → IsTextOf bytes.now p → IfOk result (λ found. found ≡ Some p) }
{
    let Some(stanza) = one_stanza(alloc, bytes)? else {
        return Ok(None);
    };
    let Some(package) = package_in(alloc, &stanza)? else {
        return Ok(None);
    };
    with_text(alloc, package, bytes)
}
