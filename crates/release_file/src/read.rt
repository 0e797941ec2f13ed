//! Reads a Release.
ghost use Rattle.std.specs.Prelude.{◌≡◌, ◌∷◌, [], ℕ, List, IfOk, IfErr, MatchOption, MatchResult, map, filter};
ghost use Rattle.control_stanza.specs.declared.stanza.Field.{Field};
ghost use Rattle.control_stanza.specs.Fields.{value_of, value_lines};
ghost use Rattle.package_core.specs.Fields.{text_in};
ghost use Rattle.release_file.specs.declared.listing.Listed.{Listed as File};
ghost use Rattle.release_file.specs.Words.{has_word};
ghost use Rattle.release_file.specs.Release.{ReleaseView, Says, Lists, ListsIn, IsAlone, IsRelease, IsAt, IsAtOf, IsFaultOf};

use crate::date::read_date;
use crate::fault::ReleaseFault;
use crate::listing::{Listed, read_listings};
use crate::names::{read_architectures, read_components};
use crate::once::have_different_paths;
use crate::release::Release;
use control_stanza::{Stanza, read_stanzas};
use std::alloc::{AllocError, Global};

/// The value of a field, empty where it isn't there.
fn text_of<'a>(stanza: &'a Stanza, name: &str) -> &'a str
    ensures { result.now ≡ text_in stanza.now name.now }
{
    stanza.get(name).unwrap_or("")
}

/// The files that a value lists, where it is a list of files and no path stands twice.
fn read_value(alloc: Global, value: &str) -> Result<Option<Vec<Listed>>, AllocError>
    ensures { IfOk result (λ o. MatchOption o ((files : List File) → Lists value.now files → ⊥) (λ v. Lists value.now v.items)) }
{
    let Some(files) = read_listings(alloc, value)? else {
        return Ok(None);
    };
    if !have_different_paths(alloc, &files)? {
        return Ok(None);
    }
    Ok(Some(files))
}

/// The files of the field SHA256, where it is there.
fn read_files(alloc: Global, stanza: &Stanza) -> Result<Option<Vec<Listed>>, AllocError>
    ensures { IfOk result (λ o. MatchOption o ((files : List File) → ListsIn stanza.now files → ⊥) (λ v. ListsIn stanza.now v.items)) }
{
    match stanza.get("SHA256") {
        Some(value) => read_value(alloc, value),
        None => Ok(None),
    }
}

/// What the fields of a stanza say of an archive; `None` where they aren't those of a Release.
fn read_stanza(alloc: Global, stanza: &Stanza) -> Result<Option<Release>, AllocError>
    ensures { IfOk result (λ o. MatchOption o ((release : ReleaseView) → Says stanza.now release → ⊥) (Says stanza.now)) }
{
    let Some(files) = read_files(alloc, stanza)? else {
        return Ok(None);
    };
    let Some(components) = read_components(alloc, text_of(stanza, "Components"))? else {
        return Ok(None);
    };
    let Some(architectures) = read_architectures(alloc, text_of(stanza, "Architectures"))? else {
        return Ok(None);
    };
    match read_date(alloc, text_of(stanza, "Date"))? {
        Some(date) => Ok(Some(Release {
            date,
            components,
            architectures,
            files,
        })),
        None => Ok(None),
    }
}

/// What the stanzas say of an archive, where there is one alone.
fn read_alone(alloc: Global, stanzas: &[(u64, Stanza)]) -> Result<Option<Release>, AllocError>
    ensures { IfOk result (λ o. MatchOption o ((release : ReleaseView) → IsAlone stanzas.now release → ⊥) (IsAlone stanzas.now)) }
{
    if stanzas.len() != 1 {
        return Ok(None);
    }
    read_stanza(alloc, &stanzas[0].1)
}

/// What a Release says of an archive (the Debian repository format).
///
/// It is one stanza with a field SHA256, each line of which is blank or has three words: the SHA-256 of a file in 64
/// hexadecimal digits of either case, its size in bytes, and its path, a safe path of at most 700 bytes; no path stands
/// there twice. Components and Architectures are words between spaces, tabs and line ends. Of a component what stands
/// before its last slash is left out, and of the architectures `all` and `source`; what is left are component names and
/// architecture names. Date is one line of at most 200 bytes. A field of these three that isn't there says nothing.
///
/// Of a text that is not made of stanzas the first line that can't stand there is told, and else line 1.
pub fn read_release(alloc: Global, bytes: &[u8]) -> Result<Release, ReleaseFault>
    // What is read is what the text says.
    ensures found { IfOk result (IsRelease bytes.now) }
    // What the text says is read, unless memory runs out.
    ensures only { (release : ReleaseView) → IsRelease bytes.now release → MatchResult result (λ r. r ≡ release) (λ e. e ≡ ReleaseFault.OutOfMemory) }
    // The line of a fault is the one that shows it.
    ensures fault { IfErr result (IsFaultOf bytes.now) }
    // The line that shows a fault is told, unless memory runs out.
    ensures told { (line : ℕ) → IsAt bytes.now line → IsAtOf line result }
{
    let stanzas = read_stanzas(alloc, bytes)?;
    match read_alone(alloc, &stanzas)? {
        Some(release) => Ok(release),
        None => Err(ReleaseFault::At { line: 1 }),
    }
}
