//! The publications that a repository or a snapshot is a source of.
ghost use Rattle.std.specs.Prelude.{◌≡◌, IfOk, OnOk, find, map};
ghost use Rattle.std.specs.List.{list_any};
ghost use Rattle.std.specs.Option.{option_copied};
ghost use Rattle.std.specs.Str.{bytes_eq};
ghost use Rattle.machine_state.specs.Sources.{in_use as use_of, renamed_to, source_renamed, uses};

use crate::copied::copy_optional;
use crate::limit::Kind;
use crate::publication::Publication;
use crate::refusal::Refusal;
use ap_text::Name;
use std::alloc::{AllocError, Global};

/// Whether the source has this name.
fn is_called(source: &(Name, Name), name: &Name) -> bool
    ensures { result ≡ bytes_eq source.now.1 name.now }
{
    source.1.is(name)
}

/// Whether one of the sources has this name.
fn is_among(sources: &[(Name, Name)], name: &Name) -> bool
    ensures { result ≡ list_any (λ source. bytes_eq source.1 name.now) sources.now }
{
    sources.iter().any(|source| is_called(source, name))
}

/// Whether one of the sources of the publication is that of this kind and name.
fn is_source(publication: &Publication, kind: Kind, name: &Name) -> bool
    ensures { result ≡ uses kind name.now publication.now }
{
    publication.kind == kind && is_among(&publication.sources, name)
}

fn first_use<'a>(
    publications: &'a [Publication],
    kind: Kind,
    name: &Name,
) -> Option<&'a Publication>
    ensures { option_copied result ≡ find (uses kind name.now) publications.now }
{
    publications
        .iter()
        .find(|publication| is_source(publication, kind, name))
}

/// Why the repository or snapshot of that name can't be dropped: it is in use by the first of the publications that it is a source
/// of; none where it is a source of none. Fails only for want of memory.
pub fn in_use(
    alloc: Global,
    publications: &[Publication],
    kind: Kind,
    name: &Name,
) -> Result<Option<Refusal>, AllocError>
    ensures { IfOk result (λ refusal. refusal ≡ use_of kind name.now publications.now) }
{
    match first_use(publications, kind, name) {
        None => Ok(None),
        Some(publication) => Ok(Some(Refusal::InUse {
            kind,
            name: name.copy(alloc)?,
            prefix: copy_optional(alloc, &publication.prefix)?,
            dist: publication.dist.copy(alloc)?,
        })),
    }
}

fn rename_one(
    alloc: Global,
    source: &mut (Name, Name),
    before: &Name,
    after: &Name,
) -> Result<(), AllocError>
    ensures { OnOk result (source.new ≡ (source.old.0, renamed_to before.now after.now source.old.1)) }
{
    if is_called(source, before) {
        source.1 = after.copy(alloc)?;
    }
    Ok(())
}

fn rename_among(
    alloc: Global,
    sources: &mut [(Name, Name)],
    before: &Name,
    after: &Name,
) -> Result<(), AllocError>
    ensures { OnOk result (sources.new ≡ map (λ source. (source.0, renamed_to before.now after.now source.1)) sources.old) }
{
    for i in 0..sources.len() {
        rename_one(alloc, &mut sources[i], before, after)?;
    }
    Ok(())
}

fn rename_in(
    alloc: Global,
    publication: &mut Publication,
    kind: Kind,
    before: &Name,
    after: &Name,
) -> Result<(), AllocError>
    ensures { OnOk result (publication.new ≡ source_renamed kind before.now after.now publication.old) }
{
    if publication.kind == kind {
        rename_among(alloc, &mut publication.sources, before, after)?;
    }
    Ok(())
}

/// The publications with another name for the repository or snapshot of the first name. Fails only for want of memory; then some may
/// have the new name and others the old one.
pub fn rename_sources(
    alloc: Global,
    publications: &mut [Publication],
    kind: Kind,
    before: &Name,
    after: &Name,
) -> Result<(), AllocError>
    ensures { OnOk result (publications.new ≡ map (source_renamed kind before.now after.now) publications.old) }
{
    for i in 0..publications.len() {
        rename_in(alloc, &mut publications[i], kind, before, after)?;
    }
    Ok(())
}
