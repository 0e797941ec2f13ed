//! Which indexes of an archive are wanted for a mirror.
ghost use Rattle.std.specs.Prelude.{◌≡◌, ◌++◌, ◌≤◌, IfOk, OnOk, All, map, length, string_bytes};
ghost use Rattle.mirror_update.specs.Wanted.{AreShortNames, arch_folder, arch_index, index_name, indexes_of, or_those, wanted_architectures, wanted_components, wanted_indexes};

use ap_text::{Name, SafePath};
use machine_state::Mirror;
use release_file::Release;
use std::alloc::{AllocError, Global};

/// The name of the index in its folder.
const INDEX: &str = "Packages";

/// These names, or those where there is none.
fn names_or<'a>(own: &'a [Name], those: &'a [Name]) -> &'a [Name]
    ensures { result.now ≡ or_those own.now those.now }
{
    if own.is_empty() { those } else { own }
}

/// The components that are wanted of an archive with this Release.
fn components_of<'a>(mirror: &'a Mirror, release: &'a Release) -> &'a [Name]
    ensures { result.now ≡ wanted_components mirror.now release.now }
{
    names_or(&mirror.components, &release.components)
}

/// The architectures that are.
pub(crate) fn archs_of<'a>(mirror: &'a Mirror, release: &'a Release) -> &'a [Name]
    ensures { result.now ≡ wanted_architectures mirror.now release.now }
{
    names_or(&mirror.architectures, &release.architectures)
}

/// The name of the folder of an architecture in its component.
fn folder_text(alloc: Global, arch: &str) -> Result<String, AllocError>
    ensures { IfOk result (λ text. string_bytes text ≡ arch_folder arch.now) }
{
    format!(in alloc; "binary-{}", arch)
}

/// The same as a path.
fn folder_of(alloc: Global, arch: &Name) -> Result<SafePath, AllocError>
    ensures path { IfOk result (λ path. path ≡ arch_folder arch.now) }
    ensures short { IfOk result (λ path. length path ≤ 207) }
{
    let text = folder_text(alloc, arch.as_str())?;
    SafePath::fixed(alloc, text.as_str())
}

/// The path of the index of an architecture below its component.
fn rest_of(alloc: Global, arch: &Name) -> Result<SafePath, AllocError>
    ensures path { IfOk result (λ path. path ≡ arch_index arch.now) }
    ensures short { IfOk result (λ path. length path ≤ 216) }
{
    let folder = folder_of(alloc, arch)?;
    let index = SafePath::fixed(alloc, INDEX)?;
    SafePath::joined(alloc, &folder, &index)
}

/// The path of the index of a component and an architecture below the folder of the distribution.
fn name_of_index(alloc: Global, component: &Name, arch: &Name) -> Result<SafePath, AllocError>
    ensures path { IfOk result (λ path. path ≡ index_name component.now arch.now) }
    ensures short { IfOk result (λ path. length path ≤ 417) }
{
    let rest = rest_of(alloc, arch)?;
    let folder = SafePath::fixed(alloc, component.as_str())?;
    SafePath::joined(alloc, &folder, &rest)
}

/// Puts the indexes of a component behind others, one for each architecture.
fn put_indexes(
    alloc: Global,
    names: &mut Vec<SafePath>,
    component: &Name,
    archs: &[Name],
) -> Result<(), AllocError>
    ensures names { OnOk result (names.new.items ≡ names.old.items ++ map (index_name component.now) archs.now) }
    ensures short { OnOk result (AreShortNames names.old.items → AreShortNames names.new.items) }
{
    for arch in archs {
        names.push(name_of_index(alloc, component, arch)?)?;
    }
    Ok(())
}

/// The indexes of these components and architectures.
fn names_of_indexes(
    alloc: Global,
    components: &[Name],
    archs: &[Name],
) -> Result<Vec<SafePath>, AllocError>
    ensures names { IfOk result (λ names. names.items ≡ indexes_of components.now archs.now) }
    ensures short { IfOk result (λ names. AreShortNames names.items) }
{
    let mut names = Vec::new(alloc);
    for component in components {
        put_indexes(alloc, &mut names, component, archs)?;
    }
    Ok(names)
}

/// The indexes that are wanted of an archive with this Release.
pub(crate) fn wanted(
    alloc: Global,
    mirror: &Mirror,
    release: &Release,
) -> Result<Vec<SafePath>, AllocError>
    ensures names { IfOk result (λ names. names.items ≡ wanted_indexes mirror.now release.now) }
    ensures short { IfOk result (λ names. AreShortNames names.items) }
{
    let components = components_of(mirror, release);
    let archs = archs_of(mirror, release);
    names_of_indexes(alloc, components, archs)
}
