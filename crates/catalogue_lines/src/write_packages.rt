//! The packages of a root and lists of them, written.
ghost use Rattle.std.specs.Prelude.{◌≡◌, ◌++◌, OnOk, string_bytes, map};
ghost use Rattle.catalogue_lines.specs.Pieces.{alone, packed, piece_text, joined};
ghost use Rattle.catalogue_lines.specs.SetLines.{id_of, set_pieces};
ghost use Rattle.catalogue_lines.specs.KnownForms.{known_pieces};

use crate::known::id_text;
use crate::put::{put_count, put_fixed};
use package_core::Package;
use package_list::{PackageList, SharedPackage};
use std::alloc::{AllocError, Global};

/// A package: its line and its text.
fn put_package(alloc: Global, out: &mut String, package: &Package) -> Result<(), AllocError>
    ensures { OnOk result (string_bytes out.new ≡ string_bytes out.old ++ piece_text (packed «package».now)) }
{
    let text = package.text(alloc)?;
    put_count(out, "package ", text.as_str().len())?;
    out.push_str(text.as_str())?;
    Ok(())
}

fn put_id(alloc: Global, out: &mut String, member: &SharedPackage) -> Result<(), AllocError>
    ensures { OnOk result (string_bytes out.new ≡ string_bytes out.old ++ piece_text (alone (id_of member.now))) }
{
    let id = id_text(alloc, member)?;
    put_fixed(out, id.as_str())
}

fn put_packages(alloc: Global, out: &mut String, known: &PackageList) -> Result<(), AllocError>
    ensures { OnOk result (string_bytes out.new ≡ string_bytes out.old ++ joined (map packed known.now)) }
{
    for i in 0..known.len() {
        let Some(package) = known.get(i) else {
            return Ok(());
        };
        put_package(alloc, out, package)?;
    }
    Ok(())
}

fn put_ids(alloc: Global, out: &mut String, list: &PackageList) -> Result<(), AllocError>
    ensures { OnOk result (string_bytes out.new ≡ string_bytes out.old ++ joined (map (λ p. alone (id_of p)) list.now)) }
{
    for member in list.as_slice() {
        put_id(alloc, out, member)?;
    }
    Ok(())
}

/// A list of packages: how many they are, and the id of each. Fails only for want of memory.
pub fn put_set(alloc: Global, out: &mut String, list: &PackageList) -> Result<(), AllocError>
    ensures { OnOk result (string_bytes out.new ≡ string_bytes out.old ++ joined (set_pieces list.now)) }
{
    put_count(out, "set ", list.len())?;
    put_ids(alloc, out, list)
}

/// The first line of a root, and its packages: how many they are, and each of them. Fails only for want of memory.
pub fn put_known(alloc: Global, out: &mut String, known: &PackageList) -> Result<(), AllocError>
    ensures { OnOk result (string_bytes out.new ≡ string_bytes out.old ++ joined (known_pieces known.now)) }
{
    put_fixed(out, "aptly root 0")?;
    put_count(out, "known ", known.len())?;
    put_packages(alloc, out, known)
}
