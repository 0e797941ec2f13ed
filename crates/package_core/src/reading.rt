//! The package of a binary stanza.
ghost use Rattle.std.specs.Prelude.{◌≡◌, ◌∷◌, [], MatchResult, IfOk, IfErr, Some, None, List, true};
ghost use Rattle.ap_text.specs.Names.{is_package_name as package_name, is_architecture as architecture};
ghost use Rattle.ap_text.specs.Paths.{segments};
ghost use Rattle.control_stanza.specs.Fields.{value_of, is_stanza};
ghost use Rattle.deb_version.specs.VersionText.{is_version};
ghost use Rattle.package_core.specs.Fields.{is_of_file, own_fields};
ghost use Rattle.package_core.specs.Faults.{field_name, fault_of, bad_identity, bad_said, FaultIs};
ghost use Rattle.package_core.specs.Card.{card_of, said_in, path_in};
ghost use Rattle.package_core.specs.Answers.{Reads, HasTexts};
ghost use Rattle.package_core.specs.Whole.{IsSaid};

use crate::fault::{PackageFault, Required};
use crate::package::Package;
use crate::{path, said, source};
use ap_text::{Name, SafePath, is_architecture, is_package_name};
use control_stanza::Stanza;
use deb_version::{Version, VersionFault};
use digest_set::Said;
use std::alloc::{AllocError, Global};

/// The texts of the required fields.
#[derive(Clone, Copy)]
pub(crate) struct Texts<'a> {
    pub(crate) name: &'a str,
    pub(crate) version: &'a str,
    pub(crate) arch: &'a str,
    pub(crate) filename: &'a str,
    pub(crate) size: &'a str,
    pub(crate) sha256: &'a str,
}

fn label(field: Required) -> &'static str
    ensures { result.now ≡ field_name field }
{
    match field {
        Required::NameField => "Package",
        Required::VersionField => "Version",
        Required::ArchitectureField => "Architecture",
        Required::FilenameField => "Filename",
        Required::SizeField => "Size",
        Required::Sha256Field => "SHA256",
    }
}

fn required(stanza: &Stanza, field: Required) -> Result<&str, PackageFault>
    ensures { MatchResult result (λ text. value_of stanza.now (field_name field) ≡ Some text.now) (λ e. (e ≡ PackageFault.Missing field) × (value_of stanza.now (field_name field) ≡ None)) }
{
    match stanza.get(label(field)) {
        Some(text) => Ok(text),
        None => Err(PackageFault::Missing(field)),
    }
}

#[tactic(auto, unfolding(crate::specs::Faults::fault_of))]
fn required_texts(stanza: &Stanza) -> Result<Texts<'_>, PackageFault>
    ensures found { IfOk result (HasTexts stanza.now) }
    ensures missing { IfErr result (λ e. fault_of stanza.now ≡ Some e) }
{
    Ok(Texts {
        name: required(stanza, Required::NameField)?,
        version: required(stanza, Required::VersionField)?,
        arch: required(stanza, Required::ArchitectureField)?,
        filename: required(stanza, Required::FilenameField)?,
        size: required(stanza, Required::SizeField)?,
        sha256: required(stanza, Required::Sha256Field)?,
    })
}

fn read_name(alloc: Global, text: &str) -> Result<Name, PackageFault>
    ensures { Reads PackageFault.BadName (package_name text.now) (λ name. name ≡ text.now) result }
{
    if !is_package_name(text) {
        return Err(PackageFault::BadName);
    }
    match Name::new(alloc, text) {
        Ok(name) => Ok(name),
        // The text is a name, so memory ran out.
        Err(_) => Err(PackageFault::OutOfMemory),
    }
}

#[tactic(auto, unfolding(deb_version::specs::VersionText::is_version))]
fn read_version(alloc: Global, text: &str) -> Result<Version, PackageFault>
    ensures { Reads PackageFault.BadVersion (is_version text.now) (λ version. version ≡ text.now) result }
{
    match Version::parse(alloc, text) {
        Ok(version) => Ok(version),
        Err(VersionFault::OutOfMemory) => Err(PackageFault::OutOfMemory),
        Err(_) => Err(PackageFault::BadVersion),
    }
}

fn read_architecture(alloc: Global, text: &str) -> Result<Name, PackageFault>
    ensures { Reads PackageFault.BadArchitecture (architecture text.now) (λ name. name ≡ text.now) result }
{
    if !is_architecture(text) {
        return Err(PackageFault::BadArchitecture);
    }
    match Name::new(alloc, text) {
        Ok(name) => Ok(name),
        // The text is a name, so memory ran out.
        Err(_) => Err(PackageFault::OutOfMemory),
    }
}

/// What a package is known by.
#[derive(Drop)]
pub(crate) struct Identity {
    name: Name,
    version: Version,
    arch: Name,
}

#[tactic(auto, unfolding(crate::specs::Faults::bad_identity))]
fn read_identity(alloc: Global, stanza: &Stanza, texts: Texts<'_>) -> Result<Identity, PackageFault>
    requires { HasTexts stanza.now texts }
    ensures value { IfOk result (λ made. (made.name ≡ texts.entry.name.now) × (made.version ≡ texts.entry.version.now) × (made.arch ≡ texts.entry.arch.now)) }
    ensures good { IfOk result (λ made. bad_identity stanza.now ≡ None) }
    ensures fault { IfErr result (FaultIs (bad_identity stanza.now)) }
{
    let name = read_name(alloc, texts.name)?;
    let version = read_version(alloc, texts.version)?;
    let arch = read_architecture(alloc, texts.arch)?;
    source::check_source(stanza.get("Source"))?;
    Ok(Identity {
        name,
        version,
        arch,
    })
}

#[tactic(auto, unfolding(crate::specs::Faults::bad_said))]
fn read_said(stanza: &Stanza, texts: Texts<'_>) -> Result<Said, PackageFault>
    requires { HasTexts stanza.now texts }
    ensures value { IfOk result (λ made. made ≡ said_in stanza.now) }
    ensures sizes { IfOk result IsSaid }
    ensures good { IfOk result (λ made. bad_said stanza.now ≡ None) }
    ensures fault { IfErr result (FaultIs (bad_said stanza.now)) }
{
    Ok(Said {
        size: said::read_size(texts.size)?,
        sha256: said::read_digest::<32>(texts.sha256)?,
        sha1: said::read_optional::<20>(stanza.get("SHA1"))?,
        md5: said::read_optional::<16>(stanza.get("MD5sum"))?,
    })
}

/// Whether a field of that name, of whatever case, speaks of the package's file and is no part of its own stanza: whether
/// it is Filename, Size, MD5sum, SHA1, SHA256 or SHA512. It takes no memory.
#[tactic(auto, unfolding(control_stanza::specs::Fields::same_name))]
pub fn is_file_field(name: &str) -> bool
    ensures { result ≡ is_of_file name.now }
{
    name.eq_ignore_ascii_case("Filename")
        || name.eq_ignore_ascii_case("Size")
        || name.eq_ignore_ascii_case("MD5sum")
        || name.eq_ignore_ascii_case("SHA1")
        || name.eq_ignore_ascii_case("SHA256")
        || name.eq_ignore_ascii_case("SHA512")
}

/// The stanza without the fields that speak of the file.
fn own_stanza(alloc: Global, stanza: &Stanza) -> Result<Stanza, AllocError>
    ensures own { IfOk result (λ own. own ≡ own_fields stanza.now) }
    ensures stanza { IfOk result (λ own. is_stanza own ≡ true) }
{
    let mut own = stanza.copy(alloc)?;
    own.remove("Filename");
    own.remove("Size");
    own.remove("MD5sum");
    own.remove("SHA1");
    own.remove("SHA256");
    own.remove("SHA512");
    // What is left is a stanza still.
    let _ = own.fields();
    Ok(own)
}

/// The package and the path of its file.
#[tactic(auto, unfolding(crate::specs::Faults::fault_of, crate::specs::Faults::bad_path, crate::specs::Card::card_of))]
pub(crate) fn read_package(
    alloc: Global,
    stanza: &Stanza,
) -> Result<(Package, SafePath), PackageFault>
    ensures value { IfOk result (λ made. (made.0 ≡ card_of stanza.now) × (made.1 ≡ path_in stanza.now)) }
    ensures good { IfOk result (λ made. fault_of stanza.now ≡ None) }
    ensures one { IfOk result (λ made. segments made.0.file ≡ made.0.file ∷ []) }
    ensures stanza { IfOk result (λ made. is_stanza made.0.stanza ≡ true) }
    ensures said { IfOk result (λ made. IsSaid made.0.said) }
    ensures fault { IfErr result (FaultIs (fault_of stanza.now)) }
{
    let texts = required_texts(stanza)?;
    let Identity {
        name,
        version,
        arch,
    } = read_identity(alloc, stanza, texts)?;
    let path = path::read_path(alloc, texts.filename)?;
    let said = read_said(stanza, texts)?;
    let file = path::file_name(alloc, &path)?;
    let stanza = own_stanza(alloc, stanza)?;
    let package = Package {
        name,
        version,
        arch,
        stanza,
        file,
        said,
    };
    Ok((package, path))
}
