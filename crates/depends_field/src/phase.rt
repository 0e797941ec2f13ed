ghost use Rattle.std.specs.Prelude.{◌≡◌, ◌≢◌, IfOk, OnOk, Some, None, if◌then◌else◌};
ghost use Rattle.ap_text.specs.Names.{is_name as name_text, is_package_name as package_name, is_architecture as architecture};
ghost use Rattle.depends_field.specs.Reading.{is_no_qualifier as no_qualifier, is_version_word as version_word, relation_of as relation_of_piece, is_allowed as allowed, plain as plain_alternative, rested as rested_phase, named as named_phase, qualified as qualified_phase, compared as compared_phase, versioned as versioned_phase, advanced as advanced_phase, ended as ended_phase};

use crate::alternative::Alternative;
use crate::pieces::has_version_bytes;
use ap_text::{Name, is_name, is_package_name};
use deb_version::{Relation, Version, VersionFault};
use std::alloc::{AllocError, Global};
use std::str;

/// Which field is read.
#[derive(Clone, Copy, Debug, PartialEq, Eq)]
pub enum Kind {
    /// Groups of alternatives, with any relation.
    Depends,
    /// Single alternatives, with no relation but `=`.
    Provides,
}

/// What stands before a place of the field, since the last comma or bar.
#[derive(Drop)]
pub enum Phase {
    /// Nothing but blanks, behind a comma or at the start.
    Start,
    /// Nothing but blanks, behind a bar.
    Barred,
    /// The name of a package.
    Named(Name),
    /// The name, and a colon.
    Colon(Name),
    /// The name, and its architecture or blanks.
    Parted(Alternative),
    /// All this, and an opened parenthesis.
    Opened(Alternative),
    /// An operator in it.
    Compared(Alternative, Relation),
    /// A version behind the operator.
    Versioned(Alternative),
    /// The closed parenthesis.
    Closed(Alternative),
}

fn plain(name: Name) -> Alternative
    ensures { result ≡ plain_alternative name }
{
    Alternative {
        name,
        arch: None,
        relation: None,
    }
}

/// The phase behind blanks, if they may stand there.
pub fn rested(phase: Phase) -> Option<Phase>
    ensures { result ≡ rested_phase phase }
{
    match phase {
        Phase::Colon(_) => None,
        Phase::Named(name) => Some(Phase::Parted(plain(name))),
        Phase::Start => Some(Phase::Start),
        Phase::Barred => Some(Phase::Barred),
        Phase::Parted(alternative) => Some(Phase::Parted(alternative)),
        Phase::Opened(alternative) => Some(Phase::Opened(alternative)),
        Phase::Compared(alternative, relation) => Some(Phase::Compared(alternative, relation)),
        Phase::Versioned(alternative) => Some(Phase::Versioned(alternative)),
        Phase::Closed(alternative) => Some(Phase::Closed(alternative)),
    }
}

/// The name that a piece is, if it is one.
fn name_of(alloc: Global, piece: &[u8]) -> Result<Option<Name>, AllocError>
    ensures { IfOk result (λ name. name ≡ (if name_text piece.now then Some piece.now else None)) }
{
    let Ok(text) = str::from_utf8(piece) else {
        return Ok(None);
    };
    if !is_name(text) {
        return Ok(None);
    }
    match Name::new(alloc, text) {
        Ok(name) => Ok(Some(name)),
        Err(_) => Err(AllocError),
    }
}

/// Passes want of memory on; every other fault is of the text.
fn spared(fault: VersionFault) -> Result<(), AllocError>
    ensures { OnOk result (fault ≢ VersionFault.OutOfMemory) }
{
    match fault {
        VersionFault::OutOfMemory => Err(AllocError),
        _ => Ok(()),
    }
}

/// The version that a piece is, if it is one.
fn version_of(alloc: Global, piece: &[u8]) -> Result<Option<Version>, AllocError>
    ensures { IfOk result (λ version. version ≡ (if version_word piece.now then Some piece.now else None)) }
{
    if !has_version_bytes(piece) {
        return Ok(None);
    }
    let Ok(text) = str::from_utf8(piece) else {
        return Ok(None);
    };
    match Version::parse(alloc, text) {
        Ok(version) => Ok(Some(version)),
        Err(fault) => {
            spared(fault)?;
            Ok(None)
        }
    }
}

fn is_package(piece: &[u8]) -> bool
    ensures { result ≡ package_name piece.now }
{
    match str::from_utf8(piece) {
        Ok(text) => is_package_name(text),
        Err(_) => false,
    }
}

fn is_architecture(piece: &[u8]) -> bool
    ensures { result ≡ architecture piece.now }
{
    match str::from_utf8(piece) {
        Ok(text) => ap_text::is_architecture(text),
        Err(_) => false,
    }
}

#[tactic(auto, unfolding(crate::specs::Reading::named))]
fn named(alloc: Global, piece: &[u8]) -> Result<Option<Phase>, AllocError>
    ensures { IfOk result (λ phase. phase ≡ named_phase piece.now) }
{
    if !is_package(piece) {
        return Ok(None);
    }
    match name_of(alloc, piece)? {
        Some(name) => Ok(Some(Phase::Named(name))),
        None => Ok(None),
    }
}

/// Whether a qualifier is read as none.
fn is_no_qualifier(kind: Kind, piece: &[u8]) -> bool
    ensures { result ≡ no_qualifier kind piece.now }
{
    match kind {
        Kind::Depends | Kind::Provides => piece == b"any".as_slice(),
    }
}

#[tactic(auto, unfolding(crate::specs::Reading::qualified), using(crate::proofs::Only::architecture_name))]
fn qualified(
    alloc: Global,
    kind: Kind,
    name: Name,
    piece: &[u8],
) -> Result<Option<Phase>, AllocError>
    ensures { IfOk result (λ phase. phase ≡ qualified_phase kind name piece.now) }
{
    if is_no_qualifier(kind, piece) {
        return Ok(Some(Phase::Parted(plain(name))));
    }
    if !is_architecture(piece) {
        return Ok(None);
    }
    match name_of(alloc, piece)? {
        Some(arch) => Ok(Some(Phase::Parted(Alternative {
            name,
            arch: Some(arch),
            relation: None,
        }))),
        None => Ok(None),
    }
}

/// The relation that an operator asks for.
#[tactic(auto, unfolding(crate::specs::Reading::relation_of))]
fn relation_of(piece: &[u8]) -> Option<Relation>
    ensures { result ≡ relation_of_piece piece.now }
{
    match piece {
        b"<<" => Some(Relation::Earlier),
        b"<=" | b"<" => Some(Relation::EarlierEqual),
        b"=" => Some(Relation::Equal),
        b">=" | b">" => Some(Relation::LaterEqual),
        b">>" => Some(Relation::Later),
        _ => None,
    }
}

fn is_allowed(kind: Kind, relation: Relation) -> bool
    ensures { result ≡ allowed kind relation }
{
    match kind {
        Kind::Depends => true,
        Kind::Provides => relation == Relation::Equal,
    }
}

#[tactic(auto, unfolding(crate::specs::Reading::compared))]
fn compared(kind: Kind, alternative: Alternative, piece: &[u8]) -> Option<Phase>
    ensures { result ≡ compared_phase kind alternative piece.now }
{
    match relation_of(piece) {
        Some(relation) if is_allowed(kind, relation) => {
            Some(Phase::Compared(alternative, relation))
        }
        _ => None,
    }
}

#[tactic(auto, unfolding(crate::specs::Reading::versioned))]
fn versioned(
    alloc: Global,
    alternative: Alternative,
    relation: Relation,
    piece: &[u8],
) -> Result<Option<Phase>, AllocError>
    ensures { IfOk result (λ phase. phase ≡ versioned_phase alternative relation piece.now) }
{
    match version_of(alloc, piece)? {
        Some(version) => {
            let Alternative { name, arch, .. } = alternative;
            Ok(Some(Phase::Versioned(Alternative {
                name,
                arch,
                relation: Some((relation, version)),
            })))
        }
        None => Ok(None),
    }
}

/// The phase behind a piece that isn't blank, no comma and no bar, if it may stand there.
pub fn advanced(
    alloc: Global,
    kind: Kind,
    phase: Phase,
    piece: &[u8],
) -> Result<Option<Phase>, AllocError>
    ensures { IfOk result (λ next. next ≡ advanced_phase kind phase piece.now) }
{
    match phase {
        Phase::Start | Phase::Barred => named(alloc, piece),
        Phase::Named(name) if piece == b":".as_slice() => Ok(Some(Phase::Colon(name))),
        Phase::Named(name) if piece == b"(".as_slice() => Ok(Some(Phase::Opened(plain(name)))),
        Phase::Colon(name) => qualified(alloc, kind, name, piece),
        Phase::Parted(alternative) if piece == b"(".as_slice() => {
            Ok(Some(Phase::Opened(alternative)))
        }
        Phase::Opened(alternative) => Ok(compared(kind, alternative, piece)),
        Phase::Compared(alternative, relation) => versioned(alloc, alternative, relation, piece),
        Phase::Versioned(alternative) if piece == b")".as_slice() => {
            Ok(Some(Phase::Closed(alternative)))
        }
        Phase::Named(_) | Phase::Parted(_) | Phase::Versioned(_) | Phase::Closed(_) => Ok(None),
    }
}

/// The alternative that may end behind what was read.
pub fn ended(phase: Phase) -> Option<Alternative>
    ensures { result ≡ ended_phase phase }
{
    match phase {
        Phase::Named(name) => Some(plain(name)),
        Phase::Parted(alternative) | Phase::Closed(alternative) => Some(alternative),
        _ => None,
    }
}
