ghost use Rattle.std.specs.Prelude.{◌≡◌, List, IfOk, IfErr, MatchResult, Some};
ghost use Rattle.std.specs.List.{flat_map};
ghost use Rattle.depends_field.specs.declared.alternative.Alternative.{Alternative};
ghost use Rattle.depends_field.specs.Faults.{IsReading, IsFaultOf};
ghost use Rattle.depends_field.specs.Field.{groups_in, depends_in, provides_in, SaysNothing};
ghost use Rattle.depends_field.specs.Groups.{Groups, DependsText, ProvidesText};
ghost use Rattle.depends_field.specs.Places.{IsFaultAt};

use crate::alternative::{Alternative, Group};
use crate::fault::DependsFault;
use crate::phase::Kind;
use crate::pieces::{first_piece, inside_after};
use crate::state::State;
use std::alloc::{AllocError, Global};

/// Reads a field piece by piece, from the left.
fn read_pieces(alloc: Global, kind: Kind, text: &str) -> Result<Vec<Group>, DependsFault>
    ensures groups { IfOk result (λ groups. IsReading kind text.now groups.items) }
    ensures fault { IfErr result (IsFaultOf kind text.now) }
{
    let bytes = text.as_bytes();
    let mut state = State::new(alloc);
    let mut inside = false;
    let mut at = 0;
    while at < bytes.len() {
        let piece = first_piece(inside, &bytes[at..]);
        state = match state.step(alloc, kind, piece)? {
            Some(state) => state,
            None => return Err(DependsFault::At { place: at as u64 }),
        };
        inside = inside_after(inside, piece);
        at += piece.len();
    }
    match state.finish(alloc)? {
        Some(groups) => Ok(groups),
        None => Err(DependsFault::At {
            place: bytes.len() as u64,
        }),
    }
}

/// The groups of a field, by its grammar.
fn read(alloc: Global, kind: Kind, text: &str) -> Result<Vec<Group>, DependsFault>
    ensures found { IfOk result (λ groups. Groups kind text.now groups.items) }
    ensures only { (groups : List (List Alternative)) → Groups kind text.now groups → MatchResult result (λ read. read.items ≡ groups) (λ fault. fault ≡ DependsFault.OutOfMemory) }
    ensures place { IfErr result (IsFaultAt kind text.now) }
    ensures value { IfOk result (λ groups. groups_in kind text.now ≡ Some groups.items) }
    ensures nothing { IfErr result (SaysNothing (groups_in kind text.now)) }
{
    read_pieces(alloc, kind, text)
}

/// All alternatives of the groups, in order.
fn flattened(alloc: Global, groups: Vec<Group>) -> Result<Vec<Alternative>, AllocError>
    ensures { IfOk result (λ list. list.items ≡ flat_map (λ group. group) groups.items) }
{
    let mut list = Vec::new(alloc);
    for mut group in groups {
        list.append(&mut group.alternatives)?;
    }
    Ok(list)
}

/// Reads a field such as Depends or Conflicts (Debian Policy 7.1): groups parted by commas, of alternatives parted by
/// bars, each a package name, an optional qualifier behind a colon and an optional relation to a version in parentheses.
///
/// Groups of blanks alone are skipped; `:any` asks for no architecture, and `:source` is no qualifier. The old operators
/// `<` and `>` mean `<=` and `>=`.
pub fn read_depends(alloc: Global, text: &str) -> Result<Vec<Group>, DependsFault>
    // What is read is spelled so.
    ensures found { IfOk result (λ groups. DependsText text.now groups.items) }
    // What is spelled so is read, unless memory runs out.
    ensures only { (groups : List (List Alternative)) → DependsText text.now groups → MatchResult result (λ read. read.items ≡ groups) (λ fault. fault ≡ DependsFault.OutOfMemory) }
    // A fault is told only of an unreadable text, with the place at which it ceases to be the front of a readable one.
    ensures place { IfErr result (IsFaultAt Kind.Depends text.now) }
    // The same, as a function of the text.
    ensures value { IfOk result (λ groups. depends_in text.now ≡ Some groups.items) }
    ensures nothing { IfErr result (SaysNothing (depends_in text.now)) }
{
    read(alloc, Kind::Depends, text)
}

/// Reads the field Provides (Debian Policy 7.5): like other relation fields, but each group has one alternative, and
/// the only operator is `=`.
pub fn read_provides(alloc: Global, text: &str) -> Result<Vec<Alternative>, DependsFault>
    // What is read is spelled so, each alternative as a group of its own.
    ensures found { IfOk result (λ list. ProvidesText text.now list.items) }
    // What is spelled so is read, unless memory runs out.
    ensures only { (list : List Alternative) → ProvidesText text.now list → MatchResult result (λ read. read.items ≡ list) (λ fault. fault ≡ DependsFault.OutOfMemory) }
    // A fault is told only of an unreadable text, with the place at which it ceases to be the front of a readable one.
    ensures place { IfErr result (IsFaultAt Kind.Provides text.now) }
    // The same, as a function of the text.
    ensures value { IfOk result (λ list. provides_in text.now ≡ Some list.items) }
    ensures nothing { IfErr result (SaysNothing (provides_in text.now)) }
{
    let groups = read(alloc, Kind::Provides, text)?;
    Ok(flattened(alloc, groups)?)
}
