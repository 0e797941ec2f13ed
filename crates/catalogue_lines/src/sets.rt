//! Lists of known packages.
ghost use Rattle.std.specs.Prelude.{◌≡◌, ◌++◌, ◌∷◌, [], IfOk, IfErr, MatchOption};
ghost use Rattle.catalogue_lines.specs.Pieces.{alone};
ghost use Rattle.catalogue_lines.specs.SetLines.{id_of, set_pieces};
ghost use Rattle.machine_state.specs.State.{IsKnown};
ghost use Rattle.catalogue_lines.specs.Reading.{NamesKnown, IfBefore, Stops, ReadsSeries, ReadsPart, GoodSet, NoLine, AddsMember, IsIndexed, IdsApart};
ghost use Rattle.catalogue_lines.specs.PartForms.{Series, NextMember, SetPart, MayJoin};

use crate::known::Known;
use crate::lines::first_line;
use crate::stop::Stop;
use crate::values::count_line;
use machine_state::Limit;
use package_list::PackageList;
use std::alloc::{AllocError, Global};

/// The place of the known package that the first line names, and the text behind the line.
pub fn named_member<'a>(text: &'a [u8], known: &Known) -> Option<(usize, &'a [u8])>
    requires { IsIndexed known.now }
    ensures { MatchOption result (NoLine id_of (IsKnown known.now.list) text.now) (λ p. NamesKnown known.now.list text.now p.0 p.1.now) }
{
    let Some((id, rest)) = first_line(text) else {
        return None;
    };
    match known.place_of(id) {
        None => None,
        Some(place) => Some((place, rest)),
    }
}

/// The text behind the line of a member that may join the list. Where there is none, the list is as it was.
fn next_member<'a>(
    text: &'a [u8],
    known: &Known,
    list: &mut PackageList,
) -> Result<Option<&'a [u8]>, AllocError>
    requires { IsIndexed known.now }
    ensures { IfOk result (λ found. MatchOption found (IdsApart known.now.list → NoLine id_of (MayJoin known.now.list list.old) text.now) (λ rest. AddsMember known.now.list list.old text.now list.new rest.now)) }
{
    let Some((place, rest)) = named_member(text, known) else {
        return Ok(None);
    };
    if list.push_of(&known.list, place)? {
        Ok(Some(rest))
    } else {
        Ok(None)
    }
}

/// So many members, and the text behind their lines.
fn read_members<'a>(
    alloc: Global,
    text: &'a [u8],
    known: &Known,
    count: u64,
) -> Result<(PackageList, &'a [u8]), Stop>
    requires { IsIndexed known.now }
    ensures read { IfOk result (λ p. ReadsSeries (λ m. alone (id_of m) ∷ []) (MayJoin known.now.list) count text.now p.0 p.1.now) }
    ensures stops { IfErr result (λ stop. IfBefore stop (λ left. IdsApart known.now.list → Stops (Series count (NextMember known.now.list) []) text.now left)) }
{
    let mut list = PackageList::new(alloc);
    let mut rest = text;
    for _read in 0..count {
        match next_member(rest, known, &mut list)? {
            None => return Err(Stop::Before(rest.len())),
            Some(behind) => rest = behind,
        }
    }
    Ok((list, rest))
}

/// A list of known packages, and the text behind it; or where its reading stops: at the first line that can't stand there, or for want
/// of memory.
pub fn read_set<'a>(
    alloc: Global,
    text: &'a [u8],
    known: &Known,
) -> Result<(PackageList, &'a [u8]), Stop>
    requires { IsIndexed known.now }
    ensures read { IfOk result (λ p. ReadsPart set_pieces (GoodSet known.now.list) text.now p.0 p.1.now) }
    ensures stops { IfErr result (λ stop. IfBefore stop (λ left. IdsApart known.now.list → Stops (SetPart known.now.list) text.now left)) }
{
    let most = Limit::Packages.number();
    let Some((count, rest)) = count_line(text, "set ", most) else {
        return Err(Stop::Before(text.len()));
    };
    read_members(alloc, rest, known, count)
}
