//! The packages of a root.
ghost use Rattle.std.specs.Prelude.{◌≡◌, ◌++◌, ◌∷◌, ◌≤◌, ◌↔◌, IsTrue, All, ℕ, [], List, Option, Some, IfOk, IfErr, MatchOption, length, string_bytes, MatchBool};
ghost use Rattle.package_core.specs.Card.{Card, package_text};
ghost use Rattle.package_core.specs.Order.{package_cmp};
ghost use Rattle.package_list.specs.Sorted.{AllLess};
ghost use Rattle.catalogue_lines.specs.Pieces.{packed, Begins};
ghost use Rattle.catalogue_lines.specs.SetLines.{id_of};
ghost use Rattle.catalogue_lines.specs.KnownForms.{known_pieces, NextPackage, KnownPart, IsWithinLimits};
ghost use Rattle.catalogue_lines.specs.PartForms.{Series};
ghost use Rattle.catalogue_lines.specs.Reading.{IfBefore, Stops, ReadsSeries, ReadsPart, GoodKnown, IsIndexed, PlaceIs, RoomIs, IsSmall, AddsPackage};

use crate::lines::{after_line, as_text, size_of};
use crate::stop::Stop;
use crate::values::count_line;
use machine_state::Limit;
use package_core::Package;
use package_list::{PackageList, SharedPackage};
use std::alloc::{AllocError, Global};
use std::collections::BTreeMap;
use std::rc::Rc;

/// The packages that were read, and what is found by them.
#[derive(Drop)]
pub struct Known {
    /// The packages.
    pub list: PackageList,
    /// The place of each by its id.
    places: BTreeMap<String, usize>,
    /// How many bytes more their texts may have together, where they haven't too many already.
    room: Option<u64>,
    /// Whether each file is within its limit.
    small: bool,
}

impl Known {
    fn new(alloc: Global) -> Known
        ensures empty { result.list ≡ [] }
        ensures indexed { IsIndexed result }
    {
        Known {
            list: PackageList::new(alloc),
            places: BTreeMap::new(alloc),
            room: Some(Limit::Catalogue.number()),
            small: true,
        }
    }

    /// The place of the package of this id.
    pub(crate) fn place_of(&self, id: &[u8]) -> Option<usize>
        requires { IsIndexed self.now }
        ensures { PlaceIs self.now.list id.now result }
    {
        match as_text(id) {
            None => None,
            Some(id) => self.places.get(id).copied(),
        }
    }

    /// Whether the limits are kept that no line of a package tells of.
    pub fn is_within_limits(&self) -> bool
        requires { IsIndexed self.now }
        ensures { IsTrue result ↔ IsWithinLimits self.now.list }
    {
        self.room.is_some() && self.small
    }

    /// Puts a package with this text behind the others, if it comes after them.
    fn push(&mut self, alloc: Global, new: Package, text: &[u8]) -> Result<bool, AllocError>
        requires indexed { IsIndexed self.old }
        requires text { text.now ≡ package_text new }
        ensures answer { IfOk result (λ done. MatchBool done (AllLess package_cmp self.old.list new × (self.new.list ≡ self.old.list ++ new ∷ [])) (AllLess package_cmp self.old.list new → ⊥)) }
        ensures indexed { IfOk result (λ done. IsIndexed self.new) }
    {
        let small = are_small(self.small, &new);
        let new = SharedPackage::with_text(new, text);
        let id = id_text(alloc, &new)?;
        let new = Rc::new(alloc, new)?;
        if !self.list.push_shared(new)? {
            return Ok(false);
        }
        let place = self.list.len() - 1;
        self.places.insert(id, place)?;
        self.room = less(self.room, text.len() as u64);
        self.small = small;
        Ok(true)
    }
}

/// Whether this file is within the limit too, where that is known of those before it.
fn are_small(before: bool, new: &Package) -> bool
    ensures { (list : List Card) → (IsTrue before ↔ All IsSmall list) → IsTrue result ↔ All IsSmall (list ++ new.now ∷ []) }
{
    before && new.said.size <= Limit::File.number()
}

/// What is left of a room, where there is as much in it.
fn less(room: Option<u64>, used: u64) -> Option<u64>
    ensures { (before : List Card) (new : Card) → RoomIs before room → used ≡ length (package_text new) → RoomIs (before ++ new ∷ []) result }
{
    match room {
        None => None,
        Some(room) => room.checked_sub(used),
    }
}

/// The id of a package, in lower case.
#[tactic(auto, unfolding(crate::specs::SetLines::id_of))]
pub(crate) fn id_text(alloc: Global, member: &SharedPackage) -> Result<String, AllocError>
    ensures { IfOk result (λ id. string_bytes id ≡ id_of member.now) }
{
    hex::encode(alloc, member.id())
}

/// A package with its line, its text, and the text behind both.
fn package_at<'a>(
    alloc: Global,
    text: &'a [u8],
) -> Result<Option<(Package, &'a [u8], &'a [u8])>, AllocError>
    ensures { IfOk result (λ found. MatchOption found ((p : Card) (behind : List ℕ) → Begins text.now (packed p) behind → ⊥) (λ t. Begins text.now (packed t.0) t.2.now × (t.1.now ≡ package_text t.0) × ((p : Card) (behind : List ℕ) → Begins text.now (packed p) behind → p ≡ t.0))) }
{
    let most = size_of(text);
    let Some((size, rest)) = count_line(text, "package ", most) else {
        return Ok(None);
    };
    let Some((own, behind)) = front_of(rest, size) else {
        return Ok(None);
    };
    match Package::read_text(alloc, own)? {
        None => Ok(None),
        Some(package) => Ok(Some((package, own, behind))),
    }
}

/// So many bytes, and what stands behind them, where there are as many.
fn front_of(text: &[u8], size: u64) -> Option<(&[u8], &[u8])>
    ensures { MatchOption result ((front : List ℕ) (back : List ℕ) → text.now ≡ front ++ back → length front ≡ size → ⊥) (λ p. (text.now ≡ p.0.now ++ p.1.now) × (length p.0.now ≡ size)) }
{
    if size > text.len() as u64 {
        return None;
    }
    Some(text.split_at(size as usize))
}

/// The text behind a package that comes after those before it. Where there is none, nothing is told of the packages.
fn next_package<'a>(
    alloc: Global,
    text: &'a [u8],
    known: &mut Known,
) -> Result<Option<&'a [u8]>, AllocError>
    requires { IsIndexed known.old }
    ensures { IfOk result (λ found. MatchOption found ((p : Card) (behind : List ℕ) → Begins text.now (packed p) behind → AllLess package_cmp known.old.list p → ⊥) (λ rest. AddsPackage known.old.list text.now known.new.list rest.now × IsIndexed known.new)) }
{
    let Some((package, own, rest)) = package_at(alloc, text)? else {
        return Ok(None);
    };
    if known.push(alloc, package, own)? {
        Ok(Some(rest))
    } else {
        Ok(None)
    }
}

/// So many packages, and the text behind them.
fn read_packages(alloc: Global, text: &[u8], count: u64) -> Result<(Known, &[u8]), Stop>
    ensures read { IfOk result (λ p. ReadsSeries (λ p. packed p ∷ []) (AllLess package_cmp) count text.now p.0.list p.1.now) }
    ensures indexed { IfOk result (λ p. IsIndexed p.0) }
    ensures stops { IfErr result (λ stop. IfBefore stop (Stops (Series count NextPackage []) text.now)) }
{
    let mut known = Known::new(alloc);
    let mut rest = text;
    for _read in 0..count {
        match next_package(alloc, rest, &mut known)? {
            None => return Err(Stop::Before(rest.len())),
            Some(behind) => rest = behind,
        }
    }
    Ok((known, rest))
}

/// The first line of a root and its packages, and the text behind them; or where their reading stops: at the first line that can't
/// stand there, or for want of memory.
pub fn read_known(alloc: Global, text: &[u8]) -> Result<(Known, &[u8]), Stop>
    ensures read { IfOk result (λ p. ReadsPart known_pieces GoodKnown text.now p.0.list p.1.now) }
    ensures indexed { IfOk result (λ p. IsIndexed p.0) }
    ensures stops { IfErr result (λ stop. IfBefore stop (Stops KnownPart text.now)) }
{
    let Some(rest) = after_line(text, "aptly root 0") else {
        return Err(Stop::Before(text.len()));
    };
    let most = Limit::Known.number();
    let Some((count, rest)) = count_line(rest, "known ", most) else {
        return Err(Stop::Before(rest.len()));
    };
    read_packages(alloc, rest, count)
}
