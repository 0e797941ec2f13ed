//! Sorted lists of packages.
ghost use Rattle.std.specs.Prelude.{◌≡◌, ◌≤◌, ◌<◌, ◌++◌, ◌↔◌, IfOk, OnOk, OnErr, IsTrue, IsFalse, length, slice_get, [], ◌∷◌, MatchOption, Some, map, option_map, if◌then◌else◌};
ghost use Rattle.std.specs.Rc.{rc_value};
ghost use Rattle.package_core.specs.Order.{package_cmp};
ghost use Rattle.std.specs.Option.{option_copied};
ghost use Rattle.package_core.specs.Card.{Card};
ghost use Rattle.package_list.specs.Sorted.{put, IsAscending, AllLess, equal_of};
ghost use Rattle.package_list.specs.Lists.{union, without, has_member, clashes, merged, latest};
ghost use Rattle.package_list.specs.Answers.{Answers, insert_answer, append_answer, size_answer, join_answer};

use crate::apart::apart_union_of;
use crate::fault::ListFault;
use crate::gather::hold_all;
use crate::join::{copy_items, union_of};
use crate::joined::JoinedPackages;
use crate::place::{clashes_at, found_at, is_at, place_of, shared_in};
use crate::push::{push_apart, push_onto};
use crate::reduce::{latest_of, merge_of};
use crate::shared::{SharedPackage, package_of, share};
use package_core::Package;
use std::alloc::{AllocError, Global};
use std::marker::Model;
use std::rc::Rc;

/// The members that a list may have.
pub const MOST_MEMBERS: usize = 200_000;

/// The members that the list of all known packages may have.
pub const MOST_KNOWN: usize = 400_000;

/// A list of packages, seen as its members in the order of packages, of which no two are equal. Packages are shared, so
/// a copy of a list copies no stanza.
#[derive(Drop)]
pub struct PackageList {
    items: Vec<Rc<SharedPackage>>,
}

impl Model for PackageList {
    ghost use Rattle.std.specs.Prelude.{List, map};
    ghost use Rattle.std.specs.Rc.{rc_value};
    ghost use Rattle.package_core.specs.declared.package.Package.{Package};

    ghost Value = { List Package };

    ghost use Rattle.package_core.specs.Order.{package_cmp};
    ghost use Rattle.package_list.specs.Sorted.{IsAscending};

    ghost view = { λ a. map rc_value a.items.items };

    ghost invariant = { λ a. IsAscending package_cmp (map rc_value a.items.items) };
}

impl PackageList {
    /// The empty list.
    pub fn new(alloc: Global) -> PackageList
        ensures { result ≡ [] }
    {
        PackageList {
            items: Vec::new(alloc),
        }
    }

    /// The members stand in the order of packages, no two of them equal.
    pub fn members_ascend(&self)
        ensures { IsAscending package_cmp self.now }
    {
        let _ = &self.items;
    }

    /// The list of these packages, which stand in their order, no two of them equal. They are shared.
    pub fn from_ascending(packages: Vec<Rc<SharedPackage>>) -> PackageList
        requires { IsAscending package_cmp (map rc_value packages.items) }
        ensures { result ≡ map rc_value packages.items }
    {
        PackageList { items: packages }
    }

    /// The packages joined in the order in which they stand; of equal ones the first stays. The first that can't join those
    /// before it decides the fault: `Conflict` where none of those is its equal and one of them has its triple; else `Full`
    /// where it would be the 200,001st member. It takes n log n comparisons, and copies no package.
    pub fn from_packages(alloc: Global, packages: Vec<Package>) -> Result<PackageList, ListFault>
        ensures { Answers result (join_answer packages.items) }
    {
        let packages = hold_all(alloc, packages)?;
        let joined = JoinedPackages::new(alloc, &packages)?;
        drop(packages);
        Ok(joined.share(alloc)?)
    }

    /// The number of members.
    pub fn len(&self) -> usize
        ensures { result ≡ length self.now }
    {
        self.items.len()
    }

    /// The member at a place counted from 0; `None` exactly where the list ends before it.
    pub fn get(&self, i: usize) -> Option<&Package>
        ensures { MatchOption result (length self.now ≤ i) (λ p. slice_get self.now i ≡ Some p.now) }
    {
        match self.items.get(i) {
            Some(rc) => Some(package_of(rc)),
            None => None,
        }
    }

    /// All members in their order, shared, for a loop over them.
    pub fn as_slice(&self) -> &[Rc<SharedPackage>]
        ensures { map rc_value result.now ≡ self.now }
    {
        self.items.as_slice()
    }

    /// The member that is equal to the package in the order of packages; `None` exactly where none is. What is said of the
    /// member's file, beside its SHA-256, may differ from what the package says. It takes no memory.
    pub fn equal_of(&self, wanted: &Package) -> Option<&Package>
        ensures { option_copied result ≡ equal_of package_cmp self.now wanted.now }
    {
        match self.shared_equal_of(wanted) {
            Some(member) => Some(package_of(member)),
            None => None,
        }
    }

    /// The same member as it is shared, so that another list may have it.
    pub fn shared_equal_of(&self, wanted: &Package) -> Option<&Rc<SharedPackage>>
        ensures { option_map rc_value (option_copied result) ≡ equal_of package_cmp self.now wanted.now }
    {
        shared_in(&self.items, wanted)
    }

    /// The same list once more, with its packages shared. Fails only for want of memory.
    pub fn copy(&self, alloc: Global) -> Result<PackageList, AllocError>
        ensures { IfOk result (λ made. made ≡ self.now) }
    {
        Ok(PackageList {
            items: copy_items(alloc, &self.items)?,
        })
    }

    /// Whether an equal of the package is a member. It takes no memory.
    pub fn has(&self, wanted: &Package) -> bool
        ensures { result ≡ has_member self.now wanted.now }
    {
        found_at(&self.items, wanted).is_some()
    }

    /// Puts a package at its place. False where an equal is there, which stays. `Conflict` exactly where none is and a
    /// member has the package's triple; then `Full` exactly where the list has 200,000 members or more. After a fault the
    /// list is as it was.
    pub fn insert(&mut self, alloc: Global, new: Package) -> Result<bool, ListFault>
        ensures answer { Answers result (insert_answer self.old new) }
        ensures ok { OnOk result (self.new ≡ put package_cmp self.old new) }
        ensures err { OnErr result (self.new ≡ self.old) }
    {
        insert_into(alloc, &mut self.items, new)
    }

    /// Puts a package behind all members, however many they are. False exactly where one of them isn't less than it; the
    /// list then stays as it was, as it does where memory is wanting.
    pub fn push(&mut self, alloc: Global, new: Package) -> Result<bool, AllocError>
        ensures answer { IfOk result (λ done. IsTrue done ↔ AllLess package_cmp self.old new) }
        ensures list { IfOk result (λ done. self.new ≡ (if done then self.old ++ new ∷ [] else self.old)) }
        ensures err { OnErr result (self.new ≡ self.old) }
    {
        let new = share(alloc, new)?;
        self.push_shared(new)
    }

    /// The same of a package that is shared already. No text of it is made.
    pub fn push_shared(&mut self, new: Rc<SharedPackage>) -> Result<bool, AllocError>
        ensures answer { IfOk result (λ done. IsTrue done ↔ AllLess package_cmp self.old new.value) }
        ensures list { IfOk result (λ done. self.new ≡ (if done then self.old ++ new.value ∷ [] else self.old)) }
        ensures err { OnErr result (self.new ≡ self.old) }
    {
        push_onto(&mut self.items, new)
    }

    /// Puts the member at a place of another list behind all members, shared, however many they are. False exactly where
    /// one of them isn't less than it, or clashes with it; the list then stays as it was, as it does where memory is wanting.
    pub fn push_of(&mut self, other: &PackageList, place: usize) -> Result<bool, AllocError>
        requires { place < length other.now }
        ensures answer { (p : Card) → slice_get other.now place ≡ Some p → IfOk result (λ done. IsTrue done ↔ (AllLess package_cmp self.old p × IsFalse (clashes self.old p))) }
        ensures list { (p : Card) → slice_get other.now place ≡ Some p → IfOk result (λ done. self.new ≡ (if done then self.old ++ p ∷ [] else self.old)) }
        ensures err { OnErr result (self.new ≡ self.old) }
    {
        push_apart(&mut self.items, &other.items[place])
    }

    /// Takes out the equal of the package, and tells whether there was one. It takes no memory.
    pub fn remove(&mut self, gone: &Package) -> bool
        ensures found { result ≡ has_member self.old gone.now }
        ensures list { self.new ≡ without self.old (gone.now ∷ []) }
    {
        remove_from(&mut self.items, gone)
    }

    /// Takes all of a later list; of two equals the own member stays. `Conflict` for the first member of `later` that has
    /// the triple of another member of the union; else `Full` exactly where the union has more than 200,000 members. After
    /// a fault the list is as it was.
    pub fn append_from(&mut self, alloc: Global, later: &PackageList) -> Result<(), ListFault>
        ensures answer { Answers result (append_answer self.old later.now) }
        ensures ok { OnOk result (self.new ≡ union self.old later.now) }
        ensures err { OnErr result (self.new ≡ self.old) }
    {
        let all = apart_union_of(alloc, &self.items, &later.items)?;
        if all.len() > MOST_MEMBERS {
            return Err(ListFault::Full);
        }
        self.items = all;
        Ok(())
    }

    /// Takes all of another list, members of one triple too; of two equals the own member stays. `Full` exactly where the
    /// union has more than 400,000 members; the list then is as it was.
    pub fn join_known(&mut self, alloc: Global, other: &PackageList) -> Result<(), ListFault>
        ensures answer { Answers result (size_answer MOST_KNOWN (union self.old other.now)) }
        ensures ok { OnOk result (self.new ≡ union self.old other.now) }
        ensures err { OnErr result (self.new ≡ self.old) }
    {
        let all = union_of(alloc, &self.items, &other.items)?;
        if all.len() > MOST_KNOWN {
            return Err(ListFault::Full);
        }
        self.items = all;
        Ok(())
    }

    /// Drops each own member whose name and architecture the later list has, and takes all of that list. `Full` exactly
    /// where that makes more than 200,000 members; the list then is as it was.
    pub fn merge_from(&mut self, alloc: Global, later: &PackageList) -> Result<(), ListFault>
        ensures answer { Answers result (size_answer MOST_MEMBERS (merged self.old later.now)) }
        ensures ok { OnOk result (self.new ≡ merged self.old later.now) }
        ensures err { OnErr result (self.new ≡ self.old) }
    {
        let all = merge_of(alloc, &self.items, &later.items)?;
        if all.len() > MOST_MEMBERS {
            return Err(ListFault::Full);
        }
        self.items = all;
        Ok(())
    }

    /// Takes all of a later list, and keeps of each name and architecture the greatest version alone, of equal ones the
    /// greater in the order of packages (Debian Policy 5.6.12). `Full` exactly where that makes more than 200,000 members;
    /// the list then is as it was.
    pub fn latest_from(&mut self, alloc: Global, later: &PackageList) -> Result<(), ListFault>
        ensures answer { Answers result (size_answer MOST_MEMBERS (latest self.old later.now)) }
        ensures ok { OnOk result (self.new ≡ latest self.old later.now) }
        ensures err { OnErr result (self.new ≡ self.old) }
    {
        let all = latest_of(alloc, &self.items, &later.items)?;
        if all.len() > MOST_MEMBERS {
            return Err(ListFault::Full);
        }
        self.items = all;
        Ok(())
    }
}

fn insert_into(
    alloc: Global,
    items: &mut Vec<Rc<SharedPackage>>,
    new: Package,
) -> Result<bool, ListFault>
    requires { IsAscending package_cmp (map rc_value items.old.items) }
    ensures answer { Answers result (insert_answer (map rc_value items.old.items) new) }
    ensures ok { OnOk result (map rc_value items.new.items ≡ put package_cmp (map rc_value items.old.items) new) }
    ensures err { OnErr result (map rc_value items.new.items ≡ map rc_value items.old.items) }
{
    let place = place_of(items, &new);
    if is_at(items, place, &new) {
        return Ok(false);
    }
    if clashes_at(items, place, &new) {
        return Err(ListFault::Conflict(new.triple(alloc)?));
    }
    if items.len() >= MOST_MEMBERS {
        return Err(ListFault::Full);
    }
    let new = share(alloc, new)?;
    items.insert(place, new)?;
    Ok(true)
}

fn remove_from(items: &mut Vec<Rc<SharedPackage>>, gone: &Package) -> bool
    requires { IsAscending package_cmp (map rc_value items.old.items) }
    ensures found { result ≡ has_member (map rc_value items.old.items) gone.now }
    ensures list { map rc_value items.new.items ≡ without (map rc_value items.old.items) (gone.now ∷ []) }
    ensures ascending { IsAscending package_cmp (map rc_value items.new.items) }
{
    match found_at(items, gone) {
        Some(place) => {
            items.remove(place);
            true
        }
        None => false,
    }
}
