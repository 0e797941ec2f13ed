//! What has a name, and what is found by it.
ghost use Rattle.std.specs.Prelude.{◌≡◌, ℕ, List, Some, OnOk, OnErr, length, option_map};
ghost use Rattle.std.specs.List.Sorted.{IsSearchInRange, IsBinarySearchResult};
ghost use Rattle.std.specs.Option.{option_copied};
ghost use Rattle.machine_state.specs.Ascending.{IsAscending, put};
ghost use Rattle.machine_state.specs.Named.{changed, dropped, name_cmp, named, named_cmp};

use ap_text::Name;
use std::alloc::AllocError;

/// What has a name among others of its kind.
pub trait Named {
    ghost name_of: { Self → List ℕ };

    /// Its name.
    fn name(&self) -> &Name
        ensures { result.now ≡ name_of self.now };
}

/// Where that of the name stands among the others, which are in the order of their names, or where a new one would go.
pub fn place_of_name<T: Named>(items: &[T], name: &Name) -> Result<usize, usize>
    ensures found { IsBinarySearchResult (λ item. name_cmp T.name_of item name.now) items.now result }
    ensures bound { IsSearchInRange result (length items.now) }
{
    items.binary_search_by(|item| item.name().order(name))
}

/// That of the name, among others in the order of their names: none exactly where there is none.
pub fn find_named<'a, T: Named>(items: &'a [T], name: &Name) -> Option<&'a T>
    ensures { IsAscending (named_cmp T.name_of) items.now → option_copied result ≡ named T.name_of name.now items.now }
{
    match place_of_name(items, name) {
        Ok(place) => Some(&items[place]),
        Err(_) => None,
    }
}

/// Takes that of the name out of the others, if it is there. They are in the order of their names.
pub fn take_named<T: Named + Drop>(items: &mut Vec<T>, name: &Name) -> Option<T>
    ensures taken { IsAscending (named_cmp T.name_of) items.old.items → result ≡ named T.name_of name.now items.old.items }
    ensures rest { IsAscending (named_cmp T.name_of) items.old.items → items.new.items ≡ dropped T.name_of name.now items.old.items }
{
    match place_of_name(items, name) {
        Ok(place) => Some(items.remove(place)),
        Err(_) => None,
    }
}

/// Puts one more at its place among the others, unless one of its name is there. They are in the order of their names, and stay so. After
/// want of memory they are as they were.
pub fn put_named<T: Named + Drop>(items: &mut Vec<T>, item: T) -> Result<(), AllocError>
    ensures put { IsAscending (named_cmp T.name_of) items.old.items → OnOk result (items.new.items ≡ put (named_cmp T.name_of) item items.old.items) }
    ensures unchanged { OnErr result (items.new.items ≡ items.old.items) }
{
    match place_of_name(items, item.name()) {
        Ok(_) => Ok(()),
        Err(place) => Ok(items.insert(place, item)?),
    }
}

/// Puts what that of its name is changed to into the place of that. They are in the order of their names.
pub fn set_named<T: Named + Drop>(items: &mut Vec<T>, item: T)
    ensures { (change : T → T) → IsAscending (named_cmp T.name_of) items.old.items → option_map change (named T.name_of (T.name_of item) items.old.items) ≡ Some item → items.new.items ≡ changed T.name_of (T.name_of item) change items.old.items }
{
    if let Ok(place) = place_of_name(items, item.name()) {
        items[place] = item;
    }
}
