//! Laws of pulls.
ghost use Rattle.std.specs.Prelude.{◌≡◌, ◌++◌, ◌∷◌, [], ℕ, List, true, false, None};
ghost use Rattle.package_core.specs.Card.{Card};
ghost use Rattle.package_core.specs.Order.{package_cmp};
ghost use Rattle.package_list.specs.Sorted.{IsAscending};
ghost use Rattle.query_tree.specs.Tree.{Tree};
ghost use Rattle.depend_pull.specs.declared.flags.PullFlags.{PullFlags};
ghost use Rattle.depend_pull.specs.declared.places.Place.{Place};
ghost use Rattle.depend_pull.specs.Places.{is_open, next};
ghost use Rattle.depend_pull.specs.Pull.{taken_in_turn};

/// A pull with dependencies goes on until nothing is left to be taken: as many rounds as the source has members are enough, since
/// each takes a member that wasn't taken.
pub fn pulls_leave_nothing_to_take()
    ensures { (flags : PullFlags) (archs : List (List ℕ)) (base : List Card) (source : List Card) (queries : List Tree) → flags.deps ≡ true → IsAscending package_cmp source → next flags archs base source (taken_in_turn flags archs base source queries) ≡ None }
{}

/// A place that isn't open, since something satisfies it or nothing of the source does, isn't opened by what is taken later.
pub fn passed_places_stay_passed()
    ensures { (base : List Card) (source : List Card) (taken : List Card) (p : Card) (place : Place) → is_open base source taken place ≡ false → is_open base source (taken ++ p ∷ []) place ≡ false }
{}
