//! Laws of what is chosen.
ghost use Rattle.std.specs.Prelude.{◌≡◌, Bool, List, ℕ};
ghost use Rattle.std.specs.List.{filter};
ghost use Rattle.command_value.specs.Plain.{PlainFollow};
ghost use Rattle.package_core.specs.Card.{Card};
ghost use Rattle.package_core.specs.Order.{package_cmp};
ghost use Rattle.package_list.specs.Sorted.{IsAscending};
ghost use Rattle.package_choice.specs.Choice.{chosen_with};

/// What is chosen is chosen of the list: it is those of its members that pass some test, in the order of the list. So it ascends where the
/// list does.
pub fn choices_are_of_the_list()
    ensures members { (deps : Bool) (follow : PlainFollow) (list : List Card) (queries : List (List ℕ)) → (test : Card → Bool) × (chosen_with deps follow list queries ≡ filter test list) }
    ensures ascending { (deps : Bool) (follow : PlainFollow) (list : List Card) (queries : List (List ℕ)) → IsAscending package_cmp list → IsAscending package_cmp (chosen_with deps follow list queries) }
{}
