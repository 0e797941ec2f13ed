//! Laws of lists of packages.
ghost use Rattle.std.specs.Prelude.{◌≡◌, ◌++◌, ◌∷◌, [], List, MatchResult, Some, None};
ghost use Rattle.std.specs.Option.{option_or};
ghost use Rattle.package_core.specs.Card.{Card};
ghost use Rattle.package_core.specs.Order.{package_cmp};
ghost use Rattle.package_list.specs.Sorted.{IsAscending, equal_of, put};
ghost use Rattle.package_list.specs.Lists.{union, joined};
ghost use Rattle.package_list.specs.Answers.{insert_answer, refusal};

/// A union ascends where the first list does, and has an equal of a package exactly where one of both lists has one: the
/// first list's, where it has one.
pub fn unions_have_what_either_has()
    ensures ascending { (xs : List Card) (ys : List Card) → IsAscending package_cmp xs → IsAscending package_cmp (union xs ys) }
    ensures members { (xs : List Card) (ys : List Card) (q : Card) → IsAscending package_cmp xs → equal_of package_cmp (union xs ys) q ≡ option_or (equal_of package_cmp xs q) (equal_of package_cmp ys q) }
{}

/// Packages are joined as if each in turn were inserted into the list of those before it: what keeps one from joining them
/// is what that insert tells, and of equal ones the first is a member.
pub fn packages_join_in_turn()
    ensures next { (before : List Card) (p : Card) → joined (before ++ p ∷ []) ≡ put package_cmp (joined before) p }
    ensures refusals { (before : List Card) (p : Card) → MatchResult (insert_answer (joined before) p) (λ _. refusal before p ≡ None) (λ e. refusal before p ≡ Some e) }
    ensures members { (ps : List Card) (q : Card) → equal_of package_cmp (joined ps) q ≡ equal_of package_cmp ps q }
    ensures ascending { (ps : List Card) → IsAscending package_cmp (joined ps) }
{}
