//! Laws about usage places. Each function does nothing, and has the law as its contract.
ghost use Rattle.std.specs.Prelude.{◌≡◌, ℕ, List, ◌++◌, true};
ghost use Rattle.command_words.specs.Commands.{Begins, IsUsagePlace};
ghost use Rattle.command_words.specs.Spelled.{begins, is_command};

/// Words can be the first of a command exactly where some words complete them to one.
pub fn fronts_complete()
    ensures closed { (front rest : List (List ℕ)) → is_command (front ++ rest) ≡ true → begins front ≡ true }
    ensures completed { (front : List (List ℕ)) → begins front ≡ true → Begins is_command front }
{}

/// Words have one usage place at most.
pub fn one_usage_place()
    ensures { (words : List (List ℕ)) (i j : ℕ) → IsUsagePlace words i → IsUsagePlace words j → i ≡ j }
{}
