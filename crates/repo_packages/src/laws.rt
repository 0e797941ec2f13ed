//! The laws of the commands on packages.
ghost use Rattle.std.specs.Prelude.{Bool, List, ℕ, Option};
ghost use Rattle.command_value.specs.Plain.{PlainFollow};
ghost use Rattle.repo_packages.specs.PackageCases.{KeepsTo, addition_case, copy_case, import_case, move_case, removal_case};

use package_intake::arrivals_fit;

/// What each command on packages keeps to: a valid state goes over into a valid one, each reply has a byte, what is known was known or
/// arrived, and no refusal is of a pattern. And what is read can be read.
pub fn package_cases_are_lawful()
    ensures addition { (name folder : List ℕ) → KeepsTo (λ state. addition_case state name folder) }
    ensures removal { (dry : Option Bool) (name : List ℕ) (queries : List (List ℕ)) → KeepsTo (λ state. removal_case state dry name queries) }
    ensures copy { (dry deps : Option Bool) (follow : PlainFollow) (source destination : List ℕ) (queries : List (List ℕ)) → KeepsTo (λ state. copy_case state dry deps follow source destination queries) }
    ensures transfer { (dry deps : Option Bool) (follow : PlainFollow) (source destination : List ℕ) (queries : List (List ℕ)) → KeepsTo (λ state. move_case state dry deps follow source destination queries) }
    ensures imports { (dry deps : Option Bool) (follow : PlainFollow) (mirror repo : List ℕ) (queries : List (List ℕ)) → KeepsTo (λ state. import_case state dry deps follow mirror repo queries) }
{
    arrivals_fit();
}
