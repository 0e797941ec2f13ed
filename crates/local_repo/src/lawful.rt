//! The law of the commands of repositories.
ghost use Rattle.command_value.specs.Plain.{RepoCommand};
ghost use Rattle.machine_state.specs.Values.{StateView};
ghost use Rattle.step_model.specs.Lawful.{CommandLaw};
ghost use Rattle.step_model.specs.Refuses.{IsReadable, reading};
ghost use Rattle.repo_packages.specs.PackageCases.{MayArrive};
ghost use Rattle.local_repo.specs.Cases.{repo_case};

use repo_packages::package_cases_are_lawful;

/// What each command of repositories keeps to that is built, which it is in all states or in none: a valid state goes over into a valid
/// one, each reply has a byte, what is known was known or arrived, and no refusal is of a pattern.
pub fn repo_cases_are_lawful()
    ensures lawful { (c : RepoCommand) → CommandLaw (λ state. repo_case state c) MayArrive }
    // What is read for a command can be read.
    ensures reads { (state : StateView) (c : RepoCommand) → IsReadable (reading (repo_case state c)) }
{
    package_cases_are_lawful();
}
