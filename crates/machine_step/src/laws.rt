//! Laws of steps.
ghost use Rattle.std.specs.Prelude.{◌≡◌, ◌≢◌, ℕ, ℤ, List, [], Option, None, Some, IsSome};
ghost use Rattle.run_model.specs.Run.{Outcome};
ghost use Rattle.command_words.specs.Plain.{PlainCommand};
ghost use Rattle.machine_state.specs.declared.refusal.Refusal.{Refusal};
ghost use Rattle.machine_state.specs.declared.refusal.Refusal.TheVariants.{NotBuilt};
ghost use Rattle.machine_state.specs.declared.arrived.Arrived.{Arrived};
ghost use Rattle.machine_state.specs.State.{Valid};
ghost use Rattle.machine_state.specs.Values.{StateView};
ghost use Rattle.reply_text.specs.Refusals.{refusal_line};
ghost use Rattle.step_model.specs.Lawful.{IsFrom};
ghost use Rattle.step_model.specs.Refuses.{Refuses};
ghost use Rattle.machine_step.specs.Causes.{IsCause, IsUnbuilt};
ghost use Rattle.machine_step.specs.Step.{CanBeRead, case_of, Given, read_for, refused, Step, StepWith};

use local_repo::repo_cases_are_lawful;
use package_intake::arrivals_fit;

/// What holds of every step.
pub fn laws_of_steps()
    // A valid state goes over into a valid one.
    ensures valid { (given : Given) (large : Option (List ℕ)) (state : StateView) (command : PlainCommand) (outcome : Outcome StateView Refusal) → Valid state → Step given large state command outcome → Valid outcome.state }
    // Each command comes to something in every state.
    ensures total { (given : Given) (large : Option (List ℕ)) (state : StateView) (command : PlainCommand) → (outcome : Outcome StateView Refusal) × Step given large state command outcome }
    // One that is refused before anything is read comes to its refusal.
    ensures refuses { (given : Given) (large : Option (List ℕ)) (state : StateView) (command : PlainCommand) (refusal : Refusal) → Refuses large (case_of given.now state command) (Some refusal) → Step given large state command (refused state refusal) }
    // A refused command keeps the state, and says the line of its refusal.
    ensures kept { (given : Given) (large : Option (List ℕ)) (state : StateView) (command : PlainCommand) (outcome : Outcome StateView Refusal) → Step given large state command outcome → IsSome outcome.refusal → outcome.state ≡ state }
    ensures refused_says { (given : Given) (large : Option (List ℕ)) (state : StateView) (command : PlainCommand) (outcome : Outcome StateView Refusal) (refusal : Refusal) → Step given large state command outcome → outcome.refusal ≡ Some refusal → outcome.reply ≡ refusal_line refusal }
    // Each reply has a byte.
    ensures says { (given : Given) (large : Option (List ℕ)) (state : StateView) (command : PlainCommand) (outcome : Outcome StateView Refusal) → Step given large state command outcome → outcome.reply ≢ [] }
    // Which text was too large matters to refusals alone.
    ensures plain { (given : Given) (large other : Option (List ℕ)) (state : StateView) (command : PlainCommand) (outcome : Outcome StateView Refusal) → outcome.refusal ≡ None → Step given large state command outcome → Step given other state command outcome }
    // What the new state knows was known, or arrived.
    ensures knows { (now : ℤ) (large : Option (List ℕ)) (state : StateView) (command : PlainCommand) (arrived : Arrived) (outcome : Outcome StateView Refusal) → StepWith now large state command arrived outcome → IsFrom state arrived outcome.state }
    // Each refusal has its cause.
    ensures cause { (given : Given) (large : Option (List ℕ)) (state : StateView) (command : PlainCommand) (outcome : Outcome StateView Refusal) (refusal : Refusal) → Step given large state command outcome → outcome.refusal ≡ Some refusal → IsCause given.now large state command refusal }
    // A command that isn't built is refused so.
    ensures unbuilt { (given : Given) (large : Option (List ℕ)) (state : StateView) (command : PlainCommand) (outcome : Outcome StateView Refusal) → IsUnbuilt command → Step given large state command outcome → outcome.refusal ≡ Some NotBuilt }
    // What is to be read can be read.
    ensures reads { (now : ℤ) (state : StateView) (command : PlainCommand) → CanBeRead (case_of now state command) (read_for now state command) }
{
    arrivals_fit();
    repo_cases_are_lawful();
}
