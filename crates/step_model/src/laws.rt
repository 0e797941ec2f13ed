//! Laws of the steps of cases.
ghost use Rattle.std.specs.Prelude.{◌≡◌, ◌≢◌, ℕ, List, [], Option, None, IfSome};
ghost use Rattle.run_model.specs.Run.{Outcome};
ghost use Rattle.machine_state.specs.declared.refusal.Refusal.{Refusal};
ghost use Rattle.machine_state.specs.declared.arrived.Arrived.{Arrived};
ghost use Rattle.machine_state.specs.State.{Valid};
ghost use Rattle.machine_state.specs.Values.{StateView};
ghost use Rattle.step_model.specs.Case.{Case};
ghost use Rattle.step_model.specs.Steps.{StepWith};
ghost use Rattle.step_model.specs.Lawful.{IsFrom, LawFor};

/// What holds of each step of a case, whatever line is said of each refusal.
pub fn cases_are_stepped()
    // Each case comes to something.
    ensures total { (line : Refusal → List ℕ) (large : Option (List ℕ)) (state : StateView) (case : Case) (arrived : Arrived) → (outcome : Outcome StateView Refusal) × StepWith line large state case arrived outcome }
    // A refused command keeps the state, and its line is said.
    ensures kept { (line : Refusal → List ℕ) (large : Option (List ℕ)) (state : StateView) (case : Case) (arrived : Arrived) (outcome : Outcome StateView Refusal) → StepWith line large state case arrived outcome → IfSome outcome.refusal (λ refusal. outcome.state ≡ state) }
    ensures told { (line : Refusal → List ℕ) (large : Option (List ℕ)) (state : StateView) (case : Case) (arrived : Arrived) (outcome : Outcome StateView Refusal) → StepWith line large state case arrived outcome → IfSome outcome.refusal (λ refusal. outcome.reply ≡ line refusal) }
    // Which text was too large matters to refusals alone.
    ensures plain { (line : Refusal → List ℕ) (large other : Option (List ℕ)) (state : StateView) (case : Case) (arrived : Arrived) (outcome : Outcome StateView Refusal) → outcome.refusal ≡ None → StepWith line large state case arrived outcome → StepWith line other state case arrived outcome }
    // A case that is lawful where this arrives goes from a valid state over into a valid one.
    ensures valid { (line : Refusal → List ℕ) (large : Option (List ℕ)) (state : StateView) (case : Case) (arrived : Arrived) (outcome : Outcome StateView Refusal) → LawFor state arrived case → Valid state → StepWith line large state case arrived outcome → Valid outcome.state }
    // Its reply has a byte, where the line of each refusal has one.
    ensures says { (line : Refusal → List ℕ) (large : Option (List ℕ)) (state : StateView) (case : Case) (arrived : Arrived) (outcome : Outcome StateView Refusal) → LawFor state arrived case → ((refusal : Refusal) → line refusal ≢ []) → StepWith line large state case arrived outcome → outcome.reply ≢ [] }
    // What its state knows was known, or arrived.
    ensures knows { (line : Refusal → List ℕ) (large : Option (List ℕ)) (state : StateView) (case : Case) (arrived : Arrived) (outcome : Outcome StateView Refusal) → LawFor state arrived case → StepWith line large state case arrived outcome → IsFrom state arrived outcome.state }
{}
