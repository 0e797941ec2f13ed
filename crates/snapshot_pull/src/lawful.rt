//! The law of pulls.
ghost use Rattle.std.specs.Prelude.{Bool, List, ℕ, Option};
ghost use Rattle.command_value.specs.Plain.{PlainFollow};
ghost use Rattle.depend_pull.specs.declared.flags.PullFlags.{PullFlags};
ghost use Rattle.machine_state.specs.Values.{StateView};
ghost use Rattle.step_model.specs.Lawful.{CommandLaw};
ghost use Rattle.step_model.specs.Refuses.{IsReadable, reading};
ghost use Rattle.snapshot_pull.specs.Pulls.{MayArrive, pull_case};

/// What a pull keeps to: a valid state goes over into a valid one, each reply has a byte, what is known was known, and no refusal is of a
/// pattern.
pub fn pulls_are_lawful()
    ensures lawful { (dry : Option Bool) (flags : PullFlags) (follow : PlainFollow) (name source destination : List ℕ) (queries : List (List ℕ)) → CommandLaw (λ state. pull_case state dry flags follow name source destination queries) MayArrive }
    // What is read for it can be read.
    ensures reads { (state : StateView) (dry : Option Bool) (flags : PullFlags) (follow : PlainFollow) (name source destination : List ℕ) (queries : List (List ℕ)) → IsReadable (reading (pull_case state dry flags follow name source destination queries)) }
{}
