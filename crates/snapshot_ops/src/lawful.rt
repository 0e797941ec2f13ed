//! The law of the commands of snapshots.
ghost use Rattle.command_value.specs.Plain.{SnapshotCommand};
ghost use Rattle.machine_state.specs.Values.{StateView};
ghost use Rattle.step_model.specs.Lawful.{CommandLaw};
ghost use Rattle.step_model.specs.Refuses.{IsReadable, reading};
ghost use Rattle.snapshot_ops.specs.Cases.{snapshot_case, MayArrive};

/// What each command of snapshots keeps to that is built, which it is in all states or in none: a valid state goes over into a valid
/// one, each reply has a byte, what is known was known, and no refusal is of a pattern.
pub fn snapshot_cases_are_lawful()
    ensures lawful { (c : SnapshotCommand) → CommandLaw (λ state. snapshot_case state c) MayArrive }
    // What is read for a command can be read.
    ensures reads { (state : StateView) (c : SnapshotCommand) → IsReadable (reading (snapshot_case state c)) }
{}
