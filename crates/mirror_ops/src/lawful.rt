//! The law of the commands of mirrors.
ghost use Rattle.command_value.specs.Plain.{MirrorCommand};
ghost use Rattle.machine_state.specs.Values.{StateView};
ghost use Rattle.step_model.specs.Lawful.{CommandLaw};
ghost use Rattle.step_model.specs.Refuses.{reading};
ghost use Rattle.mirror_ops.specs.Cases.{mirror_case, MayArrive, ReadsArchive};

use mirror_update::archives_fit;

/// What each command of mirrors keeps to: a valid state goes over into a valid one, each reply has a byte, what is known was known or
/// arrived, and no refusal is of a pattern unless such a one arrived.
pub fn mirror_cases_are_lawful()
    ensures lawful { (c : MirrorCommand) → CommandLaw (λ state. mirror_case state c) MayArrive }
    // A command reads nothing, or an archive, and has no conditions of its own then.
    ensures reads { (state : StateView) (c : MirrorCommand) → ReadsArchive (mirror_case state c) (reading (mirror_case state c)) }
{
    archives_fit();
}
