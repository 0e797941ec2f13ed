//! The architectures that are written as those to be followed.
ghost use Rattle.std.specs.Prelude.{◌≡◌, IfErr, OnOk, None};
ghost use Rattle.command_value.specs.Plain.{plain_follow};
ghost use Rattle.step_model.specs.Answers.{IsFirst};
ghost use Rattle.package_choice.specs.Choice.{bad_arch, bad_archs, bad_follow, is_listed_arch as can_be_listed};

use ap_text::is_architecture;
use command_value::Follow;
use control_stanza::Text;
use machine_state::{ChangeFault, Refusal};
use std::alloc::Global;

/// Whether the text is an architecture that can be listed.
fn is_listed_arch(text: &Text) -> bool
    ensures { result ≡ can_be_listed text.now }
{
    is_architecture(text.as_str()) && text.as_str() != "all"
}

/// The text is an architecture that can be listed. Another one is refused as a bad name.
fn check_arch(alloc: Global, text: &Text) -> Result<(), ChangeFault>
    ensures good { OnOk result (bad_arch text.now ≡ None) }
    ensures fault { IfErr result (IsFirst (bad_arch text.now)) }
{
    if is_listed_arch(text) {
        return Ok(());
    }
    Err(ChangeFault::Refused(Refusal::BadName(text.copy(alloc)?)))
}

/// All of these are architectures that can be listed. The first that isn't is refused as a bad name.
fn check_archs(alloc: Global, texts: &[Text]) -> Result<(), ChangeFault>
    ensures good { OnOk result (bad_archs texts.now ≡ None) }
    ensures fault { IfErr result (IsFirst (bad_archs texts.now)) }
{
    for i in 0..texts.len() {
        check_arch(alloc, &texts[i])?;
    }
    Ok(())
}

/// The architectures that are written can be listed: each is a name other than `source` and `all`. The first that isn't is refused as a bad
/// name. None written is good.
pub fn check_follow(alloc: Global, follow: &Follow) -> Result<(), ChangeFault>
    ensures good { OnOk result (bad_follow (plain_follow follow.now) ≡ None) }
    ensures fault { IfErr result (IsFirst (bad_follow (plain_follow follow.now))) }
{
    match &follow.architectures {
        Some(texts) => check_archs(alloc, texts),
        None => Ok(()),
    }
}
