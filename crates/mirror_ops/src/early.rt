//! What each command of mirrors is refused for by its words, and by the mirrors that are there.
ghost use Rattle.std.specs.Prelude.{◌≡◌, IfOk, IfErr, OnOk, None, Some};
ghost use Rattle.std.specs.Option.{option_map};
ghost use Rattle.machine_state.specs.State.{Valid, mirror_of};
ghost use Rattle.step_model.specs.Answers.{IsFirst};
ghost use Rattle.mirror_ops.specs.Cases.{bad_create, bad_mirror, bad_rename};
ghost use Rattle.mirror_ops.specs.Settings.{bare_mirror};

use crate::checks::free;
use crate::settings::settings_of;
use ap_text::Name;
use control_stanza::Text;
use machine_state::{ChangeFault, Mirror, State};
use mirror_lists::mirror_there;
use std::alloc::Global;
use step_model::name_of;

/// The mirror that is to be made, without its filter.
pub(crate) fn create_early(
    alloc: Global,
    state: &State,
    architectures: &Option<Vec<Text>>,
    filter: &Option<Text>,
    name: &Text,
    archive: &Text,
    distribution: &Text,
    components: &[Text],
) -> Result<Mirror, ChangeFault>
    ensures good { Valid state.now → OnOk result (bad_create state.now (option_map (λ v. v.items) architectures.now) filter.now name.now archive.now distribution.now components.now ≡ None) }
    ensures fault { Valid state.now → IfErr result (IsFirst (bad_create state.now (option_map (λ v. v.items) architectures.now) filter.now name.now archive.now distribution.now components.now)) }
    ensures same { IfOk result (λ mirror. mirror ≡ bare_mirror (option_map (λ v. v.items) architectures.now) name.now archive.now distribution.now components.now) }
{
    let mirror = settings_of(
        alloc,
        architectures,
        filter,
        name,
        archive,
        distribution,
        components,
    )?;
    free(alloc, state, &mirror.name)?;
    Ok(mirror)
}

/// The mirror that a text names.
pub(crate) fn named_mirror<'a>(
    alloc: Global,
    state: &'a State,
    text: &Text,
) -> Result<&'a Mirror, ChangeFault>
    ensures good { Valid state.now → OnOk result (bad_mirror state.now text.now ≡ None) }
    ensures fault { Valid state.now → IfErr result (IsFirst (bad_mirror state.now text.now)) }
    ensures found { Valid state.now → IfOk result (λ mirror. mirror_of text.now state.now.mirrors ≡ Some mirror.now) }
{
    let name = name_of(alloc, text)?;
    mirror_there(alloc, state, &name)
}

/// The name that a mirror has, and the name that it is to have.
pub(crate) fn rename_early(
    alloc: Global,
    state: &State,
    from: &Text,
    to: &Text,
) -> Result<(Name, Name), ChangeFault>
    ensures good { Valid state.now → OnOk result (bad_rename state.now from.now to.now ≡ None) }
    ensures fault { Valid state.now → IfErr result (IsFirst (bad_rename state.now from.now to.now)) }
    ensures before { IfOk result (λ names. names.0 ≡ from.now) }
    ensures after { IfOk result (λ names. names.1 ≡ to.now) }
{
    let before = name_of(alloc, from)?;
    let after = name_of(alloc, to)?;
    free(alloc, state, &after)?;
    mirror_there(alloc, state, &before)?;
    Ok((before, after))
}

/// The name of the mirror that a text names.
pub(crate) fn name_early(alloc: Global, state: &State, text: &Text) -> Result<Name, ChangeFault>
    ensures good { Valid state.now → OnOk result (bad_mirror state.now text.now ≡ None) }
    ensures fault { Valid state.now → IfErr result (IsFirst (bad_mirror state.now text.now)) }
    ensures name { IfOk result (λ name. name ≡ text.now) }
{
    let name = name_of(alloc, text)?;
    mirror_there(alloc, state, &name)?;
    Ok(name)
}
