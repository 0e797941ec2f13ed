//! The words of a command as names and paths.
ghost use Rattle.std.specs.Prelude.{◌≡◌, IfOk, IfErr, OnOk, None};
ghost use Rattle.step_model.specs.Answers.{IsFirst};
ghost use Rattle.step_model.specs.Names.{bad_name, bad_folder};

use ap_text::{Name, SafePath, is_name, is_safe_path};
use control_stanza::Text;
use machine_state::{ChangeFault, Refusal};
use std::alloc::Global;

/// The text as a name. One that is none is refused as a bad name.
pub fn name_of(alloc: Global, text: &Text) -> Result<Name, ChangeFault>
    ensures good { OnOk result (bad_name text.now ≡ None) }
    ensures fault { IfErr result (IsFirst (bad_name text.now)) }
    ensures same { IfOk result (λ name. name ≡ text.now) }
{
    if !is_name(text.as_str()) {
        return Err(ChangeFault::Refused(Refusal::BadName(text.copy(alloc)?)));
    }
    match Name::new(alloc, text.as_str()) {
        Ok(name) => Ok(name),
        Err(_) => Err(ChangeFault::OutOfMemory),
    }
}

/// The text as the path of a folder of the input: a safe path of at most 200 bytes. Another one is refused as a bad name.
pub fn folder_of(alloc: Global, text: &Text) -> Result<SafePath, ChangeFault>
    ensures good { OnOk result (bad_folder text.now ≡ None) }
    ensures fault { IfErr result (IsFirst (bad_folder text.now)) }
    ensures same { IfOk result (λ path. path ≡ text.now) }
{
    if !is_safe_path(text.as_str()) || text.as_str().len() > 200 {
        return Err(ChangeFault::Refused(Refusal::BadName(text.copy(alloc)?)));
    }
    match SafePath::new(alloc, text.as_str()) {
        Ok(path) => Ok(path),
        Err(_) => Err(ChangeFault::OutOfMemory),
    }
}
