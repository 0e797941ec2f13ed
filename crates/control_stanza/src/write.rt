//! Writes stanzas.
ghost use Rattle.std.specs.Prelude.{◌≡◌, ◌≢◌, ◌≤◌, ◌++◌, ◌∷◌, [], List, None, Some, OnOk, OnErr, take, map, length};
ghost use Rattle.control_stanza.specs.Lines.{lines_of, bare};
ghost use Rattle.control_stanza.specs.Spelled.{Spells, Stanzas};
ghost use Rattle.control_stanza.specs.Written.{gap, field_text, stanza_text};

use crate::read::MOST_STANZA_BYTES;
use crate::stanza::{Field, Stanza};
use std::alloc::AllocError;

/// Behind a colon a space, unless the value's first line is empty.
fn put_gap(out: &mut Vec<u8>, value: &[u8]) -> Result<(), AllocError>
    ensures kept { take (length out.old.items) out.new.items ≡ out.old.items }
    ensures ok { OnOk result (out.new.items ≡ out.old.items ++ gap value.now) }
{
    match value.first() {
        Some(c) if *c != b'\n' => out.push(b' ')?,
        _ => {}
    }
    Ok(())
}

#[tactic(auto, unfolding(crate::specs::Written::field_text), using(std::proofs::Common::append_assoc))]
fn put_field(out: &mut Vec<u8>, field: &Field) -> Result<(), AllocError>
    ensures kept { take (length out.old.items) out.new.items ≡ out.old.items }
    ensures ok { OnOk result (out.new.items ≡ out.old.items ++ field_text field.now) }
{
    let value = field.value.as_str().as_bytes();
    out.extend_from_slice(field.name.as_str().as_bytes())?;
    out.push(b':')?;
    put_gap(out, value)?;
    out.extend_from_slice(value)?;
    out.push(b'\n')?;
    Ok(())
}

#[tactic(auto, using(std::proofs::Common::append_assoc))]
fn put_fields(out: &mut Vec<u8>, fields: &[Field]) -> Result<(), AllocError>
    ensures kept { take (length out.old.items) out.new.items ≡ out.old.items }
    ensures ok { OnOk result (out.new.items ≡ out.old.items ++ stanza_text fields.now) }
{
    for field in fields {
        put_field(out, field)?;
    }
    Ok(())
}

/// Adds the text of a stanza. Reading the text gives the stanza back.
///
/// For want of memory nothing is added.
pub fn write_stanza(out: &mut Vec<u8>, stanza: &Stanza) -> Result<(), AllocError>
    ensures ok { OnOk result (out.new.items ≡ out.old.items ++ stanza_text stanza.now) }
    ensures err { OnErr result (out.new.items ≡ out.old.items) }
    // The text spells the stanza.
    ensures spelled { Spells (map bare (lines_of (stanza_text stanza.now))) stanza.now }
    // It is the text of this stanza alone, if there is a field at all.
    ensures stored { stanza.now ≢ [] → Stanzas None 1 (lines_of (stanza_text stanza.now)) ((1, stanza.now) ∷ []) }
    ensures bounded { stanza.now ≢ [] → length (stanza_text stanza.now) ≤ MOST_STANZA_BYTES → Stanzas (Some MOST_STANZA_BYTES) 1 (lines_of (stanza_text stanza.now)) ((1, stanza.now) ∷ []) }
{
    let before = out.len();
    match put_fields(out, stanza.fields()) {
        Ok(()) => Ok(()),
        Err(error) => {
            out.truncate(before);
            Err(error)
        }
    }
}
