//! Whether the relation fields of a stanza can be read.
ghost use Rattle.std.specs.Prelude.{◌↔◌, IfOk, IsTrue};
ghost use Rattle.std.specs.Option.{option_copied};
ghost use Rattle.depends_field.specs.declared.phase.Kind.TheVariants.{Depends, Provides};
ghost use Rattle.index_text.specs.Index.{IsReadable, IsKnown, HasRelations};

use control_stanza::Stanza;
use depends_field::{DependsFault, read_depends, read_provides};
use std::alloc::{AllocError, Global};

/// Whether a field was read.
fn is_read<T: Drop>(read: Result<Vec<T>, DependsFault>) -> Result<bool, AllocError>
    ensures { IfOk result (IsKnown read) }
{
    match read {
        Ok(_) => Ok(true),
        Err(DependsFault::At { .. }) => Ok(false),
        Err(DependsFault::OutOfMemory) => Err(AllocError),
    }
}

/// Whether a field such as Depends isn't there or can be read (Debian Policy 7.1).
fn is_depends(alloc: Global, text: Option<&str>) -> Result<bool, AllocError>
    ensures { IfOk result (λ b. IsTrue b ↔ IsReadable Depends (option_copied text.entry)) }
{
    match text {
        None => Ok(true),
        Some(text) => is_read(read_depends(alloc, text)),
    }
}

/// Whether the field Provides isn't there or can be read (Debian Policy 7.5).
fn is_provides(alloc: Global, text: Option<&str>) -> Result<bool, AllocError>
    ensures { IfOk result (λ b. IsTrue b ↔ IsReadable Provides (option_copied text.entry)) }
{
    match text {
        None => Ok(true),
        Some(text) => is_read(read_provides(alloc, text)),
    }
}

/// Whether each relation field of a stanza can be read. What one says is let go before the next is read.
pub(crate) fn has_relations(alloc: Global, stanza: &Stanza) -> Result<bool, AllocError>
    ensures { IfOk result (λ b. IsTrue b ↔ HasRelations stanza.now) }
{
    if !is_depends(alloc, stanza.get("Pre-Depends"))? {
        return Ok(false);
    }
    if !is_depends(alloc, stanza.get("Depends"))? {
        return Ok(false);
    }
    if !is_depends(alloc, stanza.get("Recommends"))? {
        return Ok(false);
    }
    if !is_depends(alloc, stanza.get("Suggests"))? {
        return Ok(false);
    }
    is_provides(alloc, stanza.get("Provides"))
}
