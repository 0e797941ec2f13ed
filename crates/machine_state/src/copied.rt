//! Copies of what lists hold.
ghost use Rattle.std.specs.Prelude.{◌≡◌, IfOk};

use ap_text::{Name, SafePath};
use std::alloc::{AllocError, Global};

/// What can be copied where there is memory.
pub(crate) trait Copied: Drop {
    /// An equal value. Fails only for want of memory.
    fn copied(&self, alloc: Global) -> Result<Self, AllocError>
        ensures { IfOk result (λ made. made ≡ self.now) };
}

impl Copied for Name {
    fn copied(&self, alloc: Global) -> Result<Name, AllocError> {
        self.copy(alloc)
    }
}

impl Copied for SafePath {
    fn copied(&self, alloc: Global) -> Result<SafePath, AllocError> {
        self.copy(alloc)
    }
}

/// An equal list.
pub(crate) fn copy_all<T: Copied>(alloc: Global, items: &[T]) -> Result<Vec<T>, AllocError>
    ensures { IfOk result (λ copies. copies.items ≡ items.now) }
{
    let mut copies = Vec::new(alloc);
    for item in items {
        copies.push(item.copied(alloc)?)?;
    }
    Ok(copies)
}

/// An equal value, where there is one.
pub(crate) fn copy_optional<T: Copied>(
    alloc: Global,
    item: &Option<T>,
) -> Result<Option<T>, AllocError>
    ensures { IfOk result (λ copied. copied ≡ item.now) }
{
    match item {
        None => Ok(None),
        Some(item) => Ok(Some(item.copied(alloc)?)),
    }
}
