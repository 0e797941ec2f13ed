//! A package as lists share it.
ghost use Rattle.std.specs.Prelude.{◌≡◌, IfOk, length};
ghost use Rattle.std.specs.Rc.{rc_value};
ghost use Rattle.sha2.specs.Sha256.{sha256};
ghost use Rattle.package_core.specs.Card.{package_text};

use package_core::Package;
use sha2::{Digest, Sha256};
use std::alloc::{AllocError, Global};
use std::marker::Model;
use std::rc::Rc;

/// A package as lists share it, seen as the package, with its id and the length of its text. These are found once, when it is
/// made.
#[derive(Drop)]
pub struct SharedPackage {
    inner: Package,
    id: [u8; 32],
    text_len: usize,
}

impl Model for SharedPackage {
    ghost use Rattle.std.specs.Prelude.{◌≡◌, length};
    ghost use Rattle.sha2.specs.Sha256.{sha256};
    ghost use Rattle.package_core.specs.declared.package.Package.{Package};
    ghost use Rattle.package_core.specs.Card.{package_text};

    ghost Value = { Package };

    ghost view = { λ a. a.inner };

    ghost invariant = { λ a. (a.id ≡ sha256 (package_text a.inner)) × (a.text_len ≡ length (package_text a.inner)) };
}

impl SharedPackage {
    /// The package, to be shared. Fails only for want of memory.
    pub fn new(alloc: Global, new: Package) -> Result<SharedPackage, AllocError>
        ensures { IfOk result (λ made. made ≡ new) }
    {
        let text = new.text(alloc)?;
        Ok(SharedPackage::with_text(new, text.as_str().as_bytes()))
    }

    /// The package of which this is the text, to be shared. It takes no memory.
    pub fn with_text(new: Package, text: &[u8]) -> SharedPackage
        requires { text.now ≡ package_text new }
        ensures { result ≡ new }
    {
        SharedPackage {
            inner: new,
            id: Sha256::digest(text),
            text_len: text.len(),
        }
    }

    /// The package.
    pub fn package(&self) -> &Package
        ensures { result.now ≡ self.now }
    {
        &self.inner
    }

    /// The package's id: the SHA-256 (FIPS 180-4) of its text.
    pub fn id(&self) -> &[u8; 32]
        ensures { result.now ≡ sha256 (package_text self.now) }
    {
        &self.id
    }

    /// How many bytes the package's text has.
    pub fn text_len(&self) -> usize
        ensures { result ≡ length (package_text self.now) }
    {
        self.text_len
    }
}

/// The package, shared: its id is found now. Fails only for want of memory.
pub fn share(alloc: Global, new: Package) -> Result<Rc<SharedPackage>, AllocError>
    ensures { IfOk result (λ made. rc_value made ≡ new) }
{
    let new = SharedPackage::new(alloc, new)?;
    let new = Rc::new(alloc, new)?;
    Ok(new)
}

/// The package that is shared.
pub(crate) fn package_of(item: &Rc<SharedPackage>) -> &Package
    ensures { result.now ≡ item.now.value }
{
    item.as_ref().package()
}
