//! What is known of files, by their SHA-256.
ghost use Rattle.std.specs.Prelude.{◌≡◌, IfOk, OnOk, List, ℕ, true};
ghost use Rattle.std.specs.declared.cmp.Ordering.TheVariants.{Equal};
ghost use Rattle.package_core.specs.Card.{is_complete};
ghost use Rattle.package_core.specs.Order.{package_cmp};
ghost use Rattle.package_intake.specs.Taking.{facts_of as facts, known_of, standing};
ghost use Rattle.package_intake.specs.Inside.{file_in};
ghost use Rattle.package_intake.specs.Inside.{file_of};

use crate::taken::Taken;
use digest_set::Digests;
use package_core::Package;
use package_list::{PackageList, SharedPackage, share};
use std::alloc::{AllocError, Global};
use std::collections::BTreeMap;
use std::rc::Rc;

/// For each SHA-256 the first known package, in the order of packages, whose file has it.
pub(crate) type KnownFiles = BTreeMap<[u8; 32], Rc<SharedPackage>>;

/// Notes a package for its file, unless one was there before it.
fn note_file(files: &mut KnownFiles, one: &Rc<SharedPackage>) -> Result<(), AllocError>
    ensures { OnOk result ((q : List ℕ) → file_of files.new q ≡ file_in (file_of files.old q) one.now.value q) }
{
    let sha256 = one.as_ref().package().said.sha256;
    if files.contains_key(&sha256) {
        return Ok(());
    }
    files.insert(sha256, one.clone()?)?;
    Ok(())
}

/// The known packages by their files. It takes n log n comparisons.
pub(crate) fn known_files(alloc: Global, known: &PackageList) -> Result<KnownFiles, AllocError>
    ensures { IfOk result (λ files. (q : List ℕ) → file_of files q ≡ known_of known.now q) }
{
    let mut files = BTreeMap::new(alloc);
    for package in known.as_slice() {
        note_file(&mut files, package)?;
    }
    Ok(files)
}

/// The four facts of the file of a package that is complete.
pub(crate) fn facts_of(one: &Package) -> Digests
    ensures { is_complete one.now ≡ true → result ≡ facts one.now }
{
    let said = one.said.copy();
    let md5 = said.md5.unwrap_or([0; 16]);
    let sha1 = said.sha1.unwrap_or([0; 20]);
    let sha256 = said.sha256;
    Digests {
        size: said.size,
        md5,
        sha1,
        sha256,
    }
}

/// The package as it is known, where an equal is known; that one is shared, and no text of it is made. Else the package is shared, and
/// its id found.
pub(crate) fn stand(alloc: Global, known: &PackageList, made: Package) -> Result<Taken, AllocError>
    ensures value { IfOk result (λ stood. stood ≡ standing known.now made) }
    ensures same { IfOk result (λ stood. package_cmp made stood ≡ Equal) }
{
    match known.shared_equal_of(&made) {
        Some(known) => Ok(Taken::new(known.clone()?)),
        None => Ok(Taken::new(share(alloc, made)?)),
    }
}
