//! The packages of an index, joined.
ghost use Rattle.std.specs.Prelude.{◌≡◌, IfOk, IfErr, OnOk, map};
ghost use Rattle.std.specs.BTreeMap.{get};
ghost use Rattle.std.specs.Rc.{rc_value};
ghost use Rattle.machine_state.specs.declared.limit.Limit.TheVariants.{Packages};
ghost use Rattle.package_core.specs.Card.{Card};
ghost use Rattle.package_core.specs.Order.{package_cmp};
ghost use Rattle.package_list.specs.Answers.{join_answer};
ghost use Rattle.package_intake.specs.Index.{cards_of, entry_for};
ghost use Rattle.package_intake.specs.Steps.{or_refused};
ghost use Rattle.package_intake.specs.Inside.{path_in};
ghost use Rattle.package_intake.specs.Steps.{Gives};
ghost use Rattle.package_intake.specs.Faults.{IsOtherFault, IsOwnFault};

use crate::by_package::ByPackage;
use crate::fault::of_list;
use ap_text::SafePath;
use machine_state::{Limit, UpdateFault};
use package_core::Package;
use package_list::JoinedPackages;
use std::alloc::{AllocError, Global};
use std::collections::BTreeMap;
use std::rc::Rc;

/// The paths of the files of an index: of equal packages that of the first.
pub type Paths = BTreeMap<ByPackage, SafePath>;

/// Notes the path of a package, unless an equal was there before it.
fn note_path(paths: &mut Paths, one: ByPackage, path: SafePath) -> Result<(), AllocError>
    ensures { OnOk result ((q : Card) → get package_cmp paths.new q ≡ path_in (get package_cmp paths.old q) one path q) }
{
    if paths.contains_key(&one) {
        return Ok(());
    }
    paths.insert(one, path)?;
    Ok(())
}

/// The packages of an index in the order of the index, and the paths of their files: of equal ones that of the first. Of several indexes
/// the entries are those of one after the other. No id is found. Fails only for want of memory.
pub fn split(
    alloc: Global,
    entries: Vec<(Package, SafePath)>,
) -> Result<(Vec<Rc<Package>>, Paths), AllocError>
    ensures packages { IfOk result (λ made. map rc_value made.0.items ≡ cards_of entries.items) }
    ensures paths { IfOk result (λ made. (q : Card) → get package_cmp made.1 q ≡ entry_for entries.items q) }
{
    let mut packages = Vec::with_capacity(alloc, entries.len())?;
    let mut paths = BTreeMap::new(alloc);
    for (package, path) in entries {
        let package = Rc::new(alloc, package)?;
        note_path(&mut paths, ByPackage::new(package.clone()?), path)?;
        packages.push(package)?;
    }
    Ok((packages, paths))
}

/// The packages of an index, joined in its order; of equal ones the first stands. The first that can't join those before it decides the
/// refusal: `Conflict` where one of those has its name, version and architecture and none is its equal, and `Limit(Packages)` where it
/// would be the 200,001st. It takes n log n comparisons.
pub fn join(alloc: Global, packages: &[Rc<Package>]) -> Result<JoinedPackages, UpdateFault>
    ensures answer { Gives result (or_refused Packages (join_answer (map rc_value packages.now))) }
    ensures fault { IfErr result IsOwnFault }
    ensures other { IfErr result IsOtherFault }
{
    match JoinedPackages::new(alloc, packages) {
        Ok(joined) => Ok(joined),
        Err(fault) => Err(of_list(Limit::Packages, fault)),
    }
}
