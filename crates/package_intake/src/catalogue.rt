//! Whether packages can be known besides those that are.
ghost use Rattle.std.specs.Prelude.{◌≡◌, IfOk, IfErr, map, nat_lt};
ghost use Rattle.std.specs.Rc.{rc_value};
ghost use Rattle.package_list.specs.Lists.{union};
ghost use Rattle.machine_state.specs.declared.limit.Limit.TheVariants.{Catalogue, Known};
ghost use Rattle.machine_state.specs.Limits.{limit_number};
ghost use Rattle.machine_state.specs.State.{text_length};
ghost use Rattle.package_intake.specs.Catalogue.{known_answer, within_catalogue};
ghost use Rattle.package_intake.specs.Steps.{Gives};
ghost use Rattle.package_intake.specs.Faults.{IsOtherFault, IsOwnFault};

use crate::fault::{of_list, over};
use machine_state::{Limit, UpdateFault};
use package_list::{PackageList, SharedPackage};
use std::alloc::Global;
use std::rc::Rc;

/// Whether the texts of these packages together are longer than the catalogue may be.
fn is_too_long(packages: &[Rc<SharedPackage>]) -> bool
    ensures { result ≡ nat_lt (limit_number Catalogue) (text_length (map rc_value packages.now)) }
{
    let mut left = Limit::Catalogue.number();
    for package in packages {
        let length = package.as_ref().text_len() as u64;
        if length > left {
            return true;
        }
        left -= length;
    }
    false
}

/// What is known with the list.
fn known_with(
    alloc: Global,
    known: &PackageList,
    list: &PackageList,
) -> Result<PackageList, UpdateFault>
    ensures answer { Gives result (known_answer (union known.now list.now)) }
    ensures fault { IfErr result IsOwnFault }
    ensures other { IfErr result IsOtherFault }
{
    let mut all = known.copy(alloc)?;
    match all.join_known(alloc, list) {
        Ok(()) => Ok(all),
        Err(fault) => Err(of_list(Limit::Known, fault)),
    }
}

/// Whether the list can be known besides what is known: together they are at most 400,000 packages, else `Limit(Known)`, and their texts
/// have at most 1,073,741,824 bytes, else `Limit(Catalogue)`.
pub fn check_known(
    alloc: Global,
    known: &PackageList,
    list: &PackageList,
) -> Result<(), UpdateFault>
    ensures answer { Gives result (within_catalogue (union known.now list.now)) }
    ensures fault { IfErr result IsOwnFault }
    ensures other { IfErr result IsOtherFault }
{
    let all = known_with(alloc, known, list)?;
    if is_too_long(all.as_slice()) {
        return Err(over(Limit::Catalogue));
    }
    Ok(())
}
