//! The replies of searches among the known packages.
ghost use Rattle.std.specs.Prelude.{◌≡◌, ◌++◌, IfOk, OnOk, string_bytes, map};
ghost use Rattle.std.specs.List.{flat_map};
ghost use Rattle.std.specs.Rc.{rc_value};
ghost use Rattle.reply_text.specs.Replies.{shown_package, package_search as searched, package_show as shown};

use crate::put::{put_count, put_triples};
use control_stanza::Text;
use package_core::Package;
use package_list::{PackageList, SharedPackage};
use std::alloc::{AllocError, Global};
use std::rc::Rc;

/// The reply of `package search`: `Packages: <n>`, and then a blank and `name_version_arch` for each package, in the order
/// of the list. Fails only for want of memory.
#[tactic(auto, unfolding(crate::specs::Replies::package_search))]
pub fn package_search(alloc: Global, found: &PackageList) -> Result<Text, AllocError>
    ensures { IfOk result (λ text. text ≡ searched found.now) }
{
    let mut out = String::new(alloc);
    put_count(&mut out, found.len())?;
    put_triples(alloc, &mut out, found.as_slice())?;
    Text::new(alloc, out.as_str())
}

#[tactic(auto, unfolding(crate::specs::Replies::shown_package, crate::specs::Words::line))]
fn put_shown(alloc: Global, out: &mut String, of: &Package) -> Result<(), AllocError>
    ensures { OnOk result (string_bytes out.new ≡ string_bytes out.old ++ shown_package of.now) }
{
    let text = of.text(alloc)?;
    out.push_str(text.as_str())?;
    out.push_str("\n")?;
    Ok(())
}

fn put_all_shown(
    alloc: Global,
    out: &mut String,
    packages: &[Rc<SharedPackage>],
) -> Result<(), AllocError>
    ensures { OnOk result (string_bytes out.new ≡ string_bytes out.old ++ flat_map shown_package (map rc_value packages.now)) }
{
    for package_of in packages {
        put_shown(alloc, out, package_of.package())?;
    }
    Ok(())
}

/// The reply of `package show`: `Packages: <n>`, and then the text of each package and an empty line, in the order of the
/// list. The text has all digests where the packages are complete. Fails only for want of memory.
#[tactic(auto, unfolding(crate::specs::Replies::package_show))]
pub fn package_show(alloc: Global, found: &PackageList) -> Result<Text, AllocError>
    ensures { IfOk result (λ text. text ≡ shown found.now) }
{
    let mut out = String::new(alloc);
    put_count(&mut out, found.len())?;
    put_all_shown(alloc, &mut out, found.as_slice())?;
    Text::new(alloc, out.as_str())
}
