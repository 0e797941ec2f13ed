//! What a dry run says.
ghost use Rattle.std.specs.Prelude.{◌≡◌, ◌++◌, IfOk, OnOk, string_bytes, map};
ghost use Rattle.std.specs.List.{flat_map};
ghost use Rattle.std.specs.Rc.{rc_value};
ghost use Rattle.reply_text.specs.DryRuns.{going_line, coming_line, dry_run_of};

use crate::put::put_line;
use control_stanza::Text;
use package_core::Package;
use package_list::SharedPackage;
use std::alloc::{AllocError, Global};
use std::rc::Rc;

#[tactic(auto, unfolding(crate::specs::DryRuns::going_line))]
fn put_going(alloc: Global, out: &mut String, of: &Package) -> Result<(), AllocError>
    ensures { OnOk result (string_bytes out.new ≡ string_bytes out.old ++ going_line of.now) }
{
    let triple = of.triple(alloc)?;
    put_line(out, " - ", triple.as_str())
}

#[tactic(auto, unfolding(crate::specs::DryRuns::coming_line))]
fn put_coming(alloc: Global, out: &mut String, of: &Package) -> Result<(), AllocError>
    ensures { OnOk result (string_bytes out.new ≡ string_bytes out.old ++ coming_line of.now) }
{
    let triple = of.triple(alloc)?;
    put_line(out, " + ", triple.as_str())
}

fn put_all_going(
    alloc: Global,
    out: &mut String,
    packages: &[Rc<SharedPackage>],
) -> Result<(), AllocError>
    ensures { OnOk result (string_bytes out.new ≡ string_bytes out.old ++ flat_map going_line (map rc_value packages.now)) }
{
    for package_of in packages {
        put_going(alloc, out, package_of.package())?;
    }
    Ok(())
}

fn put_all_coming(
    alloc: Global,
    out: &mut String,
    packages: &[Rc<SharedPackage>],
) -> Result<(), AllocError>
    ensures { OnOk result (string_bytes out.new ≡ string_bytes out.old ++ flat_map coming_line (map rc_value packages.now)) }
{
    for package_of in packages {
        put_coming(alloc, out, package_of.package())?;
    }
    Ok(())
}

/// What a dry run says: ` - <triple>` for each package that would leave, ` + <triple>` for each that would come, each in the order
/// of its list, and `Dry run.` Fails only for want of memory.
#[tactic(auto, unfolding(crate::specs::DryRuns::dry_run_of))]
pub fn dry_run_reply(
    alloc: Global,
    going: &[Rc<SharedPackage>],
    coming: &[Rc<SharedPackage>],
) -> Result<Text, AllocError>
    ensures { IfOk result (λ text. text ≡ dry_run_of (map rc_value going.now) (map rc_value coming.now)) }
{
    let mut out = String::new(alloc);
    put_all_going(alloc, &mut out, going)?;
    put_all_coming(alloc, &mut out, coming)?;
    put_line(&mut out, "Dry run.", "")?;
    Text::new(alloc, out.as_str())
}
