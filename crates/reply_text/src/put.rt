//! Parts of replies, put behind what is there. The crates of commands write the lines of their own replies by them.
ghost use Rattle.std.specs.Prelude.{◌≡◌, ◌++◌, IfOk, OnOk, string_bytes, map};
ghost use Rattle.std.specs.Fmt.{decimal};
ghost use Rattle.std.specs.Rc.{rc_value};
ghost use Rattle.std.specs.Prelude.{[], if◌then◌else◌};
ghost use Rattle.reply_text.specs.Words.{line as line_of, blank_and, names_behind};
ghost use Rattle.reply_text.specs.Replies.{listed_line, packages_line, triple_line, triple_lines};

use ap_text::Name;
use control_stanza::Text;
use machine_state::{put_blank_and, put_names_behind};
use package_core::Package;
use package_list::{PackageList, SharedPackage};
use std::alloc::{AllocError, Global};
use std::fmt::Write;
use std::rc::Rc;

/// The text with its line end.
#[tactic(auto, unfolding(crate::specs::Words::line))]
pub fn whole_line(alloc: Global, text: &str) -> Result<Text, AllocError>
    ensures { IfOk result (λ line. line ≡ line_of text.now) }
{
    let text = format!(in alloc; "{}\n", text)?;
    Text::new(alloc, text.as_str())
}

/// A key and a value on a line.
#[tactic(auto, unfolding(crate::specs::Words::line))]
pub fn put_line(out: &mut String, key: &str, value: &str) -> Result<(), AllocError>
    ensures { OnOk result (string_bytes out.new ≡ string_bytes out.old ++ line_of (key.now ++ value.now)) }
{
    out.push_str(key)?;
    out.push_str(value)?;
    out.push_str("\n")?;
    Ok(())
}

/// A key, and a blank and the text where there is a text, on a line.
#[tactic(auto, unfolding(crate::specs::Words::line), using(std::proofs::Common::append_assoc))]
pub fn put_setting(out: &mut String, key: &str, text: &str) -> Result<(), AllocError>
    ensures { OnOk result (string_bytes out.new ≡ string_bytes out.old ++ line_of (key.now ++ blank_and text.now)) }
{
    out.push_str(key)?;
    put_blank_and(out, text)?;
    out.push_str("\n")?;
    Ok(())
}

/// The line with the count of packages.
#[tactic(auto, unfolding(crate::specs::Words::line, crate::specs::Replies::packages_line))]
pub fn put_count(out: &mut String, count: usize) -> Result<(), AllocError>
    ensures { OnOk result (string_bytes out.new ≡ string_bytes out.old ++ packages_line count) }
{
    out.push_str("Packages: ")?;
    write!(out, "{count}")?;
    out.push_str("\n")?;
    Ok(())
}

#[tactic(auto, unfolding(crate::specs::Replies::triple_line))]
fn put_triple(alloc: Global, out: &mut String, of: &Package) -> Result<(), AllocError>
    ensures { OnOk result (string_bytes out.new ≡ string_bytes out.old ++ triple_line of.now) }
{
    let triple = of.triple(alloc)?;
    put_line(out, " ", triple.as_str())
}

/// The name, version and architecture of each package, each on a line.
#[tactic(auto, unfolding(crate::specs::Replies::triple_lines))]
pub fn put_triples(
    alloc: Global,
    out: &mut String,
    packages: &[Rc<SharedPackage>],
) -> Result<(), AllocError>
    ensures { OnOk result (string_bytes out.new ≡ string_bytes out.old ++ triple_lines (map rc_value packages.now)) }
{
    for package_of in packages {
        put_triple(alloc, out, package_of.package())?;
    }
    Ok(())
}

/// The name, version and architecture of each package, each on a line, where they are asked for.
pub(crate) fn put_asked(
    alloc: Global,
    out: &mut String,
    list: &PackageList,
    asked: bool,
) -> Result<(), AllocError>
    ensures { OnOk result (string_bytes out.new ≡ string_bytes out.old ++ (if asked then triple_lines list.now else [])) }
{
    if asked {
        return put_triples(alloc, out, list.as_slice());
    }
    Ok(())
}

/// The line of something that is listed: its name, and how many packages it has.
#[tactic(auto, unfolding(crate::specs::Words::line, crate::specs::Replies::listed_line), using(std::proofs::Common::append_assoc))]
pub(crate) fn put_listed(out: &mut String, name: &Name, packages: usize) -> Result<(), AllocError>
    ensures { OnOk result (string_bytes out.new ≡ string_bytes out.old ++ listed_line name.now packages) }
{
    out.push_str(" * ")?;
    out.push_str(name.as_str())?;
    out.push_str(" [")?;
    write!(out, "{packages}")?;
    out.push_str("]\n")?;
    Ok(())
}

/// A key, and each of the names behind a blank, on a line.
#[tactic(auto, unfolding(crate::specs::Words::line), using(std::proofs::Common::append_assoc))]
pub(crate) fn put_names(out: &mut String, key: &str, names: &[Name]) -> Result<(), AllocError>
    ensures { OnOk result (string_bytes out.new ≡ string_bytes out.old ++ line_of (key.now ++ names_behind names.now)) }
{
    out.push_str(key)?;
    put_names_behind(out, names)?;
    out.push_str("\n")?;
    Ok(())
}
