//! The mirrors of a root text.
ghost use Rattle.std.specs.Prelude.{◌≡◌, ◌++◌, OnOk, string_bytes};
ghost use Rattle.std.specs.List.{flat_map};
ghost use Rattle.std.specs.Option.{option_map};
ghost use Rattle.query_tree.specs.Tree.{plain};
ghost use Rattle.catalogue_lines.specs.Pieces.{alone, piece_text, joined};
ghost use Rattle.catalogue_text.specs.MirrorLines.{filter_line};
ghost use Rattle.catalogue_text.specs.Root.{updated_pieces, mirror_pieces, mirrors_pieces};
ghost use Rattle.catalogue_text.specs.MirrorReading.{place_pieces, lists_pieces, choice_pieces};

use catalogue_lines::{put_count, put_fixed, put_line, put_names, put_set, put_setting};
use machine_state::{Fetched, Mirror, filter_text, yes_or_no};
use query_grammar::Query;
use std::alloc::{AllocError, Global};

fn put_filter(alloc: Global, out: &mut String, filter: &Option<Query>) -> Result<(), AllocError>
    ensures { OnOk result (string_bytes out.new ≡ string_bytes out.old ++ piece_text (alone (filter_line (option_map plain filter.now)))) }
{
    let text = filter_text(alloc, filter)?;
    put_setting(out, "filter", text.as_str())
}

fn put_place(out: &mut String, mirror: &Mirror) -> Result<(), AllocError>
    ensures { OnOk result (string_bytes out.new ≡ string_bytes out.old ++ joined (place_pieces (mirror.now.archive, mirror.now.distribution))) }
{
    put_line(out, "archive ", mirror.archive.as_str())?;
    put_line(out, "distribution ", mirror.distribution.as_str())
}

fn put_lists(out: &mut String, mirror: &Mirror) -> Result<(), AllocError>
    ensures { OnOk result (string_bytes out.new ≡ string_bytes out.old ++ joined (lists_pieces (mirror.now.components, mirror.now.architectures))) }
{
    put_names(out, "components", mirror.components.as_slice())?;
    put_names(out, "architectures", mirror.architectures.as_slice())
}

fn put_choice(alloc: Global, out: &mut String, mirror: &Mirror) -> Result<(), AllocError>
    ensures { OnOk result (string_bytes out.new ≡ string_bytes out.old ++ joined (choice_pieces (mirror.now.filter, mirror.now.with_deps))) }
{
    put_filter(alloc, out, &mirror.filter)?;
    put_line(out, "with-deps ", yes_or_no(mirror.with_deps))
}

fn put_fetched(alloc: Global, out: &mut String, fetched: &Fetched) -> Result<(), AllocError>
    ensures { OnOk result (string_bytes out.new ≡ string_bytes out.old ++ joined (updated_pieces (Some fetched.now))) }
{
    put_fixed(out, "updated yes")?;
    put_setting(out, "date", fetched.date.as_str())?;
    put_set(alloc, out, &fetched.list)
}

fn put_updated(alloc: Global, out: &mut String, updated: &Option<Fetched>) -> Result<(), AllocError>
    ensures { OnOk result (string_bytes out.new ≡ string_bytes out.old ++ joined (updated_pieces updated.now)) }
{
    match updated {
        None => put_fixed(out, "updated no"),
        Some(fetched) => put_fetched(alloc, out, fetched),
    }
}

fn put_mirror(alloc: Global, out: &mut String, mirror: &Mirror) -> Result<(), AllocError>
    ensures { OnOk result (string_bytes out.new ≡ string_bytes out.old ++ joined (mirror_pieces mirror.now)) }
{
    put_line(out, "mirror ", mirror.name.as_str())?;
    put_place(out, mirror)?;
    put_lists(out, mirror)?;
    put_choice(alloc, out, mirror)?;
    put_updated(alloc, out, &mirror.updated)
}

fn put_each_mirror(alloc: Global, out: &mut String, mirrors: &[Mirror]) -> Result<(), AllocError>
    ensures { OnOk result (string_bytes out.new ≡ string_bytes out.old ++ joined (flat_map mirror_pieces mirrors.now)) }
{
    for mirror in mirrors {
        put_mirror(alloc, out, mirror)?;
    }
    Ok(())
}

/// The mirrors: how many they are, and each of them.
pub(crate) fn put_mirrors(
    alloc: Global,
    out: &mut String,
    mirrors: &[Mirror],
) -> Result<(), AllocError>
    ensures { OnOk result (string_bytes out.new ≡ string_bytes out.old ++ joined (mirrors_pieces mirrors.now)) }
{
    put_count(out, "mirrors ", mirrors.len())?;
    put_each_mirror(alloc, out, mirrors)
}
