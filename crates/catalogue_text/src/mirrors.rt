//! The mirrors of a root.
ghost use Rattle.std.specs.Prelude.{◌≡◌, [], IfOk, IfErr};
ghost use Rattle.std.specs.Option.{option_map};
ghost use Rattle.query_tree.specs.Tree.{plain};
ghost use Rattle.machine_state.specs.Ascending.{IsAscending};
ghost use Rattle.machine_state.specs.State.{mirror_cmp};
ghost use Rattle.catalogue_text.specs.Root.{updated_pieces, mirror_pieces, mirrors_pieces};
ghost use Rattle.catalogue_lines.specs.PartForms.{Series};
ghost use Rattle.catalogue_text.specs.Grammar.{UpdatedPart, NextMirror, MirrorsPart};
ghost use Rattle.catalogue_lines.specs.Reading.{IfBefore, Stops, ReadsSeries, ReadsPart, IsIndexed, IdsApart};
ghost use Rattle.catalogue_text.specs.MirrorReading.{PlacePart, place_pieces, GoodPlace, ListsPart, lists_pieces, GoodLists, ChoicePart, choice_pieces, GoodChoice, SettingsPart, settings_pieces, GoodSettings, DatedPart, dated_pieces, GoodDated, GoodUpdated, GoodMirror, GoodMirrors};

use crate::mirror_values::{date_line, filter_line, flag_line, path_line};
use ap_text::{Name, SafePath};
use catalogue_lines::{Known, Listed, Stop, count_line, follows, name_line, names_line, read_set};
use machine_state::{Fetched, Limit, Mirror};
use query_grammar::Query;
use std::alloc::Global;

/// The archive and its distribution.
type Place = (SafePath, SafePath);

/// The components and the architectures.
type Lists = (Vec<Name>, Vec<Name>);

/// The filter, and whether dependencies are wanted too.
type Choice = (Option<Query>, bool);

/// All settings of a mirror but its name.
type Settings = (Place, (Lists, Choice));

fn read_place(alloc: Global, text: &[u8]) -> Result<(Place, &[u8]), Stop>
    ensures read { IfOk result (λ p. ReadsPart place_pieces GoodPlace text.now (p.0.0, p.0.1) p.1.now) }
    ensures stops { IfErr result (λ stop. IfBefore stop (Stops PlacePart text.now)) }
{
    let Some((archive, rest)) = path_line(alloc, text, "archive ", 200)? else {
        return Err(Stop::Before(text.len()));
    };
    let Some((distribution, behind)) = path_line(alloc, rest, "distribution ", 100)? else {
        return Err(Stop::Before(rest.len()));
    };
    Ok(((archive, distribution), behind))
}

fn read_lists(alloc: Global, text: &[u8]) -> Result<(Lists, &[u8]), Stop>
    ensures read { IfOk result (λ p. ReadsPart lists_pieces GoodLists text.now (p.0.0.items, p.0.1.items) p.1.now) }
    ensures stops { IfErr result (λ stop. IfBefore stop (Stops ListsPart text.now)) }
{
    let Some((components, rest)) = names_line(alloc, text, "components", Listed::Components)? else {
        return Err(Stop::Before(text.len()));
    };
    let listed = Listed::Architectures;
    let Some((architectures, behind)) = names_line(alloc, rest, "architectures", listed)? else {
        return Err(Stop::Before(rest.len()));
    };
    Ok(((components, architectures), behind))
}

fn read_choice(alloc: Global, text: &[u8]) -> Result<(Choice, &[u8]), Stop>
    ensures read { IfOk result (λ p. ReadsPart choice_pieces GoodChoice text.now (option_map plain p.0.0, p.0.1) p.1.now) }
    ensures stops { IfErr result (λ stop. IfBefore stop (Stops ChoicePart text.now)) }
{
    let Some((filter, rest)) = filter_line(alloc, text)? else {
        return Err(Stop::Before(text.len()));
    };
    let Some((with_deps, behind)) = flag_line(rest, "with-deps ") else {
        return Err(Stop::Before(rest.len()));
    };
    Ok(((filter, with_deps), behind))
}

/// All settings of a mirror but its name, and the text behind them.
fn read_settings(alloc: Global, text: &[u8]) -> Result<(Settings, &[u8]), Stop>
    ensures read { IfOk result (λ p. ReadsPart settings_pieces GoodSettings text.now ((p.0.0.0, p.0.0.1), ((p.0.1.0.0.items, p.0.1.0.1.items), (option_map plain p.0.1.1.0, p.0.1.1.1))) p.1.now) }
    ensures stops { IfErr result (λ stop. IfBefore stop (Stops SettingsPart text.now)) }
{
    let (place, rest) = match read_place(alloc, text) {
        Ok(place) => place,
        Err(stop) => return Err(stop),
    };
    let (lists, rest) = match read_lists(alloc, rest) {
        Ok(lists) => lists,
        Err(stop) => return Err(stop),
    };
    match read_choice(alloc, rest) {
        Ok((choice, rest)) => Ok(((place, (lists, choice)), rest)),
        Err(stop) => Err(stop),
    }
}

/// What was fetched, and the text behind it.
fn read_fetched<'a>(
    alloc: Global,
    text: &'a [u8],
    known: &Known,
) -> Result<(Fetched, &'a [u8]), Stop>
    requires { IsIndexed known.now }
    ensures read { IfOk result (λ p. ReadsPart dated_pieces (GoodDated known.now.list) text.now (p.0.date, p.0.list) p.1.now) }
    ensures stops { IfErr result (λ stop. IfBefore stop (λ left. IdsApart known.now.list → Stops (DatedPart known.now.list) text.now left)) }
{
    let Some((date, rest)) = date_line(alloc, text)? else {
        return Err(Stop::Before(text.len()));
    };
    match read_set(alloc, rest, known) {
        Ok((list, behind)) => Ok((Fetched { date, list }, behind)),
        Err(stop) => Err(stop),
    }
}

/// What was fetched, if anything was, and the text behind it.
fn read_updated<'a>(
    alloc: Global,
    text: &'a [u8],
    known: &Known,
) -> Result<(Option<Fetched>, &'a [u8]), Stop>
    requires { IsIndexed known.now }
    ensures read { IfOk result (λ p. ReadsPart updated_pieces (GoodUpdated known.now.list) text.now p.0 p.1.now) }
    ensures stops { IfErr result (λ stop. IfBefore stop (λ left. IdsApart known.now.list → Stops (UpdatedPart known.now.list) text.now left)) }
{
    let Some((is_updated, rest)) = flag_line(text, "updated ") else {
        return Err(Stop::Before(text.len()));
    };
    if !is_updated {
        return Ok((None, rest));
    }
    match read_fetched(alloc, rest, known) {
        Ok((fetched, behind)) => Ok((Some(fetched), behind)),
        Err(stop) => Err(stop),
    }
}

/// The mirror of these settings.
fn mirror_of(name: Name, settings: Settings, updated: Option<Fetched>) -> Mirror
    ensures { result ≡ record { name = name; archive = settings.0.0; distribution = settings.0.1; components = settings.1.0.0.items; architectures = settings.1.0.1.items; filter = option_map plain settings.1.1.0; with_deps = settings.1.1.1; updated = updated } }
{
    let (place, (lists, choice)) = settings;
    Mirror {
        name,
        archive: place.0,
        distribution: place.1,
        components: lists.0,
        architectures: lists.1,
        filter: choice.0,
        with_deps: choice.1,
        updated,
    }
}

/// A mirror that may stand behind those before it, and the text behind it.
fn read_mirror<'a>(
    alloc: Global,
    text: &'a [u8],
    known: &Known,
    done: &[Mirror],
) -> Result<(Mirror, &'a [u8]), Stop>
    requires indexed { IsIndexed known.now }
    requires sorted { IsAscending mirror_cmp done.now }
    ensures read { IfOk result (λ p. ReadsPart mirror_pieces (GoodMirror known.now.list done.now) text.now p.0 p.1.now) }
    ensures stops { IfErr result (λ stop. IfBefore stop (λ left. IdsApart known.now.list → Stops (NextMirror known.now.list done.now) text.now left)) }
{
    let Some((name, behind)) = name_line(alloc, text, "mirror ")? else {
        return Err(Stop::Before(text.len()));
    };
    if !follows(done, &name) {
        return Err(Stop::Before(text.len()));
    }
    let (settings, rest) = match read_settings(alloc, behind) {
        Ok(settings) => settings,
        Err(stop) => return Err(stop),
    };
    match read_updated(alloc, rest, known) {
        Ok((updated, rest)) => Ok((mirror_of(name, settings, updated), rest)),
        Err(stop) => Err(stop),
    }
}

/// So many mirrors, and the text behind them.
fn read_each<'a>(
    alloc: Global,
    text: &'a [u8],
    known: &Known,
    count: u64,
) -> Result<(Vec<Mirror>, &'a [u8]), Stop>
    requires { IsIndexed known.now }
    ensures read { IfOk result (λ p. ReadsSeries mirror_pieces (GoodMirror known.now.list) count text.now p.0.items p.1.now) }
    ensures stops { IfErr result (λ stop. IfBefore stop (λ left. IdsApart known.now.list → Stops (Series count (NextMirror known.now.list) []) text.now left)) }
{
    let mut mirrors = Vec::new(alloc);
    let mut rest = text;
    for _read in 0..count {
        match read_mirror(alloc, rest, known, &mirrors) {
            Err(stop) => return Err(stop),
            Ok((mirror, behind)) => {
                mirrors.push(mirror)?;
                rest = behind;
            }
        }
    }
    Ok((mirrors, rest))
}

/// The mirrors, and the text behind them.
pub(crate) fn read_mirrors<'a>(
    alloc: Global,
    text: &'a [u8],
    known: &Known,
) -> Result<(Vec<Mirror>, &'a [u8]), Stop>
    requires { IsIndexed known.now }
    ensures read { IfOk result (λ p. ReadsPart mirrors_pieces (GoodMirrors known.now.list) text.now p.0.items p.1.now) }
    ensures stops { IfErr result (λ stop. IfBefore stop (λ left. IdsApart known.now.list → Stops (MirrorsPart known.now.list) text.now left)) }
{
    let most = Limit::Mirrors.number();
    let Some((count, rest)) = count_line(text, "mirrors ", most) else {
        return Err(Stop::Before(text.len()));
    };
    read_each(alloc, rest, known, count)
}
