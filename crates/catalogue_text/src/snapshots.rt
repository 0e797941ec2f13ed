//! The snapshots of a root.
ghost use Rattle.std.specs.Prelude.{◌≡◌, [], IfOk, IfErr};
ghost use Rattle.machine_state.specs.Ascending.{IsAscending};
ghost use Rattle.machine_state.specs.State.{snapshot_cmp};
ghost use Rattle.catalogue_text.specs.Root.{snapshot_pieces, snapshots_pieces};
ghost use Rattle.catalogue_lines.specs.PartForms.{Series};
ghost use Rattle.catalogue_text.specs.Grammar.{NextSnapshot, SnapshotsPart};
ghost use Rattle.catalogue_lines.specs.Reading.{IfBefore, Stops, ReadsSeries, ReadsPart, IsIndexed, IdsApart};
ghost use Rattle.catalogue_text.specs.RootReading.{GoodSnapshot, GoodSnapshots};

use catalogue_lines::{Known, Stop, count_line, follows, name_line, read_set};
use machine_state::{Limit, Snapshot};
use std::alloc::Global;

/// A snapshot that may stand behind those before it, and the text behind it.
fn read_snapshot<'a>(
    alloc: Global,
    text: &'a [u8],
    known: &Known,
    done: &[Snapshot],
) -> Result<(Snapshot, &'a [u8]), Stop>
    requires indexed { IsIndexed known.now }
    requires sorted { IsAscending snapshot_cmp done.now }
    ensures read { IfOk result (λ p. ReadsPart snapshot_pieces (GoodSnapshot known.now.list done.now) text.now p.0 p.1.now) }
    ensures stops { IfErr result (λ stop. IfBefore stop (λ left. IdsApart known.now.list → Stops (NextSnapshot known.now.list done.now) text.now left)) }
{
    let Some((name, behind)) = name_line(alloc, text, "snapshot ")? else {
        return Err(Stop::Before(text.len()));
    };
    if !follows(done, &name) {
        return Err(Stop::Before(text.len()));
    }
    let (list, rest) = match read_set(alloc, behind, known) {
        Ok(set) => set,
        Err(stop) => return Err(stop),
    };
    Ok((Snapshot { name, list }, rest))
}

/// So many snapshots, and the text behind them.
fn read_each<'a>(
    alloc: Global,
    text: &'a [u8],
    known: &Known,
    count: u64,
) -> Result<(Vec<Snapshot>, &'a [u8]), Stop>
    requires { IsIndexed known.now }
    ensures read { IfOk result (λ p. ReadsSeries snapshot_pieces (GoodSnapshot known.now.list) count text.now p.0.items p.1.now) }
    ensures stops { IfErr result (λ stop. IfBefore stop (λ left. IdsApart known.now.list → Stops (Series count (NextSnapshot known.now.list) []) text.now left)) }
{
    let mut snapshots = Vec::new(alloc);
    let mut rest = text;
    for _read in 0..count {
        match read_snapshot(alloc, rest, known, &snapshots) {
            Err(stop) => return Err(stop),
            Ok((snapshot, behind)) => {
                snapshots.push(snapshot)?;
                rest = behind;
            }
        }
    }
    Ok((snapshots, rest))
}

/// The snapshots, and the text behind them.
pub(crate) fn read_snapshots<'a>(
    alloc: Global,
    text: &'a [u8],
    known: &Known,
) -> Result<(Vec<Snapshot>, &'a [u8]), Stop>
    requires { IsIndexed known.now }
    ensures read { IfOk result (λ p. ReadsPart snapshots_pieces (GoodSnapshots known.now.list) text.now p.0.items p.1.now) }
    ensures stops { IfErr result (λ stop. IfBefore stop (λ left. IdsApart known.now.list → Stops (SnapshotsPart known.now.list) text.now left)) }
{
    let most = Limit::Snapshots.number();
    let Some((count, rest)) = count_line(text, "snapshots ", most) else {
        return Err(Stop::Before(text.len()));
    };
    read_each(alloc, rest, known, count)
}
