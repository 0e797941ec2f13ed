//! A root text read back.
ghost use Rattle.std.specs.Prelude.{◌≡◌, ◌↔◌, IsTrue, true, ◌<◌, ◌^◌, [], length, IfOk, IfErr, MatchResult};
ghost use Rattle.machine_state.specs.State.{Valid};
ghost use Rattle.catalogue_lines.specs.Lines.{is_ended as ended};
ghost use Rattle.catalogue_text.specs.Root.{root_text as root_of, last_pieces};
ghost use Rattle.catalogue_text.specs.Grammar.{LastPart};
ghost use Rattle.catalogue_lines.specs.KnownForms.{IsWithinLimits};
ghost use Rattle.catalogue_text.specs.Faults.{TextsApart, IsRootFault};
ghost use Rattle.catalogue_lines.specs.Reading.{IfBefore, Stops, ReadsPart, IsIndexed};
ghost use Rattle.catalogue_text.specs.RootReading.{StopsRoot};

use crate::fault::RootFault;
use crate::mirrors::read_mirrors;
use crate::repos::read_repos;
use crate::snapshots::read_snapshots;
use catalogue_lines::{Known, Stop, after_line, is_ended, line_before, read_known};
use catalogue_publications::read_publications;
use machine_state::State;
use std::alloc::Global;

/// The text behind the end of a root that has these packages, or how many bytes are left where it stops.
fn read_last<'a>(text: &'a [u8], known: &Known) -> Result<&'a [u8], usize>
    requires { IsIndexed known.now }
    ensures { MatchResult result (λ rest. ReadsPart {A = Unit {0}} (λ u. last_pieces) (λ u. IsWithinLimits known.now.list) text.now tt rest.now) (Stops (LastPart known.now.list) text.now) }
{
    let Some(behind) = after_line(text, "end") else {
        return Err(text.len());
    };
    if known.is_within_limits() {
        Ok(behind)
    } else {
        Err(text.len())
    }
}

/// Whether nothing is left of a text whose last line has its line end.
fn is_at_end(text: &[u8], rest: &[u8]) -> bool
    ensures { IsTrue result ↔ ((rest.now ≡ []) × (ended text.now ≡ true)) }
{
    rest.is_empty() && is_ended(text)
}

/// The state whose root text the bytes are, or where they stop being one.
fn read_state(alloc: Global, bytes: &[u8]) -> Result<State, Stop>
    ensures found { IfOk result (λ state. Valid state × (bytes.now ≡ root_of state)) }
    ensures stops { IfErr result (λ stop. IfBefore stop (λ left. length bytes.now < 2 ^ 64 → TextsApart bytes.now → StopsRoot bytes.now left)) }
{
    let (known, rest) = match read_known(alloc, bytes) {
        Ok(head) => head,
        Err(stop) => return Err(stop),
    };
    let (mirrors, rest) = match read_mirrors(alloc, rest, &known) {
        Ok(wanted) => wanted,
        Err(stop) => return Err(stop),
    };
    let (repos, rest) = match read_repos(alloc, rest, &known) {
        Ok(body) => body,
        Err(stop) => return Err(stop),
    };
    let (snapshots, rest) = match read_snapshots(alloc, rest, &known) {
        Ok(frozen) => frozen,
        Err(stop) => return Err(stop),
    };
    let (publications, rest) = match read_publications(alloc, rest, &known, &repos, &snapshots) {
        Ok(published) => published,
        Err(stop) => return Err(stop),
    };
    let rest = match read_last(rest, &known) {
        Ok(rest) => rest,
        Err(left) => return Err(Stop::Before(left)),
    };
    if !is_at_end(bytes, rest) {
        return Err(Stop::Before(rest.len()));
    }
    Ok(State {
        known: known.list,
        mirrors,
        repos,
        snapshots,
        publications,
    })
}

/// The state whose root text the bytes are, or the first line that can't stand there: it has not the form that the lines
/// before it ask for, or what it writes breaks, by itself or with the lines before it, what a valid state keeps to.
///
/// A package text that is none, or whose package doesn't come after the one before it, is a fault of the line with its
/// length. The limits on the length of all package texts and on the size of a file are kept at the line `end`.
pub fn read_root(alloc: Global, bytes: &[u8]) -> Result<State, RootFault>
    // What is read is written so.
    ensures found { IfOk result (λ state. Valid state × (bytes.now ≡ root_of state)) }
    // The root text of a valid state is refused for want of memory alone, and other bytes at their first bad line, where
    // no two package texts in them have one SHA-256.
    ensures fault { IfErr result (λ fault. TextsApart bytes.now → IsRootFault bytes.now fault) }
{
    match read_state(alloc, bytes) {
        Ok(state) => Ok(state),
        Err(Stop::Before(left)) => Err(RootFault::At {
            line: line_before(bytes, left),
        }),
        Err(Stop::OutOfMemory) => Err(RootFault::OutOfMemory),
    }
}
