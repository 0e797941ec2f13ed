//! Reads stanzas.
ghost use Rattle.std.specs.Prelude.{◌≡◌, ◌≤◌, ◌<◌, ◌+◌, ◌^◌, ℕ, List, Option, None, Some, Ok, IfOk, IfErr, true, false, length, OnErr};
ghost use Rattle.control_stanza.specs.declared.stanza.Field.{Field};
ghost use Rattle.control_stanza.specs.Lines.{lines_of, bare, has_return, has_line_end, is_field_name};
ghost use Rattle.control_stanza.specs.Fields.{is_further_line, is_field};
ghost use Rattle.control_stanza.specs.Spelled.{Stanzas, within};
ghost use Rattle.control_stanza.specs.Faults.{IsFirstFault};
ghost use Rattle.control_stanza.specs.Reading.{stanzas_of, line_step, added, continued, grown, begun_size};
ghost use Rattle.control_stanza.specs.Answers.{Gives, GivesStep, step_seen, IfFault};

use crate::begun::Begun;
use crate::fault::{StanzaFault, StanzaKind, StepError};
use crate::gathered::Gathered;
use crate::line::{Cut, Line, classify, first_line};
use crate::stanza::{Field, Stanza};
use crate::text::Text;
use std::alloc::Global;

/// How many bytes the lines of a stanza may have together, their line ends among them.
pub const MOST_STANZA_BYTES: u64 = 4_194_304;

/// A stanza that a line ended, and the stanza that is begun behind that line.
type Step = (Option<Begun>, Option<Begun>);

fn is_within(bound: Option<u64>, size: u64) -> bool
    ensures { result ≡ within bound size }
{
    match bound {
        None => true,
        Some(most) => size <= most,
    }
}

fn grown(bound: Option<u64>, begun: Begun) -> Result<Step, StepError>
    ensures { GivesStep step_seen result (grown bound begun) }
{
    if !is_within(bound, begun.size) {
        return Err(StepError::Shows(StanzaKind::TooLong));
    }
    Ok((None, Some(begun)))
}

fn continued(
    bound: Option<u64>,
    size: u64,
    more: &str,
    current: Option<Begun>,
) -> Result<Step, StepError>
    requires fits { begun_size current + size < 2 ^ 64 }
    requires further { is_further_line more.now ≡ true }
    requires no_return { has_return more.now ≡ false }
    requires one_line { has_line_end more.now ≡ false }
    ensures { GivesStep step_seen result (continued bound size more.now current) }
{
    match current {
        None => Err(StepError::Shows(StanzaKind::StrayContinuation)),
        Some(begun) => {
            let stanza = begun.stanza.with_line(more)?;
            grown(
                bound,
                Begun {
                    number: begun.number,
                    size: begun.size + size,
                    stanza,
                },
            )
        }
    }
}

fn added(
    bound: Option<u64>,
    number: u64,
    size: u64,
    field: Field,
    current: Option<Begun>,
    alloc: Global,
) -> Result<Step, StepError>
    requires fits { begun_size current + size < 2 ^ 64 }
    requires field { is_field field ≡ true }
    ensures { GivesStep step_seen result (added bound number size field.name field.value current) }
{
    match current {
        None => {
            let stanza = Gathered::begin(alloc, field)?;
            grown(
                bound,
                Begun {
                    number,
                    size,
                    stanza,
                },
            )
        }
        Some(begun) => {
            if begun.stanza.has_name(alloc, field.name.as_str())? {
                return Err(StepError::Shows(StanzaKind::RepeatedField));
            }
            let stanza = begun.stanza.with_field(alloc, field)?;
            grown(
                bound,
                Begun {
                    number: begun.number,
                    size: begun.size + size,
                    stanza,
                },
            )
        }
    }
}

fn step(
    alloc: Global,
    bound: Option<u64>,
    number: u64,
    current: Option<Begun>,
    cut: Cut<'_>,
) -> Result<Step, StepError>
    requires fits { begun_size current + length cut.whole.now < 2 ^ 64 }
    requires bare { bare cut.whole.now ≡ cut.bare.now }
    ensures { GivesStep step_seen result (line_step bound number current cut.entry.whole.now) }
{
    let size = cut.whole.len() as u64;
    match classify(cut.bare) {
        Err(kind) => Err(StepError::Shows(kind)),
        Ok(Line::Blank) => Ok((current, None)),
        Ok(Line::More(more)) => continued(bound, size, more, current),
        Ok(Line::Start(name, value)) => {
            let field = Field {
                name: Text::new(alloc, name)?,
                value: Text::new(alloc, value)?,
            };
            added(bound, number, size, field, current, alloc)
        }
    }
}

#[tactic(auto, unfolding(crate::specs::Reading::stanzas_of))]
fn read_all(
    alloc: Global,
    bound: Option<u64>,
    text: &[u8],
) -> Result<Vec<(u64, Stanza)>, StanzaFault>
    ensures { Gives (λ v. v.items) result (stanzas_of bound text.now) }
{
    let mut done = Vec::new(alloc);
    let mut current = None;
    let mut rest = text;
    let mut number = 1;
    while let Some(cut) = first_line(rest) {
        let (ended, begun) = match step(alloc, bound, number, current, cut) {
            Ok(made) => made,
            Err(StepError::OutOfMemory) => return Err(StanzaFault::OutOfMemory),
            Err(StepError::Shows(kind)) => return Err(StanzaFault::At { line: number, kind }),
        };
        if let Some(ended) = ended {
            done.push((ended.number, ended.stanza.into_stanza()))?;
        }
        current = begun;
        rest = cut.rest;
        number += 1;
    }
    if let Some(last) = current {
        done.push((last.number, last.stanza.into_stanza()))?;
    }
    Ok(done)
}

/// The stanzas of a control text (Debian Policy 5.1), each with the number of its first line, counted from 1.
///
/// A line of spaces and tabs separates stanzas. The lines of a stanza have at most 4,194,304 bytes with their line ends.
pub fn read_stanzas(alloc: Global, bytes: &[u8]) -> Result<Vec<(u64, Stanza)>, StanzaFault>
    // Line by line, what is read or the first fault.
    ensures exact { Gives (λ v. v.items) result (stanzas_of (Some MOST_STANZA_BYTES) bytes.now) }
    // What is read is spelled so.
    ensures found { IfOk result (λ v. Stanzas (Some MOST_STANZA_BYTES) 1 (lines_of bytes.now) v.items) }
    // What is spelled so is read, unless memory runs out.
    ensures only { (out : List (ℕ × List Field)) → Stanzas (Some MOST_STANZA_BYTES) 1 (lines_of bytes.now) out → Gives (λ v. v.items) result (Ok out) }
    // A fault is at the first line that can't stand there, and its kind the first that this line shows.
    ensures least { IfErr result (λ e. IfFault e (λ f. IsFirstFault (Some MOST_STANZA_BYTES) (lines_of bytes.now) f)) }
{
    read_all(alloc, Some(MOST_STANZA_BYTES), bytes)
}

/// The same with no bound on the bytes of a stanza, for texts that are this program's own.
pub fn read_stored(alloc: Global, bytes: &[u8]) -> Result<Vec<(u64, Stanza)>, StanzaFault>
    ensures exact { Gives (λ v. v.items) result (stanzas_of None bytes.now) }
    ensures found { IfOk result (λ v. Stanzas None 1 (lines_of bytes.now) v.items) }
    ensures only { (out : List (ℕ × List Field)) → Stanzas None 1 (lines_of bytes.now) out → Gives (λ v. v.items) result (Ok out) }
    ensures least { IfErr result (λ e. IfFault e (λ f. IsFirstFault None (lines_of bytes.now) f)) }
{
    read_all(alloc, None, bytes)
}
