//! The lines of refusals, most of which no whole call has today.

use control_stanza::Text;
use machine_state::{Kind, Limit, Refusal};
use reply_text::refusal_line;
use row_table::{Desk, Stop, first_word};
use std::alloc::AllocError;

pub fn play(desk: &Desk, out: &mut String, call: &str, rest: &str) -> Result<(), Stop> {
    let refusal = refusal_of(desk, call, rest)?;
    let done = put_copy(out, &refusal);
    drop(refusal);
    Ok(done?)
}

/// The refusal that a call is about.
fn refusal_of(desk: &Desk, call: &str, rest: &str) -> Result<Refusal, Stop> {
    match call {
        "bad-name" => Ok(Refusal::BadName(text_of(desk, rest)?)),
        "no-distribution" => Ok(Refusal::NoDistribution),
        "no-architectures" => Ok(Refusal::NoArchitectures),
        "not-updated" => Ok(Refusal::NotUpdated(desk.name(rest)?)),
        "clash" => Ok(Refusal::FileClash(desk.path(rest)?)),
        "release-bytes" => Ok(Refusal::Limit(Limit::ReleaseBytes)),
        _ => named(desk, call, rest),
    }
}

fn text_of(desk: &Desk, rest: &str) -> Result<Text, Stop> {
    let word = desk.word(rest)?;
    Ok(Text::new(desk.alloc, word.as_str())?)
}

/// The line of a refusal.
fn put_line(out: &mut String, refusal: &Refusal) -> Result<(), AllocError> {
    let line = refusal_line(*out.allocator(), refusal)?;
    out.push_str(line.as_str())
}

/// The line of a refusal, as a copy has it.
fn put_copy(out: &mut String, refusal: &Refusal) -> Result<(), AllocError> {
    let copy = refusal.copy(*out.allocator())?;
    let done = put_line(out, &copy);
    drop(copy);
    done
}

fn kind_of(word: &str) -> Result<Kind, Stop> {
    match word {
        "mirror" => Ok(Kind::Mirror),
        "repo" => Ok(Kind::Repo),
        "snapshot" => Ok(Kind::Snapshot),
        "component" => Ok(Kind::Component),
        _ => Err(Stop::NoCall),
    }
}

/// A refusal that names a thing of some kind.
fn named(desk: &Desk, call: &str, rest: &str) -> Result<Refusal, Stop> {
    let (kind, name) = first_word(rest)?;
    let kind = kind_of(kind)?;
    match call {
        "exists" => Ok(Refusal::Exists(kind, desk.name(name)?)),
        "unknown" => Ok(Refusal::Unknown(kind, desk.name(name)?)),
        _ => Err(Stop::NoCall),
    }
}
