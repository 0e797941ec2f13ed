//! Calls of query_eval and package_relations.

use ap_text::Name;
use depends_field::{Alternative, read_depends};
use package_relations::satisfies;
use query_eval::{MemPatterns, Prepared, RegexPatterns, glob_matches};
use query_grammar::{Query, read_query};
use row_answers::reply;
use row_table::{Desk, Stop, first_word, number_of, yes_or_no};
use std::alloc::AllocError;

pub fn play(desk: &Desk, out: &mut String, call: &str, rest: &str) -> Result<(), Stop> {
    match call {
        "of" => of(desk, out, rest),
        "failing" => failing(desk, out, rest),
        "satisfied" => satisfied(desk, out, rest),
        "glob" => glob(desk, out, rest),
        _ => Err(Stop::NoCall),
    }
}

/// A query that has to be readable.
fn query_of(desk: &Desk, rest: &str) -> Result<Query, Stop> {
    match read_query(desk.alloc, desk.text(rest)?.as_str()) {
        Ok(query) => Ok(query),
        Err(_) => Err(Stop::NoCall),
    }
}

fn mark_of(holds: bool) -> char {
    if holds { 'x' } else { '-' }
}

/// An `x` for each held package of which the query is true.
fn put_marks(desk: &Desk, out: &mut String, prepared: &Prepared) -> Result<(), AllocError> {
    for package in desk.packages.iter() {
        out.push(mark_of(prepared.matches(desk.alloc, package)?))?;
    }
    Ok(())
}

fn put_truth(desk: &Desk, out: &mut String, query: &Query) -> Result<(), Stop> {
    let mut patterns = RegexPatterns::new(desk.alloc);
    match Prepared::new(desk.alloc, query, &mut patterns) {
        Ok(prepared) => {
            let done = put_marks(desk, out, &prepared);
            drop(prepared);
            Ok(done?)
        }
        Err(fault) => reply(out, fault),
    }
}

fn of(desk: &Desk, out: &mut String, rest: &str) -> Result<(), Stop> {
    let query = query_of(desk, rest)?;
    let done = put_truth(desk, out, &query);
    drop(query);
    done
}

/// A builder that finds the pattern of this ordinal, counted from 0, too large.
fn failing_at(desk: &Desk, raw: &str) -> Result<MemPatterns, Stop> {
    let mut failing = Vec::new(desk.alloc);
    failing.push(number_of(raw)?)?;
    Ok(MemPatterns::new(desk.alloc, failing))
}

/// Whether a query is prepared where this builder makes its patterns.
fn put_failing(out: &mut String, query: &Query, patterns: &mut MemPatterns) -> Result<(), Stop> {
    match Prepared::new(*out.allocator(), query, patterns) {
        Ok(prepared) => {
            drop(prepared);
            Ok(out.push_str("prepared")?)
        }
        Err(fault) => reply(out, fault),
    }
}

fn failing(desk: &Desk, out: &mut String, rest: &str) -> Result<(), Stop> {
    let (ordinal, rest) = first_word(rest)?;
    let mut patterns = failing_at(desk, ordinal)?;
    let query = query_of(desk, rest)?;
    let done = put_failing(out, &query, &mut patterns);
    drop(query);
    done
}

/// The first alternative of a field that has to be readable.
fn alternative_of(desk: &Desk, rest: &str) -> Result<Alternative, Stop> {
    let Ok(groups) = read_depends(desk.alloc, desk.text(rest)?.as_str()) else {
        return Err(Stop::NoCall);
    };
    let Some(group) = groups.first() else {
        return Err(Stop::NoCall);
    };
    match group.alternatives.first() {
        Some(alternative) => Ok(alternative.copy(desk.alloc)?),
        None => Err(Stop::NoCall),
    }
}

/// An `x` for each held package that satisfies an alternative on an architecture.
fn put_satisfied(
    desk: &Desk,
    out: &mut String,
    alternative: &Alternative,
    arch: &Name,
) -> Result<(), AllocError> {
    for package in desk.packages.iter() {
        out.push(mark_of(satisfies(desk.alloc, package, alternative, arch)?))?;
    }
    Ok(())
}

/// The same of the alternative of a text.
fn put_satisfied_of(desk: &Desk, out: &mut String, arch: &Name, rest: &str) -> Result<(), Stop> {
    let alternative = alternative_of(desk, rest)?;
    let done = put_satisfied(desk, out, &alternative, arch);
    drop(alternative);
    Ok(done?)
}

/// The same of an architecture and the alternative of a text.
fn satisfied(desk: &Desk, out: &mut String, rest: &str) -> Result<(), Stop> {
    let (arch, rest) = first_word(rest)?;
    let arch = desk.name(arch)?;
    put_satisfied_of(desk, out, &arch, rest)
}

fn glob(desk: &Desk, out: &mut String, rest: &str) -> Result<(), Stop> {
    let (pattern, text) = first_word(rest)?;
    let (pattern, text) = (desk.word(pattern)?, desk.word(text)?);
    Ok(out.push_str(yes_or_no(glob_matches(pattern.as_str(), text.as_str())))?)
}
