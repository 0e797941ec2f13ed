//! Calls of deb_version.

use deb_version::{Relation, Version, VersionFault, compare, meets};
use row_answers::{relation_text, reply};
use row_table::{Desk, Stop, first_word, put, put_order, sign_of};

pub fn play(desk: &Desk, out: &mut String, call: &str, rest: &str) -> Result<(), Stop> {
    match call {
        "read" => read(desk, out, rest),
        "order" => order(desk, out, rest),
        "meets" => met(desk, out, rest),
        "texts" => texts(desk, out, rest),
        _ => Err(Stop::NoCall),
    }
}

type Read = Result<Version, VersionFault>;

/// A copy of a version that was read, or the fault.
fn put_read(out: &mut String, read: Read) -> Result<(), Stop> {
    match read {
        Ok(version) => {
            let copy = version.copy(*out.allocator());
            drop(version);
            reply(out, copy?)
        }
        Err(fault) => reply(out, fault),
    }
}

fn read(desk: &Desk, out: &mut String, rest: &str) -> Result<(), Stop> {
    let text = desk.word(rest)?;
    put_read(out, Version::parse(desk.alloc, text.as_str()))
}

fn two(desk: &Desk, rest: &str) -> Result<(Read, Read), Stop> {
    let (left, right) = first_word(rest)?;
    let first = Version::parse(desk.alloc, desk.word(left)?.as_str());
    let second = Version::parse(desk.alloc, desk.word(right)?.as_str());
    Ok((first, second))
}

/// The sign between two versions, or which of them is none.
fn order_of(both: &(Read, Read)) -> &'static str {
    match both {
        (Ok(a), Ok(b)) => sign_of(compare(a, b)),
        (Err(_), Ok(_)) => "first",
        (Ok(_), Err(_)) => "second",
        (Err(_), Err(_)) => "both",
    }
}

fn order(desk: &Desk, out: &mut String, rest: &str) -> Result<(), Stop> {
    let both = two(desk, rest)?;
    let order = order_of(&both);
    drop(both);
    Ok(out.push_str(order)?)
}

const RELATIONS: [Relation; 5] = [
    Relation::Earlier,
    Relation::EarlierEqual,
    Relation::Equal,
    Relation::LaterEqual,
    Relation::Later,
];

/// The relations in which the first version stands to the second.
fn put_met(out: &mut String, a: &Version, b: &Version) -> Result<(), Stop> {
    for relation in RELATIONS {
        if meets(a, relation, b) {
            put(out, &[relation_text(relation), " "])?;
        }
    }
    Ok(())
}

fn put_met_of(out: &mut String, both: &(Read, Read)) -> Result<(), Stop> {
    match both {
        (Ok(a), Ok(b)) => put_met(out, a, b),
        _ => Err(Stop::NoCall),
    }
}

fn met(desk: &Desk, out: &mut String, rest: &str) -> Result<(), Stop> {
    let both = two(desk, rest)?;
    let done = put_met_of(out, &both);
    drop(both);
    done
}

fn put_texts(out: &mut String, both: &(Read, Read)) -> Result<(), Stop> {
    match both {
        (Ok(a), Ok(b)) => put_order(out, a.is(b), a.text_order(b)),
        _ => Err(Stop::NoCall),
    }
}

fn texts(desk: &Desk, out: &mut String, rest: &str) -> Result<(), Stop> {
    let both = two(desk, rest)?;
    let done = put_texts(out, &both);
    drop(both);
    done
}
