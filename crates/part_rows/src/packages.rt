//! Calls of package_core.

use crate::stanzas::last_stanza;
use ap_text::SafePath;
use control_stanza::Stanza;
use digest_set::{Digests, digests_of};
use package_core::{Package, compare_packages, has_same_triple};
use row_answers::{put_held, put_text, put_triple, reply};
use row_table::{Desk, Stop, first_word, put, put_order, yes_or_no};
use std::alloc::{AllocError, Global};

pub fn play(desk: &mut Desk, out: &mut String, call: &str, rest: &str) -> Result<(), Stop> {
    match call {
        "read" => read(desk, out, rest),
        "hold" => hold(desk, out, rest),
        "drop" => Ok(desk.packages.clear()),
        "beside" => beside(desk, out, rest),
        "complete" => complete(desk, out, rest),
        "stored" => stored(desk, out, rest),
        _ => Err(Stop::NoCall),
    }
}

fn read(desk: &Desk, out: &mut String, rest: &str) -> Result<(), Stop> {
    let stanza = last_stanza(desk, rest)?;
    reply(out, Package::from_stanza(desk.alloc, &stanza))
}

/// A copy of a package, which is let go.
fn copy_of(alloc: Global, made: (Package, SafePath)) -> Result<Package, AllocError> {
    let copy = made.0.copy(alloc);
    drop(made);
    copy
}

/// The package that a stanza has to describe, as a copy of it has it.
fn described(alloc: Global, stanza: &Stanza) -> Result<Package, Stop> {
    match Package::from_stanza(alloc, stanza) {
        Ok(made) => Ok(copy_of(alloc, made)?),
        Err(_) => Err(Stop::NoCall),
    }
}

/// The package of a text that has to describe one, as a copy of it has it.
pub fn package_of(desk: &Desk, rest: &str) -> Result<Package, Stop> {
    let stanza = last_stanza(desk, rest)?;
    let package = described(desk.alloc, &stanza);
    drop(stanza);
    package
}

fn hold(desk: &mut Desk, out: &mut String, rest: &str) -> Result<(), Stop> {
    let package = package_of(desk, rest)?;
    desk.packages.push(package)?;
    Ok(put_held(out, &desk.packages)?)
}

/// Whether the base's package has the name, version and architecture of another one, and their order.
fn beside(desk: &Desk, out: &mut String, rest: &str) -> Result<(), Stop> {
    let own = package_of(desk, "~")?;
    let done = put_beside(desk, out, &own, rest);
    drop(own);
    done
}

/// The same of a package and the one of a text.
fn put_beside(desk: &Desk, out: &mut String, own: &Package, rest: &str) -> Result<(), Stop> {
    let other = package_of(desk, rest)?;
    let same = has_same_triple(own, &other);
    let order = compare_packages(own, &other);
    drop(other);
    put_order(out, same, order)
}

/// A body, and a text: the package's text once it is completed by what is found of the body.
fn complete(desk: &Desk, out: &mut String, rest: &str) -> Result<(), Stop> {
    let (body, rest) = first_word(rest)?;
    let found = digests_of(desk.word(body)?.as_bytes());
    let mut package = package_of(desk, rest)?;
    let done = put_completed(out, &mut package, &found);
    drop(package);
    done
}

/// The text of a package once it is completed by what was found.
fn put_completed(out: &mut String, package: &mut Package, found: &Digests) -> Result<(), Stop> {
    match package.complete(*out.allocator(), found) {
        Ok(()) => Ok(put_text(out, package)?),
        Err(fault) => reply(out, fault),
    }
}

/// A package, and whether these bytes are its text.
fn put_stored(out: &mut String, package: &Package, bytes: &[u8]) -> Result<(), AllocError> {
    let text = package.text(*out.allocator())?;
    let same = text.as_str().as_bytes() == bytes;
    put_triple(out, package)?;
    put(out, &[" ", yes_or_no(same)])
}

/// A package that was read of these bytes, and whether they are its text; or that there is none.
fn put_read(out: &mut String, read: &Option<Package>, bytes: &[u8]) -> Result<(), AllocError> {
    match read {
        Some(package) => put_stored(out, package, bytes),
        None => out.push_str("none"),
    }
}

/// What these bytes are as a stored package text.
fn put_read_of(out: &mut String, bytes: &[u8]) -> Result<(), AllocError> {
    let read = Package::read_text(*out.allocator(), bytes)?;
    let done = put_read(out, &read, bytes);
    drop(read);
    done
}

/// What a text is as a stored package text, and whether the package has it.
fn stored(desk: &Desk, out: &mut String, rest: &str) -> Result<(), Stop> {
    let bytes = desk.bytes(rest)?;
    Ok(put_read_of(out, &bytes)?)
}
