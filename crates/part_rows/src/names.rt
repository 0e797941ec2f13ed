//! Calls of ap_text, and of the texts of control_stanza.

use ap_text::{
    Name, SafePath, is_name, is_package_name, is_safe_path, read_decimal, write_decimal,
};
use control_stanza::Text;
use row_answers::reply;
use row_table::{Desk, Stop, first_word, number_of, put, put_bytes, put_order, yes_or_no};

pub fn play_name(desk: &Desk, out: &mut String, call: &str, rest: &str) -> Result<(), Stop> {
    match call {
        "read" => read_name(desk, out, rest),
        "package" => package_name(desk, out, rest),
        "order" => name_order(desk, out, rest),
        "texts" => text_order(desk, out, rest),
        "number" => number(desk, out, rest),
        _ => Err(Stop::NoCall),
    }
}

pub fn play_path(desk: &Desk, out: &mut String, call: &str, rest: &str) -> Result<(), Stop> {
    match call {
        "read" => read_path(desk, out, rest),
        "order" => path_order(desk, out, rest),
        "made" => made(desk, out, rest),
        "named" => named(desk, out, rest),
        _ => Err(Stop::NoCall),
    }
}

fn read_name(desk: &Desk, out: &mut String, rest: &str) -> Result<(), Stop> {
    let text = desk.word(rest)?;
    put(out, &[yes_or_no(is_name(text.as_str())), " "])?;
    reply(out, Name::new(desk.alloc, text.as_str()))
}

fn package_name(desk: &Desk, out: &mut String, rest: &str) -> Result<(), Stop> {
    let text = desk.word(rest)?;
    Ok(out.push_str(yes_or_no(is_package_name(text.as_str())))?)
}

/// Whether a name and a copy of another one are the same, and their order.
fn put_name_order(out: &mut String, a: &Name, b: &Name) -> Result<(), Stop> {
    let b = b.copy(*out.allocator())?;
    put_order(out, a.is(&b), a.order(&b))
}

fn name_order(desk: &Desk, out: &mut String, rest: &str) -> Result<(), Stop> {
    let (left, right) = first_word(rest)?;
    let a = desk.name(left)?;
    let b = desk.name(right)?;
    put_name_order(out, &a, &b)
}

/// Whether a text and a copy of another one are the same, and their order.
fn put_text_order(out: &mut String, a: &Text, b: &Text) -> Result<(), Stop> {
    let b = b.copy(*out.allocator())?;
    put_order(out, a.is(&b), a.order(&b))
}

fn put_two_texts(out: &mut String, left: &str, right: &str) -> Result<(), Stop> {
    let a = Text::new(*out.allocator(), left)?;
    let b = Text::new(*out.allocator(), right)?;
    put_text_order(out, &a, &b)
}

fn text_order(desk: &Desk, out: &mut String, rest: &str) -> Result<(), Stop> {
    let (left, right) = first_word(rest)?;
    let (left, right) = (desk.word(left)?, desk.word(right)?);
    put_two_texts(out, left.as_str(), right.as_str())
}

/// The number that a word is in decimal, written again.
fn number(desk: &Desk, out: &mut String, rest: &str) -> Result<(), Stop> {
    let text = desk.word(rest)?;
    let Some(number) = read_decimal(text.as_str()) else {
        return Ok(put(out, &["none"])?);
    };
    let mut bytes = Vec::new(desk.alloc);
    write_decimal(&mut bytes, number)?;
    put_bytes(out, &bytes)
}

fn read_path(desk: &Desk, out: &mut String, rest: &str) -> Result<(), Stop> {
    let text = desk.word(rest)?;
    put(out, &[yes_or_no(is_safe_path(text.as_str())), " "])?;
    reply(out, SafePath::new(desk.alloc, text.as_str()))
}

fn two_paths(desk: &Desk, rest: &str) -> Result<(SafePath, SafePath), Stop> {
    let (left, right) = first_word(rest)?;
    Ok((desk.path(left)?, desk.path(right)?))
}

/// Whether two paths are the same, their order, and whether the first is below the second.
fn put_path_order(out: &mut String, a: &SafePath, b: &SafePath) -> Result<(), Stop> {
    put_order(out, a.is(b), a.order(b))?;
    Ok(put(out, &[" ", yes_or_no(a.is_below(b))])?)
}

/// The same of a path and a copy of another one.
fn put_copy_order(out: &mut String, a: &SafePath, b: &SafePath) -> Result<(), Stop> {
    let b = b.copy(*out.allocator())?;
    put_path_order(out, a, &b)
}

fn path_order(desk: &Desk, out: &mut String, rest: &str) -> Result<(), Stop> {
    let (a, b) = two_paths(desk, rest)?;
    put_copy_order(out, &a, &b)
}

/// A numbered path below a folder, and that one joined to the folder once more.
fn put_numbered(out: &mut String, folder: &SafePath, number: u64) -> Result<(), Stop> {
    if folder.as_str().len() > 400 {
        return Err(Stop::NoCall);
    }
    let made = SafePath::numbered(*out.allocator(), folder, number)?;
    put_joined(out, folder, &made)
}

fn made(desk: &Desk, out: &mut String, rest: &str) -> Result<(), Stop> {
    let (folder, number) = first_word(rest)?;
    let number = number_of(number)?;
    let folder = desk.path(folder)?;
    put_numbered(out, &folder, number)
}

/// A path, and that one joined to the folder.
fn put_joined(out: &mut String, folder: &SafePath, made: &SafePath) -> Result<(), Stop> {
    if folder.as_str().len() > 400 || made.as_str().len() > 500 {
        return Err(Stop::NoCall);
    }
    put(out, &[made.as_str(), " "])?;
    reply(out, SafePath::joined(*out.allocator(), folder, made)?)
}

/// The path of one segment that a name is.
fn named(desk: &Desk, out: &mut String, rest: &str) -> Result<(), Stop> {
    let name = desk.name(rest)?;
    reply(out, SafePath::of_name(desk.alloc, &name)?)
}
