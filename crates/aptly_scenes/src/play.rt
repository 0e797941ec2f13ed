//! The lines of a text of scenes, in turn.
use crate::directives::obey;
use crate::print::put;
use crate::trouble::Trouble;
use crate::world::World;
use ap_text::write_decimal;
use std::alloc::{AllocError, Global};

/// A line that opened a block, and the block so far.
#[derive(Drop)]
struct Opened<'a> {
    number: u64,
    line: &'a [u8],
    block: Vec<u8>,
}

/// Does what a line says.
fn obey_bytes(
    world: &mut World,
    out: &mut Vec<u8>,
    line: &[u8],
    block: &[u8],
) -> Result<(), Trouble> {
    match str::from_utf8(line) {
        Ok(text) => obey(world, out, text, block),
        Err(_) => Err(Trouble::Line),
    }
}

/// Does what a line says, or tells its number where it is none of the language.
fn play_line(
    world: &mut World,
    out: &mut Vec<u8>,
    number: u64,
    line: &[u8],
    block: &[u8],
) -> Result<(), AllocError> {
    match obey_bytes(world, out, line, block) {
        Ok(()) => Ok(()),
        Err(Trouble::OutOfMemory) => Err(AllocError),
        Err(Trouble::Line) => {
            put(out, "? ")?;
            write_decimal(out, number)?;
            put(out, "\n")
        }
    }
}

/// Whether a line opens a block, by its first word.
fn opens(line: &[u8]) -> bool {
    let word = line.split(|byte| *byte == b' ').next().unwrap_or(line);
    word == b"input".as_slice() || word == b"store".as_slice() || word == b"words".as_slice()
}

/// A line outside of blocks; gives the block that it opens.
fn play_outside<'a>(
    world: &mut World,
    out: &mut Vec<u8>,
    number: u64,
    line: &'a [u8],
) -> Result<Option<Opened<'a>>, AllocError> {
    if opens(line) {
        let block = Vec::new(world.alloc);
        return Ok(Some(Opened {
            number,
            line,
            block,
        }));
    }
    if !line.is_empty() && !line.starts_with(b"#") {
        play_line(world, out, number, line, &[])?;
    }
    Ok(None)
}

/// The line of a block that has ended.
fn close(world: &mut World, out: &mut Vec<u8>, opened: Opened<'_>) -> Result<(), AllocError> {
    play_line(world, out, opened.number, opened.line, &opened.block)
}

/// A line within a block; gives the block where it goes on.
fn play_inside<'a>(
    world: &mut World,
    out: &mut Vec<u8>,
    mut opened: Opened<'a>,
    line: &[u8],
) -> Result<Option<Opened<'a>>, AllocError> {
    if line == b".".as_slice() {
        close(world, out, opened)?;
        return Ok(None);
    }
    opened.block.extend_from_slice(line)?;
    opened.block.push(b'\n')?;
    Ok(Some(opened))
}

/// Each of these lines, which LFs part; a block that is open behind the last one ends there.
fn play_lines(world: &mut World, out: &mut Vec<u8>, text: &[u8]) -> Result<(), AllocError> {
    let mut opened = None;
    let mut number = 0u64;
    for line in text.split(|byte| *byte == b'\n') {
        number = number.saturating_add(1);
        opened = match opened {
            None => play_outside(world, out, number, line)?,
            Some(opened) => play_inside(world, out, opened, line)?,
        };
    }
    match opened {
        None => Ok(()),
        Some(opened) => close(world, out, opened),
    }
}

/// Plays a text of scenes. What is printed stands in `out`, after an error too.
pub(crate) fn play(alloc: Global, out: &mut Vec<u8>, text: &[u8]) -> Result<(), AllocError> {
    if text.is_empty() {
        return Ok(());
    }
    let lines = text.strip_suffix(b"\n").unwrap_or(text);
    let mut world = World::new(alloc)?;
    play_lines(&mut world, out, lines)
}
