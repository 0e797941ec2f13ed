//! A call on each image of the last one, and a call with each of its calls failing in turn.
ghost use Rattle.std.specs.Prelude.{◌≤◌, length};

use crate::call::{Call, Planned};
use crate::files::Files;
use crate::print::{put, put_short};
use crate::rows::{add_row, end_rows};
use crate::trouble::Trouble;
use crate::words::words_of_line;
use crate::world::World;
use command_words::Words;

/// Adds what these words come to over a store, where nothing is planned.
fn put_over(
    world: &World,
    text: &mut Vec<u8>,
    words: &Words,
    store: &Files,
) -> Result<(), Trouble> {
    let plan = Planned {
        taken: false,
        host: &[],
        inbox: &[],
        pattern: &[],
    };
    let call = world.aside(words, store, plan)?;
    put_made(world, text, &call)
}

/// Adds the status of a call and what was said, in one line.
fn put_made(world: &World, text: &mut Vec<u8>, call: &Call) -> Result<(), Trouble> {
    Ok(put_short(world.alloc, text, call)?)
}

/// Adds what these words come to on an image of the last call.
fn put_stopped(
    world: &World,
    text: &mut Vec<u8>,
    words: &Words,
    upto: usize,
    choice: u64,
) -> Result<(), Trouble>
    requires { upto ≤ length world.now.last.ops }
{
    let image = Files::image(&world.last, upto, choice)?;
    put_over(world, text, words, &image)
}

/// Adds the lines of one choice.
fn put_stops(world: &World, out: &mut Vec<u8>, words: &Words, choice: u64) -> Result<(), Trouble> {
    let head = format!(in world.alloc; "stop {choice} ")?;
    put_rows(world, out, words, choice, head.as_str())
}

/// Adds the lines of one choice, which begin with this head.
fn put_rows(
    world: &World,
    out: &mut Vec<u8>,
    words: &Words,
    choice: u64,
    head: &str,
) -> Result<(), Trouble> {
    let mut row = None;
    for upto in 0..=world.last.log().len() {
        let mut text = Vec::new(world.alloc);
        put_stopped(world, &mut text, words, upto, choice)?;
        row = add_row(out, head, row, upto as u64, text)?;
    }
    end_rows(out, head, row)
}

/// Adds the lines of each choice.
pub(crate) fn stops(
    world: &World,
    out: &mut Vec<u8>,
    choices: &[u64],
    words: &Words,
) -> Result<(), Trouble> {
    for choice in choices {
        put_stops(world, out, words, *choice)?;
    }
    Ok(())
}

/// Whose calls fail.
#[derive(Clone, Copy, Debug, PartialEq, Eq)]
pub(crate) enum Side {
    Host,
    Inbox,
}

impl Side {
    /// The plan that these calls of this side fail.
    fn plan(self, ordinals: &[u64]) -> Planned<'_> {
        let (host, inbox): (&[u64], &[u64]) = match self {
            Side::Host => (ordinals, &[]),
            Side::Inbox => (&[], ordinals),
        };
        Planned {
            taken: false,
            host,
            inbox,
            pattern: &[],
        }
    }

    /// How many calls of this side failed.
    fn faults(self, call: &Call) -> u64 {
        match self {
            Side::Host => call.host.faults(),
            Side::Inbox => call.inbox_faults,
        }
    }
}

/// Adds what `repo list` comes to on what a call left live.
fn put_list(world: &World, text: &mut Vec<u8>, list: &Words, call: &Call) -> Result<(), Trouble> {
    let live = call.live()?;
    put_over(world, text, list, &live)
}

/// Adds what a call came to, and what `repo list` comes to on what it left live; false where no call of this side failed.
fn put_faulty(
    world: &World,
    text: &mut Vec<u8>,
    list: &Words,
    side: Side,
    call: &Call,
) -> Result<bool, Trouble> {
    if side.faults(call) == 0 {
        return Ok(false);
    }
    put_made(world, text, call)?;
    put(text, " ; ")?;
    put_list(world, text, list, call)?;
    Ok(true)
}

/// Adds what a call with the one of this ordinal failing came to; false where no call failed.
fn put_fault(
    world: &World,
    text: &mut Vec<u8>,
    words: &Words,
    list: &Words,
    side: Side,
    ordinal: u64,
) -> Result<bool, Trouble> {
    let call = world.aside(words, &world.store, side.plan(&[ordinal]))?;
    put_faulty(world, text, list, side, &call)
}

/// Adds the lines of each ordinal, up to the first at which no call failed; `list` are the words `repo list`.
fn put_faults(
    world: &World,
    out: &mut Vec<u8>,
    side: Side,
    words: &Words,
    list: &Words,
) -> Result<(), Trouble> {
    let mut row = None;
    for ordinal in 0..u64::MAX {
        let mut text = Vec::new(world.alloc);
        if !put_fault(world, &mut text, words, list, side, ordinal)? {
            break;
        }
        row = add_row(out, "fault ", row, ordinal, text)?;
    }
    end_rows(out, "fault ", row)
}

/// Adds the lines of each ordinal, up to the first at which no call failed.
pub(crate) fn faults(
    world: &World,
    out: &mut Vec<u8>,
    side: Side,
    words: &Words,
) -> Result<(), Trouble> {
    let list = words_of_line(world.alloc, Some("repo list"))?;
    put_faults(world, out, side, words, &list)
}
