//! What each directive does.
use crate::arguments::{bytes_of, filled, moment, nothing, number, numbers, one, path, three, two};
use crate::call::Call;
use crate::files::Files;
use crate::print::{put_all, put_bytes, put_call, put_file, put_op};
use crate::sweeps::{Side, faults, stops};
use crate::trouble::Trouble;
use crate::words::{words_of_block, words_of_line};
use crate::world::World;
use ap_host::Bytes;
use command_words::Words;
use std::alloc::Global;

/// Begins a scene.
fn begin(world: &mut World, out: &mut Vec<u8>, rest: Option<&str>) -> Result<(), Trouble> {
    let name = one(rest)?;
    *world = World::new(world.alloc)?;
    Ok(put_all(out, &["scene ", name, "\n"])?)
}

/// The scene's store is what a call left live; prints what the call came to.
fn tell(world: &mut World, out: &mut Vec<u8>, shown: &str, call: &Call) -> Result<(), Trouble> {
    world.store = call.live()?;
    Ok(put_call(world.alloc, out, shown, call)?)
}

/// A call that was made is the last one.
fn follow(world: &mut World, out: &mut Vec<u8>, shown: &str, call: Call) -> Result<(), Trouble> {
    let told = tell(world, out, shown, &call);
    world.last = call.host;
    told
}

/// Makes a call, and prints what it came to.
fn speak(world: &mut World, out: &mut Vec<u8>, words: &Words, shown: &str) -> Result<(), Trouble> {
    let call = world.forward(words)?;
    follow(world, out, shown, call)
}

/// A call of the words behind the directive.
fn run(world: &mut World, out: &mut Vec<u8>, rest: Option<&str>) -> Result<(), Trouble> {
    let words = words_of_line(world.alloc, rest)?;
    speak(world, out, &words, rest.unwrap_or(""))
}

/// A call of the words of a block.
fn run_block(
    world: &mut World,
    out: &mut Vec<u8>,
    rest: Option<&str>,
    block: &[u8],
) -> Result<(), Trouble> {
    nothing(rest)?;
    let (words, shown) = words_of_block(world.alloc, block)?;
    speak(world, out, &words, shown.as_str())
}

/// Prints the operations of the last call.
fn log(world: &World, out: &mut Vec<u8>, rest: Option<&str>) -> Result<(), Trouble> {
    nothing(rest)?;
    for op in world.last.log() {
        put_op(out, op)?;
    }
    Ok(())
}

/// Prints the store's files, those whose paths begin with a prefix.
fn files(world: &World, out: &mut Vec<u8>, rest: Option<&str>) -> Result<(), Trouble> {
    let prefix = match rest {
        None => "",
        Some(_) => one(rest)?,
    };
    for file in world.store.as_slice() {
        if file.0.as_str().starts_with(prefix) {
            put_file(world.alloc, out, &file.0, &file.1)?;
        }
    }
    Ok(())
}

/// Prints a file of the store.
fn cat(world: &World, out: &mut Vec<u8>, rest: Option<&str>) -> Result<(), Trouble> {
    let path = path(world.alloc, one(rest)?)?;
    put_bytes(out, world.store.bytes_at(&path))?;
    Ok(())
}

/// The store is an image of the last call.
fn stop(world: &mut World, rest: Option<&str>) -> Result<(), Trouble> {
    let (upto, choice) = two(rest)?;
    let upto = number(upto)? as usize;
    let choice = number(choice)?;
    if upto > world.last.log().len() {
        return Err(Trouble::Line);
    }
    world.store = Files::image(&world.last, upto, choice)?;
    Ok(())
}

/// A call of the words behind the directive on each image of the last one.
fn stops_of(
    world: &World,
    out: &mut Vec<u8>,
    choices: &[u64],
    rest: Option<&str>,
) -> Result<(), Trouble> {
    let words = words_of_line(world.alloc, rest)?;
    stops(world, out, choices, &words)
}

/// A call on each image of the last one.
fn each_stop(world: &World, out: &mut Vec<u8>, rest: Option<&str>) -> Result<(), Trouble> {
    let Some(text) = rest else {
        return Err(Trouble::Line);
    };
    let (choices, more) = match text.split_once(' ') {
        None => (text, None),
        Some((choices, more)) => (choices, Some(more)),
    };
    let choices = numbers(world.alloc, choices, ',')?;
    stops_of(world, out, &choices, more)
}

/// A call with each of the calls of this side failing in turn.
fn each_fault(
    world: &World,
    out: &mut Vec<u8>,
    side: Side,
    rest: Option<&str>,
) -> Result<(), Trouble> {
    let words = words_of_line(world.alloc, rest)?;
    faults(world, out, side, &words)
}

/// More calls that fail.
fn plan_faults(alloc: Global, planned: &mut Vec<u64>, rest: Option<&str>) -> Result<(), Trouble> {
    let Some(text) = rest else {
        return Err(Trouble::Line);
    };
    let more = numbers(alloc, text, ' ')?;
    planned.extend_from_slice(&more)?;
    Ok(())
}

/// The next call finds the store taken.
fn plan_taken(world: &mut World, rest: Option<&str>) -> Result<(), Trouble> {
    nothing(rest)?;
    world.plan.taken = true;
    Ok(())
}

/// The moment of the calls.
fn set_now(world: &mut World, rest: Option<&str>) -> Result<(), Trouble> {
    world.now = moment(one(rest)?)?;
    Ok(())
}

/// A change of a store or an inbox; `kind` is what follows `store` or `input` in the directive's name.
fn change_files(
    alloc: Global,
    files: &mut Files,
    kind: &str,
    rest: Option<&str>,
    block: &[u8],
) -> Result<(), Trouble> {
    match kind {
        "" => {
            let at = path(alloc, one(rest)?)?;
            files.place(at, Bytes::new(alloc, block)?)?;
        }
        "-hex" => {
            let (at, digits) = two(rest)?;
            files.place(path(alloc, at)?, bytes_of(alloc, digits)?)?;
        }
        "-fill" => {
            let (at, count, digits) = three(rest)?;
            files.place(path(alloc, at)?, filled(alloc, count, digits)?)?;
        }
        "-drop" => files.remove(&path(alloc, one(rest)?)?),
        _ => return Err(Trouble::Line),
    }
    Ok(())
}

/// The directives that print nothing.
fn prepare(world: &mut World, name: &str, rest: Option<&str>, block: &[u8]) -> Result<(), Trouble> {
    let alloc = world.alloc;
    if let Some(kind) = name.strip_prefix("input") {
        return change_files(alloc, &mut world.inbox, kind, rest, block);
    }
    if let Some(kind) = name.strip_prefix("store") {
        return change_files(alloc, &mut world.store, kind, rest, block);
    }
    match name {
        "now" => set_now(world, rest),
        "taken" => plan_taken(world, rest),
        "fail-host" => plan_faults(alloc, &mut world.plan.host, rest),
        "fail-inbox" => plan_faults(alloc, &mut world.plan.inbox, rest),
        "fail-pattern" => plan_faults(alloc, &mut world.plan.pattern, rest),
        "stop" => stop(world, rest),
        _ => Err(Trouble::Line),
    }
}

/// Does what a line says, over the block that it opened.
pub(crate) fn obey(
    world: &mut World,
    out: &mut Vec<u8>,
    line: &str,
    block: &[u8],
) -> Result<(), Trouble> {
    let (name, rest) = match line.split_once(' ') {
        None => (line, None),
        Some((name, rest)) => (name, Some(rest)),
    };
    match name {
        "scene" => begin(world, out, rest),
        "run" => run(world, out, rest),
        "words" => run_block(world, out, rest, block),
        "log" => log(world, out, rest),
        "files" => files(world, out, rest),
        "cat" => cat(world, out, rest),
        "stops" => each_stop(world, out, rest),
        "faults-host" => each_fault(world, out, Side::Host, rest),
        "faults-inbox" => each_fault(world, out, Side::Inbox, rest),
        _ => prepare(world, name, rest, block),
    }
}
