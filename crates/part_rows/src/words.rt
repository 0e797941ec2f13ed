//! Calls of command_words.

use command_words::{Words, read_words};
use row_answers::reply;
use row_table::{Desk, Stop};

/// The words between the blanks; none where there is nothing at all.
fn words_of(desk: &Desk, rest: &str) -> Result<Words, Stop> {
    let mut words = Words::new(desk.alloc);
    if rest.is_empty() {
        return Ok(words);
    }
    for raw in rest.split(' ') {
        words.push(desk.word(raw)?.as_str())?;
    }
    Ok(words)
}

pub fn play(desk: &Desk, out: &mut String, call: &str, rest: &str) -> Result<(), Stop> {
    let "read" = call else {
        return Err(Stop::NoCall);
    };
    let words = words_of(desk, rest)?;
    reply(out, read_words(desk.alloc, &words))
}
