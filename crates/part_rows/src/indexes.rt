//! Calls of index_text.

use index_text::read_packages;
use row_answers::reply;
use row_table::{Desk, Stop};

pub fn play(desk: &Desk, out: &mut String, call: &str, rest: &str) -> Result<(), Stop> {
    let "read" = call else {
        return Err(Stop::NoCall);
    };
    let bytes = desk.bytes(rest)?;
    reply(out, read_packages(desk.alloc, &bytes))
}
