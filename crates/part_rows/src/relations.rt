//! Calls of depends_field.

use depends_field::{read_depends, read_provides};
use row_answers::reply;
use row_table::{Desk, Stop};

pub fn play(desk: &Desk, out: &mut String, call: &str, rest: &str) -> Result<(), Stop> {
    let text = desk.text(rest)?;
    match call {
        "depends" => reply(out, read_depends(desk.alloc, text.as_str())),
        "provides" => reply(out, read_provides(desk.alloc, text.as_str())),
        _ => Err(Stop::NoCall),
    }
}
