//! Calls of query_grammar.

use query_grammar::{Query, QueryFault, read_filter, read_query, write_query};
use row_answers::reply;
use row_table::{Desk, Stop, put_bytes};

pub fn play(desk: &Desk, out: &mut String, call: &str, rest: &str) -> Result<(), Stop> {
    let text = desk.text(rest)?;
    match call {
        "tree" => tree(desk, out, text.as_str()),
        "write" => write(out, read_query(desk.alloc, text.as_str())),
        "filter" => write(out, read_filter(desk.alloc, text.as_str())),
        _ => Err(Stop::NoCall),
    }
}

fn tree(desk: &Desk, out: &mut String, text: &str) -> Result<(), Stop> {
    match read_query(desk.alloc, text) {
        Ok(query) => {
            let copy = query.copy(desk.alloc);
            drop(query);
            reply(out, copy?)
        }
        Err(fault) => reply(out, fault),
    }
}

fn put_written(out: &mut String, query: &Query) -> Result<(), Stop> {
    let mut text = Vec::new(*out.allocator());
    write_query(&mut text, query)?;
    put_bytes(out, &text)
}

/// The text of a query that was read.
fn write(out: &mut String, read: Result<Query, QueryFault>) -> Result<(), Stop> {
    match read {
        Ok(query) => {
            let done = put_written(out, &query);
            drop(query);
            done
        }
        Err(fault) => reply(out, fault),
    }
}
