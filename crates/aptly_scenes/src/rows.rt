//! Lines of numbered texts, where those in a row with the same text are one line.
use crate::print::put;
use crate::trouble::Trouble;
use ap_text::write_decimal;
use std::alloc::AllocError;

/// A text, and the numbers in a row that it is the text of.
#[derive(Drop)]
pub(crate) struct Row {
    first: u64,
    last: u64,
    text: Vec<u8>,
}

/// Adds the line of a row.
fn put_row(out: &mut Vec<u8>, head: &str, row: &Row) -> Result<(), AllocError> {
    put(out, head)?;
    write_decimal(out, row.first)?;
    if row.first < row.last {
        put(out, "..")?;
        write_decimal(out, row.last)?;
    }
    put(out, ": ")?;
    out.extend_from_slice(&row.text)?;
    put(out, "\n")
}

/// One more text, which joins the row, or ends it and begins the next one.
pub(crate) fn add_row(
    out: &mut Vec<u8>,
    head: &str,
    row: Option<Row>,
    number: u64,
    text: Vec<u8>,
) -> Result<Option<Row>, AllocError> {
    if let Some(mut same) = row {
        if same.text.as_slice() == text.as_slice() {
            same.last = number;
            return Ok(Some(same));
        }
        put_row(out, head, &same)?;
    }
    Ok(Some(Row {
        first: number,
        last: number,
        text,
    }))
}

/// Adds the line of the last row, if there is one.
pub(crate) fn end_rows(out: &mut Vec<u8>, head: &str, row: Option<Row>) -> Result<(), Trouble> {
    match row {
        Some(last) => Ok(put_row(out, head, &last)?),
        None => Ok(()),
    }
}
