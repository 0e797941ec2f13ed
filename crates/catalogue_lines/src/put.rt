//! Lines that are put behind what is there. Each fails only for want of memory.
ghost use Rattle.std.specs.Prelude.{◌≡◌, ◌++◌, OnOk, string_bytes};
ghost use Rattle.std.specs.Fmt.{decimal};
ghost use Rattle.machine_state.specs.Words.{blank_and, names_behind};
ghost use Rattle.catalogue_lines.specs.Pieces.{alone, piece_text};

use ap_text::Name;
use machine_state::{put_blank_and, put_names_behind};
use std::alloc::AllocError;
use std::fmt::Write;

/// A line of a key and a text.
pub fn put_line(out: &mut String, key: &str, text: &str) -> Result<(), AllocError>
    ensures { OnOk result (string_bytes out.new ≡ string_bytes out.old ++ piece_text (alone (key.now ++ text.now))) }
{
    out.push_str(key)?;
    out.push_str(text)?;
    out.push_str("\n")?;
    Ok(())
}

/// A line of a key, and of a blank and the text where there is a text.
pub fn put_setting(out: &mut String, key: &str, text: &str) -> Result<(), AllocError>
    ensures { OnOk result (string_bytes out.new ≡ string_bytes out.old ++ piece_text (alone (key.now ++ blank_and text.now))) }
{
    out.push_str(key)?;
    put_blank_and(out, text)?;
    out.push_str("\n")?;
    Ok(())
}

/// A line of a key and a number.
pub fn put_number(out: &mut String, key: &str, number: u64) -> Result<(), AllocError>
    ensures { OnOk result (string_bytes out.new ≡ string_bytes out.old ++ piece_text (alone (key.now ++ decimal number))) }
{
    out.push_str(key)?;
    write!(out, "{number}")?;
    out.push_str("\n")?;
    Ok(())
}

/// A line of a key and a count.
pub fn put_count(out: &mut String, key: &str, count: usize) -> Result<(), AllocError>
    ensures { OnOk result (string_bytes out.new ≡ string_bytes out.old ++ piece_text (alone (key.now ++ decimal count))) }
{
    put_number(out, key, count as u64)
}

/// This very line.
pub fn put_fixed(out: &mut String, text: &str) -> Result<(), AllocError>
    ensures { OnOk result (string_bytes out.new ≡ string_bytes out.old ++ piece_text (alone text.now)) }
{
    out.push_str(text)?;
    out.push_str("\n")?;
    Ok(())
}

/// A line of a key, and of a blank before each of the names.
pub fn put_names(out: &mut String, key: &str, names: &[Name]) -> Result<(), AllocError>
    ensures { OnOk result (string_bytes out.new ≡ string_bytes out.old ++ piece_text (alone (key.now ++ names_behind names.now))) }
{
    out.push_str(key)?;
    put_names_behind(out, names)?;
    out.push_str("\n")?;
    Ok(())
}
