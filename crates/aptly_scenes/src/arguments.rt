//! The arguments of a directive: what stands behind the blank that follows its first word, if there is one.
use crate::trouble::Trouble;
use ap_host::Bytes;
use ap_text::SafePath;
use std::alloc::Global;

/// No argument stands there.
pub(crate) fn nothing(rest: Option<&str>) -> Result<(), Trouble> {
    match rest {
        None => Ok(()),
        Some(_) => Err(Trouble::Line),
    }
}

/// An argument isn't empty and has no blank.
pub(crate) fn word(text: &str) -> Result<&str, Trouble> {
    if text.is_empty() || text.contains(' ') {
        return Err(Trouble::Line);
    }
    Ok(text)
}

/// The one argument.
pub(crate) fn one(rest: Option<&str>) -> Result<&str, Trouble> {
    match rest {
        None => Err(Trouble::Line),
        Some(text) => word(text),
    }
}

/// The first argument of several, and what stands behind the blank that follows it.
fn first(rest: Option<&str>) -> Result<(&str, &str), Trouble> {
    let Some(text) = rest else {
        return Err(Trouble::Line);
    };
    match text.split_once(' ') {
        Some((head, more)) => Ok((word(head)?, more)),
        None => Err(Trouble::Line),
    }
}

/// The two arguments.
pub(crate) fn two(rest: Option<&str>) -> Result<(&str, &str), Trouble> {
    let (head, more) = first(rest)?;
    Ok((head, word(more)?))
}

/// The three arguments.
pub(crate) fn three(rest: Option<&str>) -> Result<(&str, &str, &str), Trouble> {
    let (head, more) = first(rest)?;
    let (next, last) = two(Some(more))?;
    Ok((head, next, last))
}

/// A path.
pub(crate) fn path(alloc: Global, text: &str) -> Result<SafePath, Trouble> {
    Ok(SafePath::new(alloc, text)?)
}

/// One or more digits, the first of several not a zero.
fn is_decimal(text: &str) -> bool {
    let digits = text.as_bytes();
    text == "0"
        || (!digits.is_empty()
            && !digits.starts_with(b"0")
            && digits.iter().all(|digit| digit.is_ascii_digit()))
}

/// A number below 2^64.
pub(crate) fn number(text: &str) -> Result<u64, Trouble> {
    if !is_decimal(text) {
        return Err(Trouble::Line);
    }
    text.parse::<u64>().map_err(|_| Trouble::Line)
}

/// A moment in seconds since 1970.
pub(crate) fn moment(text: &str) -> Result<i64, Trouble> {
    let digits = text.strip_prefix('-').unwrap_or(text);
    if !is_decimal(digits) || text == "-0" {
        return Err(Trouble::Line);
    }
    text.parse::<i64>().map_err(|_| Trouble::Line)
}

/// Numbers, one or more, that stand apart by single characters of this kind.
pub(crate) fn numbers(alloc: Global, text: &str, by: char) -> Result<Vec<u64>, Trouble> {
    let mut all = Vec::new(alloc);
    for piece in text.split(by) {
        all.push(number(piece)?)?;
    }
    Ok(all)
}

/// What pairs of lower-case hexadecimal digits spell.
fn spelled(alloc: Global, digits: &str) -> Result<Vec<u8>, Trouble> {
    if digits
        .as_bytes()
        .iter()
        .any(|digit| digit.is_ascii_uppercase())
    {
        return Err(Trouble::Line);
    }
    Ok(hex::decode(alloc, digits)?)
}

/// Bytes as pairs of lower-case hexadecimal digits, or `-` for none.
pub(crate) fn bytes_of(alloc: Global, text: &str) -> Result<Bytes, Trouble> {
    if text == "-" {
        return Ok(Bytes::empty(alloc));
    }
    let bytes = spelled(alloc, text)?;
    Ok(Bytes::new(alloc, bytes.as_slice())?)
}

/// A byte, as two hexadecimal digits, so many times.
pub(crate) fn filled(alloc: Global, count: &str, text: &str) -> Result<Bytes, Trouble> {
    let count = number(count)?;
    let spelled = spelled(alloc, text)?;
    let [byte] = spelled.as_slice() else {
        return Err(Trouble::Line);
    };
    let bytes = vec![in alloc; *byte; count as usize]?;
    Ok(Bytes::new(alloc, bytes.as_slice())?)
}
