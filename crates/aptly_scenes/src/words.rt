//! The words of a call.
use crate::trouble::Trouble;
use command_words::Words;
use std::alloc::Global;

/// More of a word within `'`: it ends at the next `'`, behind which nothing more may stand.
fn read_quoted(
    words: &mut Words,
    mut open: String,
    piece: &str,
) -> Result<Option<String>, Trouble> {
    match piece.split_once('\'') {
        None => {
            open.push_str(piece)?;
            Ok(Some(open))
        }
        Some((last, "")) => {
            open.push_str(last)?;
            words.push(open.as_str())?;
            Ok(None)
        }
        Some(_) => Err(Trouble::Line),
    }
}

/// What stands up to the next blank, or the line's end; `open` is what was read of a word within `'` that hasn't ended.
fn read(
    alloc: Global,
    words: &mut Words,
    open: Option<String>,
    piece: &str,
) -> Result<Option<String>, Trouble> {
    match (open, piece.strip_prefix('\'')) {
        (Some(mut open), _) => {
            open.push_str(" ")?;
            read_quoted(words, open, piece)
        }
        (None, Some(quoted)) => read_quoted(words, String::new(alloc), quoted),
        (None, None) if piece.is_empty() => Err(Trouble::Line),
        (None, None) => {
            words.push(piece)?;
            Ok(None)
        }
    }
}

/// The words of a text, behind those that were read before.
fn read_line(alloc: Global, words: &mut Words, text: &str) -> Result<(), Trouble> {
    let mut open = None;
    for piece in text.split(' ') {
        open = read(alloc, words, open, piece)?;
    }
    match open {
        None => Ok(()),
        Some(_) => Err(Trouble::Line),
    }
}

/// The words of a line, which stand apart by single blanks. One that begins with `'` ends at the next `'` and may have blanks.
pub(crate) fn words_of_line(alloc: Global, rest: Option<&str>) -> Result<Words, Trouble> {
    let mut words = Words::new(alloc);
    if let Some(text) = rest {
        read_line(alloc, &mut words, text)?;
    }
    Ok(words)
}

/// Adds a word as it is shown: within `'` where it is empty or has a blank.
fn show(shown: &mut String, word: &str) -> Result<(), Trouble> {
    let quote = if word.is_empty() || word.contains(' ') {
        "'"
    } else {
        ""
    };
    if !shown.is_empty() {
        shown.push_str(" ")?;
    }
    shown.push_str(quote)?;
    shown.push_str(word)?;
    shown.push_str(quote)?;
    Ok(())
}

/// The words of a block, one a line, behind those that were read before, and how they are shown.
fn read_block(words: &mut Words, shown: &mut String, block: &[u8]) -> Result<(), Trouble> {
    let Ok(text) = str::from_utf8(block) else {
        return Err(Trouble::Line);
    };
    if let Some(lines) = text.strip_suffix('\n') {
        for word in lines.split('\n') {
            words.push(word)?;
            show(shown, word)?;
        }
    }
    Ok(())
}

/// The words of a block, one a line, and how they are shown.
pub(crate) fn words_of_block(alloc: Global, block: &[u8]) -> Result<(Words, String), Trouble> {
    let mut words = Words::new(alloc);
    let mut shown = String::new(alloc);
    read_block(&mut words, &mut shown, block)?;
    Ok((words, shown))
}
