//! One line of a control text.
ghost use Rattle.std.specs.Prelude.{◌≡◌, ◌∷◌, ◌+◌, ◌-◌, [], MatchResult, MatchOption, Ok, Err, ◌≤◌, ◌<◌, ◌==◌, IsTrue, length, take, drop, false, slice_index, IfOk};
ghost use Rattle.std.specs.Str.{IsCharBoundary};
ghost use Rattle.control_stanza.specs.Lines.{lines_of, bare, is_blank as blank_byte, trim_start, trim_end, before_colon, from_colon, is_name_byte as name_byte, is_first_byte, is_field_name as field_name, starts_blank, shape_of, line_of};
ghost use Rattle.std.specs.List.{list_all, list_any};
ghost use Rattle.control_stanza.specs.Answers.{view};

use crate::fault::StanzaKind;
use std::str;

/// What a line is, by itself.
#[derive(Clone, Copy)]
pub(crate) enum Line<'a> {
    /// A separator.
    Blank,
    /// A further line of a value.
    More(&'a str),
    /// A field's name and the first line of its value.
    Start(&'a str, &'a str),
}

#[tactic(auto, unfolding(crate::specs::Lines::is_blank))]
fn is_blank(c: u8) -> bool
    ensures { result ≡ blank_byte c }
{
    c == b' ' || c == b'\t'
}

/// How many blanks stand in front.
fn blanks_in_front(text: &[u8]) -> usize
    ensures inside { result ≤ length text.now }
    ensures rest { drop result text.now ≡ trim_start text.now }
    ensures last { 0 < result → slice_index text.now (result - 1) < 128 }
{
    for (n, c) in text.iter().enumerate() {
        if !is_blank(*c) {
            return n;
        }
    }
    text.len()
}

fn without_blanks_in_front(text: &str) -> &str
    ensures { result.now ≡ trim_start text.now }
{
    let n = blanks_in_front(text.as_bytes());
    &text[n..]
}

/// The length without the blanks at the end.
fn length_without_blanks(text: &[u8]) -> usize
    ensures inside { result ≤ length text.now }
    ensures front { take result text.now ≡ trim_end text.now }
    ensures first { result < length text.now → slice_index text.now result < 128 }
{
    let mut n = text.len();
    while n > 0 && is_blank(text[n - 1]) {
        n -= 1;
    }
    n
}

fn without_blanks_at_end(text: &str) -> &str
    ensures { result.now ≡ trim_end text.now }
{
    let n = length_without_blanks(text.as_bytes());
    &text[..n]
}

fn all_blank(line: &[u8]) -> bool
    ensures { result ≡ list_all blank_byte line.now }
{
    for c in line {
        if !is_blank(*c) {
            return false;
        }
    }
    true
}

#[tactic(auto, unfolding(crate::specs::Lines::is_name_byte))]
fn is_name_byte(c: u8) -> bool
    ensures { result ≡ name_byte c }
{
    c >= 33 && c < 127 && c != b':'
}

fn all_name_bytes(text: &[u8]) -> bool
    ensures { result ≡ list_all name_byte text.now }
{
    for c in text {
        if !is_name_byte(*c) {
            return false;
        }
    }
    true
}

#[tactic(auto, unfolding(crate::specs::Lines::is_field_name, crate::specs::Lines::is_first_byte))]
fn is_field_name(text: &[u8]) -> bool
    ensures { result ≡ field_name text.now }
{
    match text.split_first() {
        None => false,
        Some((c, _)) => *c != b'#' && *c != b'-' && all_name_bytes(text),
    }
}

fn begins_blank(line: &[u8]) -> bool
    ensures { result ≡ starts_blank line.now }
{
    match line.split_first() {
        None => false,
        Some((c, _)) => is_blank(*c),
    }
}

/// What stands before the first colon, and behind it.
fn split_at_colon(line: &str) -> Option<(&str, &str)>
    ensures { MatchOption result (from_colon line.now ≡ []) (λ p. (p.0.now ≡ before_colon line.now) × (from_colon line.now ≡ 58 ∷ p.1.now)) }
{
    line.split_once(':')
}

#[tactic(auto, unfolding(crate::specs::Lines::shape_of))]
fn shape(line: &str) -> Result<Line<'_>, StanzaKind>
    ensures { MatchResult result (λ l. shape_of line.now ≡ Ok (view l)) (λ k. shape_of line.now ≡ Err k) }
{
    if all_blank(line.as_bytes()) {
        return Ok(Line::Blank);
    }
    if begins_blank(line.as_bytes()) {
        return Ok(Line::More(without_blanks_at_end(line)));
    }
    match split_at_colon(line) {
        None => Err(StanzaKind::NoColon),
        Some((name, value)) => {
            if !is_field_name(name.as_bytes()) {
                return Err(StanzaKind::BadFieldName);
            }
            Ok(Line::Start(name, without_blanks_at_end(without_blanks_in_front(value))))
        }
    }
}

/// What a line without its line end is, or the first kind of fault that it shows by itself.
#[tactic(auto, unfolding(crate::specs::Lines::line_of))]
pub(crate) fn classify(line: &[u8]) -> Result<Line<'_>, StanzaKind>
    ensures { MatchResult result (λ l. line_of line.now ≡ Ok (view l)) (λ k. line_of line.now ≡ Err k) }
{
    if line.contains(&b'\r') {
        return Err(StanzaKind::CarriageReturn);
    }
    match str::from_utf8(line) {
        Err(_) => Err(StanzaKind::NotUtf8),
        Ok(text) => shape(text),
    }
}

/// A line with and without its line end, and the text behind it.
#[derive(Clone, Copy)]
pub(crate) struct Cut<'a> {
    pub(crate) whole: &'a [u8],
    pub(crate) bare: &'a [u8],
    pub(crate) rest: &'a [u8],
}

/// The first line of a text, if it has one.
pub(crate) fn first_line(text: &[u8]) -> Option<Cut<'_>>
    ensures { MatchOption result (text.now ≡ []) (λ c. (lines_of text.now ≡ c.whole.now ∷ lines_of c.rest.now) × (bare c.whole.now ≡ c.bare.now) × (length c.whole.now + length c.rest.now ≡ length text.now) × (0 < length c.whole.now)) }
{
    if text.is_empty() {
        return None;
    }
    let end = line_end(text);
    let (bare, rest) = text.split_at(end);
    match rest.split_first() {
        None => Some(Cut {
            whole: text,
            bare,
            rest,
        }),
        Some((_, more)) => Some(Cut {
            whole: &text[..end + 1],
            bare,
            rest: more,
        }),
    }
}

/// The place of the first line end, or the length.
fn line_end(text: &[u8]) -> usize
    ensures inside { result ≤ length text.now }
    ensures front { list_any (λ c. c == 10) (take result text.now) ≡ false }
    ensures at { result < length text.now → slice_index text.now result ≡ 10 }
{
    for (n, c) in text.iter().enumerate() {
        if *c == b'\n' {
            return n;
        }
    }
    text.len()
}
