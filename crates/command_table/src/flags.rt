//! Flags: the words after the verb that begin with a dash, and what they say.
ghost use Rattle.std.specs.Prelude.{◌≡◌, ◌+◌, ◌<◌, ◌≤◌, true, false, IfOk, ◌==◌, length, take, option_map, codes, not};
ghost use Rattle.std.specs.List.{find, list_all, list_any, prefix_len};
ghost use Rattle.std.specs.Option.{option_copied};
ghost use Rattle.std.specs.Set.{distinct_count};
ghost use Rattle.std.specs.Str.{bytes_eq};
ghost use Rattle.command_table.specs.Table.{rule};
ghost use Rattle.command_table.specs.Flags.{is_flag, strip_dash, undashed, flag_name, flag_value, value_in, parts, is_text_list, has_form, form_of, has_known_form, has_name, switch_value, sets, excludes, flag_stands, IsLongestStanding, switch_of, text_of, texts_of};

use crate::table::{Flag, Form, Row};
use control_stanza::Text;
use std::alloc::{AllocError, Global};
use std::collections::HashSet;

/// Whether a word is a flag: a dash and more. The mark `--` is none.
pub fn is_flag(word: &str) -> bool
    ensures { result ≡ is_flag word.now }
{
    let bytes = word.as_bytes();
    bytes.len() >= 2 && bytes[0] == b'-' && word != "--"
}

/// How many flags the words begin with.
pub fn flags_len(words: &[Text]) -> usize
    ensures count { result ≡ prefix_len is_flag words.now }
    ensures bound { result ≤ length words.now }
{
    words
        .iter()
        .take_while(|word| is_flag(word.as_str()))
        .count()
}

fn strip_dash(word: &str) -> &str
    ensures { result.now ≡ strip_dash word.now }
{
    match word.strip_prefix('-') {
        Some(rest) => rest,
        None => word,
    }
}

fn undashed(word: &str) -> &str
    ensures { result.now ≡ undashed word.now }
{
    strip_dash(strip_dash(word))
}

/// The name of a flag, without its dashes and its value.
fn flag_name(word: &str) -> &str
    ensures { result.now ≡ flag_name word.now }
{
    let text = undashed(word);
    match text.split_once('=') {
        Some((name, _)) => name,
        None => text,
    }
}

/// What stands after the `=` of a flag.
fn flag_value(word: &str) -> Option<&str>
    ensures { option_copied result ≡ flag_value word.now }
{
    match undashed(word).split_once('=') {
        Some((_, value)) => Some(value),
        None => None,
    }
}

/// The texts of a list, which commas part.
pub fn parts(alloc: Global, value: &str) -> Result<Vec<Text>, AllocError>
    ensures { IfOk result (λ v. v.items ≡ parts value.now) }
{
    let mut texts = Vec::new(alloc);
    for part in value.split(',') {
        texts.push(Text::new(alloc, part)?)?;
    }
    Ok(texts)
}

/// Whether no two texts are the same.
fn are_different(alloc: Global, texts: &[Text]) -> Result<bool, AllocError>
    ensures { IfOk result (λ r. r ≡ (distinct_count bytes_eq texts.now == length texts.now)) }
{
    let seen: HashSet<&str> = texts.iter().map(|text| text.as_str()).collect(alloc)?;
    Ok(seen.len() == texts.len())
}

/// Whether none of the texts is empty.
fn are_written(texts: &[Text]) -> bool
    ensures { result ≡ list_all (λ t. not (length t == 0)) texts.now }
{
    texts.iter().all(|text| text.as_str().len() != 0)
}

/// Whether the value is a list of one or more texts, none of them empty and none twice.
fn is_text_list(alloc: Global, value: &str) -> Result<bool, AllocError>
    ensures { IfOk result (λ r. r ≡ is_text_list (parts value.now)) }
{
    let texts = parts(alloc, value)?;
    let different = are_different(alloc, texts.as_slice())?;
    Ok(are_written(texts.as_slice()) && different)
}

/// Whether a flag of this form may have this value.
fn has_form(alloc: Global, form: Form, value: Option<&str>) -> Result<bool, AllocError>
    ensures { IfOk result (λ r. r ≡ has_form form (option_copied value.entry)) }
{
    match (form, value) {
        (Form::Switch, None) => Ok(true),
        (Form::Switch, Some(value)) => Ok(value == "true" || value == "false"),
        (Form::Text, value) => Ok(value.is_some()),
        (Form::Texts, None) => Ok(false),
        (Form::Texts, Some(value)) => is_text_list(alloc, value),
    }
}

fn find_flag<'a>(flags: &'a [Flag], name: &str) -> Option<&'a Flag>
    ensures { option_copied result ≡ find (λ f. bytes_eq f.name.now name.now) flags.now }
{
    flags.iter().find(|flag| flag.name == name)
}

/// The form of the row's flag with this name.
fn form_of(row: &Row, name: &str) -> Option<Form>
    ensures { result ≡ form_of (rule row.now).flags name.now }
{
    match find_flag(row.flags, name) {
        Some(flag) => Some(flag.form),
        None => None,
    }
}

fn has_name(word: &str, name: &str) -> bool
    ensures { result ≡ has_name name.now word.now }
{
    flag_name(word) == name
}

fn switch_value(value: Option<&str>) -> bool
    ensures { result ≡ switch_value (option_copied value.entry) }
{
    match value {
        None => true,
        Some(value) => value == "true",
    }
}

/// Whether the flag sets the switch of this name true.
fn sets(word: &str, name: &str) -> bool
    ensures { result ≡ sets name.now word.now }
{
    has_name(word, name) && switch_value(flag_value(word))
}

/// Whether one of the flags sets the switch of this name true.
fn is_set(flags: &[Text], name: &str) -> bool
    ensures { result ≡ list_any (sets name.now) flags.now }
{
    flags.iter().any(|flag| sets(flag.as_str(), name))
}

/// Whether the flag is the later one of `-latest` and `-no-remove` both set true.
fn excludes(before: &[Text], word: &str) -> bool
    ensures { result ≡ excludes before.now word.now }
{
    (sets(word, "latest") && is_set(before, "no-remove"))
        || (sets(word, "no-remove") && is_set(before, "latest"))
}

fn is_repeated(before: &[Text], name: &str) -> bool
    ensures { result ≡ list_any (has_name name.now) before.now }
{
    before.iter().any(|flag| has_name(flag.as_str(), name))
}

/// Whether the flag is one of the command's, in its form.
fn is_known(alloc: Global, row: &Row, word: &str) -> Result<bool, AllocError>
    ensures { IfOk result (λ r.
        r ≡ has_known_form (form_of (rule row.now).flags (flag_name word.now)) (flag_value word.now)) }
{
    match form_of(row, flag_name(word)) {
        None => Ok(false),
        Some(form) => has_form(alloc, form, flag_value(word)),
    }
}

/// Whether the flag can stand after these.
#[tactic(auto, unfolding(crate::specs::Flags::flag_stands))]
fn flag_stands(alloc: Global, row: &Row, before: &[Text], word: &str) -> Result<bool, AllocError>
    ensures { IfOk result (λ r. r ≡ flag_stands (rule row.now).flags before.now word.now) }
{
    let known = is_known(alloc, row, word)?;
    Ok(known && !is_repeated(before, flag_name(word)) && !excludes(before, word))
}

/// How many flags from the front on can stand, each after those before it.
pub fn standing_flags(alloc: Global, row: &Row, flags: &[Text]) -> Result<usize, AllocError>
    ensures { IfOk result (λ n. IsLongestStanding (rule row.now).flags flags.now n) }
{
    for (i, word) in flags.iter().enumerate() {
        if !flag_stands(alloc, row, &flags[..i], word.as_str())? {
            return Ok(i);
        }
    }
    Ok(flags.len())
}

fn find_written<'a>(flags: &'a [Text], name: &str) -> Option<&'a Text>
    ensures { option_copied result ≡ find (has_name name.now) flags.now }
{
    flags.iter().find(|flag| has_name(flag.as_str(), name))
}

/// What the switch of this name says, where it is written.
pub fn switch_of(flags: &[Text], name: &str) -> Option<bool>
    ensures { result ≡ switch_of name.now flags.now }
{
    match find_written(flags, name) {
        Some(flag) => Some(switch_value(flag_value(flag.as_str()))),
        None => None,
    }
}

fn value_of<'a>(flags: &'a [Text], name: &str) -> Option<&'a str>
    ensures { option_copied result ≡ text_of name.now flags.now }
{
    match find_written(flags, name) {
        Some(flag) => flag_value(flag.as_str()),
        None => None,
    }
}

/// The text of the flag of this name, where it is written.
pub fn text_of(alloc: Global, flags: &[Text], name: &str) -> Result<Option<Text>, AllocError>
    ensures { IfOk result (λ text. text ≡ text_of name.now flags.now) }
{
    match value_of(flags, name) {
        Some(value) => Ok(Some(Text::new(alloc, value)?)),
        None => Ok(None),
    }
}

/// The texts of the flag of this name, where it is written.
pub fn texts_of(alloc: Global, flags: &[Text], name: &str) -> Result<Option<Vec<Text>>, AllocError>
    ensures { IfOk result (λ texts. option_map (λ v. v.items) texts ≡ texts_of name.now flags.now) }
{
    match value_of(flags, name) {
        Some(value) => Ok(Some(parts(alloc, value)?)),
        None => Ok(None),
    }
}
