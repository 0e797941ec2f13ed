//! The lines of a publication that give one value each.
ghost use Rattle.std.specs.Prelude.{◌≡◌, ◌≢◌, ◌≤◌, ◌∷◌, ◌++◌, ◌==◌, not, ℕ, List, [], Option, IfOk, MatchOption, IsTrue, IsFalse, false};
ghost use Rattle.std.specs.List.{list_all, list_any};
ghost use Rattle.std.specs.Str.{IsUtf8};
ghost use Rattle.ap_text.specs.Decimals.{is_digit as digit};
ghost use Rattle.ap_text.specs.Names.{is_component as component};
ghost use Rattle.ap_text.specs.Paths.{segments};
ghost use Rattle.machine_state.specs.declared.limit.Kind.{Kind as KindOf};
ghost use Rattle.machine_state.specs.Publications.{is_published};
ghost use Rattle.machine_state.specs.Texts.{IsTitle, is_kept as kept, is_prefix as prefix};
ghost use Rattle.catalogue_lines.specs.Lines.{IsLine};
ghost use Rattle.catalogue_lines.specs.NameLines.{architectures_line as architectures_spelled};
ghost use Rattle.machine_state.specs.Words.{prefix_word, place_text, kind_word};
ghost use Rattle.catalogue_publications.specs.PublicationLines.{publication_line, kind_line as kind_spelled, serial_line as serial_spelled, sources_line as sources_spelled, source_text, source_line as source_spelled, numeral};
ghost use Rattle.catalogue_publications.specs.PublicationGrammar.{IsPrefix, IsPlace, ArePublished, IsSerial, IsSource, IsAny};
ghost use Rattle.catalogue_publications.specs.PublicationReading.{IsCount, has_form};
ghost use Rattle.catalogue_lines.specs.Reading.{NoLine, ReadsLine};

use ap_text::{Name, SafePath, is_component, read_decimal};
use catalogue_lines::{
    Listed, as_text, count_line, end_before, key_line, line_text_of, name_of_bytes, names_line,
    path_of_bytes,
};
use control_stanza::Text;
use machine_state::{Kind, Limit};
use std::alloc::{AllocError, Global};

/// The texts of a publication's Release.
#[derive(Drop)]
pub(crate) struct Titles {
    /// The field Origin.
    pub(crate) origin: Text,
    /// The field Label.
    pub(crate) label: Text,
    /// The field Suite.
    pub(crate) suite: Text,
    /// The field Codename.
    pub(crate) codename: Text,
}

/// What is published where.
#[derive(Drop)]
pub(crate) struct Head {
    /// The prefix, if there is one, and the distribution.
    pub(crate) place: (Option<SafePath>, Name),
    /// What its sources are.
    pub(crate) kind: Kind,
    /// The texts of its Release.
    pub(crate) titles: Titles,
}

/// What stands before the first such byte, and behind it.
fn cut_at(text: &[u8], byte: u8) -> Option<(&[u8], &[u8])>
    ensures { MatchOption result ((front : List ℕ) (back : List ℕ) → text.now ≡ front ++ byte ∷ back → ⊥) (λ p. (text.now ≡ p.0.now ++ byte ∷ p.1.now) × (list_any (λ b. b == byte) p.0.now ≡ false)) }
{
    let (front, rest) = text.split_at(end_before(text, byte));
    match rest.split_first() {
        None => None,
        Some((_, back)) => Some((front, back)),
    }
}

fn is_kept(segment: &[u8]) -> bool
    ensures { result ≡ kept segment.now }
{
    segment == b"dists".as_slice()
        || segment == b"pool".as_slice()
        || segment == b"endpoint".as_slice()
}

/// Whether no folder of the path is one that published files keep for themselves.
fn keeps_clear(path: &[u8]) -> bool
    ensures { result ≡ list_all (λ segment. not (kept segment)) (segments path.now) }
{
    path.split(|b| *b == b'/').all(|segment| !is_kept(segment))
}

/// A prefix that is written so: `.` is none.
fn prefix_of(alloc: Global, bytes: &[u8]) -> Result<Option<Option<SafePath>>, AllocError>
    ensures { IfOk result (λ found. MatchOption found ((p : Option (List ℕ)) → IsPrefix p → bytes.now ≡ prefix_word p → ⊥) (λ p. IsPrefix p × (bytes.now ≡ prefix_word p))) }
{
    if bytes == b".".as_slice() {
        return Ok(Some(None));
    }
    match path_of_bytes(alloc, bytes, 100)? {
        None => Ok(None),
        Some(path) => {
            if keeps_clear(bytes) {
                Ok(Some(Some(path)))
            } else {
                Ok(None)
            }
        }
    }
}

/// A prefix, a blank and a distribution.
fn place_of(alloc: Global, written: &[u8]) -> Result<Option<(Option<SafePath>, Name)>, AllocError>
    ensures { IfOk result (λ found. MatchOption found ((p : Option (List ℕ) × List ℕ) → IsPlace p → written.now ≡ place_text p → ⊥) (λ p. IsPlace p × (written.now ≡ place_text p))) }
{
    let Some((front, back)) = cut_at(written, b' ') else {
        return Ok(None);
    };
    let Some(prefix) = prefix_of(alloc, front)? else {
        return Ok(None);
    };
    match name_of_bytes(alloc, back)? {
        None => Ok(None),
        Some(dist) => Ok(Some((prefix, dist))),
    }
}

/// A line with the place of a publication, and the text that the place is written as.
pub(crate) fn place_line<'a>(
    alloc: Global,
    text: &'a [u8],
) -> Result<Option<((Option<SafePath>, Name), &'a [u8], &'a [u8])>, AllocError>
    ensures { IfOk result (λ found. MatchOption found (NoLine publication_line IsPlace text.now) (λ t. ReadsLine publication_line IsPlace text.now t.0 t.2.now × (t.1.now ≡ place_text t.0))) }
{
    match key_line(text, "publication ") {
        None => Ok(None),
        Some((written, rest)) => match place_of(alloc, written)? {
            None => Ok(None),
            Some(place) => Ok(Some((place, written, rest))),
        },
    }
}

fn kind_of(written: &[u8]) -> Option<Kind>
    ensures { MatchOption result ((k : KindOf) → IsTrue (is_published k) → written.now ≡ kind_word k → ⊥) (λ k. IsTrue (is_published k) × (written.now ≡ kind_word k)) }
{
    if written == b"repo".as_slice() {
        Some(Kind::Repo)
    } else if written == b"snapshot".as_slice() {
        Some(Kind::Snapshot)
    } else {
        None
    }
}

/// A line with what the sources of a publication are.
pub(crate) fn kind_line(text: &[u8]) -> Option<(Kind, &[u8])>
    ensures { MatchOption result (NoLine kind_spelled (λ k. IsTrue (is_published k)) text.now) (λ p. ReadsLine kind_spelled (λ k. IsTrue (is_published k)) text.now p.0 p.1.now) }
{
    match key_line(text, "kind ") {
        None => None,
        Some((written, rest)) => match kind_of(written) {
            None => None,
            Some(kind) => Some((kind, rest)),
        },
    }
}

/// The bytes as a text of a Release: the default, or a line of text that isn't empty.
fn title_of(alloc: Global, written: &[u8], default: &[u8]) -> Result<Option<Text>, AllocError>
    requires { IsUtf8 default.now }
    ensures { IfOk result (λ found. MatchOption found (IsTitle default.now written.now → ⊥) (λ t. (t ≡ written.now) × IsTitle default.now written.now)) }
{
    if written == default {
        return match as_text(written) {
            None => Ok(None),
            Some(text) => Ok(Some(Text::new(alloc, text)?)),
        };
    }
    if written.is_empty() {
        return Ok(None);
    }
    line_text_of(alloc, written)
}

/// A line of a key and a text of a Release.
pub(crate) fn title_line<'a>(
    alloc: Global,
    text: &'a [u8],
    key: &str,
    default: &[u8],
) -> Result<Option<(Text, &'a [u8])>, AllocError>
    requires { IsUtf8 default.now }
    ensures { IfOk result (λ found. MatchOption found (NoLine (λ t. key.now ++ t) (IsTitle default.now) text.now) (λ p. ReadsLine (λ t. key.now ++ t) (IsTitle default.now) text.now p.0 p.1.now)) }
{
    match key_line(text, key) {
        None => Ok(None),
        Some((written, rest)) => match title_of(alloc, written, default)? {
            None => Ok(None),
            Some(title) => Ok(Some((title, rest))),
        },
    }
}

/// A line with the architectures of a publication.
pub(crate) fn architectures_line(
    alloc: Global,
    text: &[u8],
) -> Result<Option<(Vec<Name>, &[u8])>, AllocError>
    ensures { IfOk result (λ found. MatchOption found (NoLine architectures_spelled ArePublished text.now) (λ p. ReadsLine architectures_spelled ArePublished text.now p.0.items p.1.now)) }
{
    match names_line(alloc, text, "architectures", Listed::Architectures)? {
        None => Ok(None),
        Some((names, rest)) => {
            if names.as_slice().is_empty() {
                Ok(None)
            } else {
                Ok(Some((names, rest)))
            }
        }
    }
}

/// A line with how often it was published.
pub(crate) fn serial_line(text: &[u8]) -> Option<(u32, &[u8])>
    ensures { MatchOption result (NoLine serial_spelled IsSerial text.now) (λ p. ReadsLine serial_spelled IsSerial text.now p.0 p.1.now) }
{
    match count_line(text, "serial ", Limit::Serial.number()) {
        None => None,
        Some((serial, rest)) => {
            if serial == 0 {
                None
            } else {
                Some((serial as u32, rest))
            }
        }
    }
}

fn is_digit(b: u8) -> bool
    ensures { result ≡ digit b }
{
    b >= b'0' && b <= b'9'
}

fn are_digits(bytes: &[u8]) -> bool
    ensures { result ≡ list_all digit bytes.now }
{
    bytes.iter().all(|b| is_digit(*b))
}

/// Whether the bytes are digits as a number is written, however great it is.
fn is_numeral(bytes: &[u8]) -> bool
    ensures { result ≡ has_form bytes.now }
{
    match bytes.split_first() {
        None => false,
        Some((first, rest)) => {
            is_digit(*first) && are_digits(rest) && (*first != b'0' || rest.is_empty())
        }
    }
}

/// The number that the bytes write; the inner `None` where it is 2^64 or greater.
fn number_of(bytes: &[u8]) -> Option<Option<u64>>
    ensures { MatchOption result ((n : ℕ) → bytes.now ≡ numeral n → ⊥) (λ k. (n : ℕ) × (bytes.now ≡ numeral n) × IsCount n k) }
{
    if !is_numeral(bytes) {
        return None;
    }
    match as_text(bytes) {
        None => None,
        Some(digits) => Some(read_decimal(digits)),
    }
}

/// A line with how many sources a publication has; the inner `None` where these are 2^64 or more.
pub(crate) fn sources_line(text: &[u8]) -> Option<(Option<u64>, &[u8])>
    ensures { MatchOption result (NoLine sources_spelled IsAny text.now) (λ p. (n : ℕ) × IsLine text.now (sources_spelled n) p.1.now × IsCount n p.0) }
{
    match key_line(text, "sources ") {
        None => None,
        Some((written, rest)) => match number_of(written) {
            None => None,
            Some(count) => Some((count, rest)),
        },
    }
}

/// A component, a blank and a name.
fn source_of(alloc: Global, written: &[u8]) -> Result<Option<(Name, Name)>, AllocError>
    ensures { IfOk result (λ found. MatchOption found ((s : List ℕ × List ℕ) → IsSource s → written.now ≡ source_text s → ⊥) (λ s. IsSource s × (written.now ≡ source_text s))) }
{
    let Some((front, back)) = cut_at(written, b' ') else {
        return Ok(None);
    };
    let Some(component) = component_of(alloc, front)? else {
        return Ok(None);
    };
    match name_of_bytes(alloc, back)? {
        None => Ok(None),
        Some(name) => Ok(Some((component, name))),
    }
}

fn component_of(alloc: Global, bytes: &[u8]) -> Result<Option<Name>, AllocError>
    ensures { IfOk result (λ found. MatchOption found (IsFalse (component bytes.now)) (λ n. (n ≡ bytes.now) × IsTrue (component n))) }
{
    match name_of_bytes(alloc, bytes)? {
        None => Ok(None),
        Some(name) => {
            if is_component(name.as_str()) {
                Ok(Some(name))
            } else {
                Ok(None)
            }
        }
    }
}

/// A line with a source of a publication.
pub(crate) fn source_line(
    alloc: Global,
    text: &[u8],
) -> Result<Option<((Name, Name), &[u8])>, AllocError>
    ensures { IfOk result (λ found. MatchOption found (NoLine source_spelled IsSource text.now) (λ p. ReadsLine source_spelled IsSource text.now p.0 p.1.now)) }
{
    match key_line(text, "source ") {
        None => Ok(None),
        Some((written, rest)) => match source_of(alloc, written)? {
            None => Ok(None),
            Some(source) => Ok(Some((source, rest))),
        },
    }
}
