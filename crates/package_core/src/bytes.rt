//! The order of the texts of two stanzas, without making the texts.
ghost use Rattle.std.specs.Prelude.{◌≡◌, ◌++◌, ◌∷◌, [], List, MatchOption, IfSome, ◌<◌, ◌≤◌, ◌↔◌, IsTrue, length, take};
ghost use Rattle.std.specs.Ordering.{nat_cmp, ordering_then};
ghost use Rattle.std.specs.Cmp.Lexicographic.{slice_cmp};
ghost use Rattle.control_stanza.specs.Written.{gap, stanza_text};
ghost use Rattle.package_core.specs.Left.{left as text_left, behind, parts_behind};

use control_stanza::{Field, Stanza};
use std::cmp::Ordering;

/// The parts of a field's text.
#[derive(Clone, Copy)]
pub(crate) enum Part {
    Name,
    /// The colon, and a space where the value's first line isn't empty.
    Gap,
    Value,
    /// The line end.
    End,
}

/// What is left of the text of some fields: a part that has begun, and what follows it.
#[derive(Clone, Copy)]
pub(crate) struct Left<'a> {
    here: &'a [u8],
    part: Part,
    /// From the field on whose name or gap has begun; behind the field whose value or line end has.
    fields: &'a [Field],
}

fn gap_of(value: &[u8]) -> &'static [u8]
    ensures { result.now ≡ 58 ∷ gap value.now }
{
    match value.first() {
        Some(c) if *c != b'\n' => b": ",
        _ => b":",
    }
}

#[tactic(auto, unfolding(crate::specs::Left::left))]
fn whole(fields: &[Field]) -> Left<'_>
    ensures { text_left result ≡ stanza_text fields.now }
{
    Left {
        here: b"",
        part: Part::End,
        fields,
    }
}

/// The next part, where one is there.
#[tactic(auto, unfolding(crate::specs::Left::left, control_stanza::specs::Written::field_text), using(std::proofs::Common::append_assoc))]
fn next_part<'a>(part: Part, fields: &'a [Field]) -> Option<Left<'a>>
    ensures next { MatchOption result (behind part fields.now ≡ []) (λ next. text_left next ≡ behind part fields.now) }
    ensures fewer { IfSome result (λ next. parts_behind next.part (length next.fields.now) < parts_behind part (length fields.now)) }
{
    match part {
        Part::Name => {
            let (field, _) = fields.split_first()?;
            Some(Left {
                here: gap_of(field.value.as_str().as_bytes()),
                part: Part::Gap,
                fields,
            })
        }
        Part::Gap => {
            let (field, others) = fields.split_first()?;
            Some(Left {
                here: field.value.as_str().as_bytes(),
                part: Part::Value,
                fields: others,
            })
        }
        Part::Value => Some(Left {
            here: b"\n",
            part: Part::End,
            fields,
        }),
        Part::End => {
            let (field, _) = fields.split_first()?;
            Some(Left {
                here: field.name.as_str().as_bytes(),
                part: Part::Name,
                fields,
            })
        }
    }
}

/// What is left, from a part that has a byte on.
#[tactic(auto, unfolding(crate::specs::Left::left))]
fn at_next_piece(left: Left<'_>) -> Option<Left<'_>>
    ensures { MatchOption result (text_left left.entry ≡ []) (λ next. (text_left next ≡ text_left left.entry) × (0 < length next.here.now)) }
{
    let mut rest = left;
    while rest.here.is_empty() {
        rest = next_part(rest.part, rest.fields)?;
    }
    Some(rest)
}

/// The order of as many bytes as both parts have, and what is left behind them.
#[tactic(auto, unfolding(crate::specs::Left::left), using(std::proofs::Common::append_assoc))]
fn compare_pieces<'a, 'b>(a: Left<'a>, b: Left<'b>) -> (Ordering, Left<'a>, Left<'b>)
    requires { 0 < length b.here.now }
    ensures order { slice_cmp nat_cmp (text_left a.entry) (text_left b.entry) ≡ ordering_then result.0 (slice_cmp nat_cmp (text_left result.1) (text_left result.2)) }
    ensures fewer { 0 < length a.entry.here.now → length (text_left result.1) < length (text_left a.entry) }
{
    let count = a.here.len().min(b.here.len());
    let (front, here) = a.here.split_at(count);
    let (other_front, other_here) = b.here.split_at(count);
    let rest = Left {
        here,
        part: a.part,
        fields: a.fields,
    };
    let other_rest = Left {
        here: other_here,
        part: b.part,
        fields: b.fields,
    };
    (front.cmp(other_front), rest, other_rest)
}

fn compare_fields(a: &[Field], b: &[Field]) -> Ordering
    ensures { result ≡ slice_cmp nat_cmp (stanza_text a.now) (stanza_text b.now) }
{
    let mut one = whole(a);
    let mut other = whole(b);
    while let Some(piece) = at_next_piece(one) {
        let Some(other_piece) = at_next_piece(other) else {
            return Ordering::Greater;
        };
        let (order, rest, other_rest) = compare_pieces(piece, other_piece);
        if order.is_ne() {
            return order;
        }
        one = rest;
        other = other_rest;
    }
    if at_next_piece(other).is_some() {
        Ordering::Less
    } else {
        Ordering::Equal
    }
}

fn is_same_field(a: &Field, b: &Field) -> bool
    ensures { IsTrue result ↔ (a.now ≡ b.now) }
{
    a.name.is(&b.name) && a.value.is(&b.value)
}

/// How many fields from the front on the two have in common.
fn fields_in_common(a: &[Field], b: &[Field]) -> usize
    ensures inside { (result ≤ length a.now) × (result ≤ length b.now) }
    ensures same { take result a.now ≡ take result b.now }
{
    let mut count = 0;
    while count < a.len() && count < b.len() && is_same_field(&a[count], &b[count]) {
        count += 1;
    }
    count
}

/// The order of the texts of two stanzas, by bytes. It takes no memory, and makes no text: fields that are equal in both
/// are passed by, and behind them the parts of the fields are compared as they lie.
pub(crate) fn compare_stanzas(a: &Stanza, b: &Stanza) -> Ordering
    ensures { result ≡ slice_cmp nat_cmp (stanza_text a.now) (stanza_text b.now) }
{
    let a = a.fields();
    let b = b.fields();
    let count = fields_in_common(a, b);
    compare_fields(&a[count..], &b[count..])
}
