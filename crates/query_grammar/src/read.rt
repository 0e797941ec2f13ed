//! Reading queries.

ghost use Rattle.std.specs.Prelude.{◌≡◌, ◌+◌, ◌<◌, ◌≤◌, length, take, drop, IfOk, IfErr};
ghost use Rattle.std.specs.Str.{IsUtf8};
ghost use Rattle.query_tree.specs.Pieces.{cut_of, quoted_value, IfQuoted};
ghost use Rattle.query_tree.specs.Tree.{Tree, plain};
ghost use Rattle.query_tree.specs.Grammar.{QueryText};
ghost use Rattle.query_grammar.specs.Answers.{IsTree, IsFilterFault, IsQueryFault};
ghost use Rattle.query_grammar.specs.Reading.{reading};
ghost use Rattle.query_grammar.specs.Said.{filter_of, query_of, Says};
ghost use Rattle.query_grammar.specs.Views.{Reads};

use crate::fault::{QueryFault, QueryKind};
use crate::reader::Reader;
use query_tree::{Cut, Place, Query, Shape, first_cut, next_place};
use std::alloc::Global;

/// The first piece of a text that isn't empty.
fn cut_at(place: Place, text: &str) -> Cut
    requires { 0 < length text.now }
    ensures { result ≡ cut_of place text.now }
{
    match text.as_bytes() {
        [] => unreachable!(),
        [first, behind @ ..] => first_cut(place, *first, behind),
    }
}

/// The first piece of a text: what it is, its text, and the text behind it.
fn split_piece(place: Place, text: &str) -> (Shape, &str, &str)
    requires { 0 < length text.now }
    ensures shape { result.0 ≡ (cut_of place text.now).shape }
    ensures piece { result.1.now ≡ take (cut_of place text.now).size text.now }
    ensures behind { result.2.now ≡ drop (cut_of place text.now).size text.now }
    ensures joined { length result.1.now + length result.2.now ≡ length text.now }
    ensures some { length result.2.now < length text.now }
    ensures quoted { IfQuoted result.0 (IsUtf8 (quoted_value result.1.now)) }
{
    let cut = cut_at(place, text);
    (cut.shape, &text[..cut.size], &text[cut.size..])
}

/// Reads a query of any length.
fn read_pieces(alloc: Global, text: &str) -> Result<Query, QueryFault>
    ensures { Reads result (reading text.now) }
{
    let mut reader = Reader::new(alloc);
    let mut rest = text;
    let mut at = 0;
    let mut place = Place::Outside;
    while !rest.is_empty() {
        let (shape, piece, behind) = split_piece(place, rest);
        reader = reader.step(alloc, at, shape, piece)?;
        at += piece.len() as u64;
        place = next_place(place, shape);
        rest = behind;
    }
    reader.finish(alloc, at)
}

/// Reads a query of any length, as a stored filter may have.
///
/// The answer is the tree that the text spells in at most 64 levels. There is none exactly where the fault is `At`,
/// which is never `TooLong`; its kind is the first that fits its place.
pub fn read_filter(alloc: Global, text: &str) -> Result<Query, QueryFault>
    // What is read is spelled so.
    ensures found { IfOk result (λ query. QueryText 64 text.now (plain query)) }
    // What is spelled so is read, unless memory runs out.
    ensures only { (t : Tree) → QueryText 64 text.now t → IsTree t result }
    // Which fault it is.
    ensures fault { IfErr result (IsFilterFault text.now) }
    // The same, as a function of the text.
    ensures value { Says (filter_of text.now) result }
{
    read_pieces(alloc, text)
}

/// Reads a query of at most 4,096 bytes (aptly manual, package query syntax).
///
/// The answer is the tree that the text spells in at most 64 levels. There is none exactly where the fault is `At`;
/// for a text of more than 4,096 bytes the place is 4,096 and the kind `TooLong`.
pub fn read_query(alloc: Global, text: &str) -> Result<Query, QueryFault>
    // What is read is spelled so.
    ensures found { IfOk result (λ query. QueryText 64 text.now (plain query) × (length text.now ≤ 4096)) }
    // What is spelled so is read, unless memory runs out.
    ensures only { (t : Tree) → QueryText 64 text.now t → length text.now ≤ 4096 → IsTree t result }
    // Which fault it is.
    ensures fault { IfErr result (IsQueryFault text.now) }
    // The same, as a function of the text.
    ensures value { Says (query_of text.now) result }
{
    if text.len() > 4096 {
        return Err(QueryFault::At {
            place: 4096,
            kind: QueryKind::TooLong,
        });
    }
    read_filter(alloc, text)
}
