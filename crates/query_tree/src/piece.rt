//! How the text of a query is cut into pieces.

ghost use Rattle.std.specs.Prelude.{◌≡◌, ◌≤◌, ◌+◌, length, false, IfSome};
ghost use Rattle.std.specs.List.{prefix_len};
ghost use Rattle.query_tree.specs.Pieces.{is_blank as blank, is_word as word_character, is_control as control, closing as closing_quote, plain_cut as plain_cut_of, inner_cut as inner_cut_of, opening_cut as opening_cut_of, first_cut as first_cut_of, after_less as cut_after_less, after_greater as cut_after_greater, next_place as place_behind};

use crate::query::Test;

/// Where in a query a piece stands, as far as it decides how the text goes on.
#[derive(Clone, Copy)]
pub enum Place {
    /// Outside the parentheses of a term.
    Outside,
    /// The same, behind a run of word characters, where a `(` begins the parentheses of a term.
    BehindWord,
    /// In a term's parentheses, before the first character there that isn't blank.
    Opening,
    /// Further on in a term's parentheses.
    Inside,
}

/// What a piece is.
#[derive(Clone, Copy)]
pub enum Shape {
    /// A run of blanks.
    Blank,
    /// A run of word characters.
    Word,
    /// An operator or a test of its own, at the front of a term's parentheses.
    Operator(Test),
    /// A `<` or `>` there that begins no operator.
    Lone,
    /// A quoted value in a term's parentheses.
    Quoted,
    /// A quoted value there that isn't closed or has a control character in it, to the end of the text.
    Broken,
    /// Any other single character.
    Mark(u8),
}

/// The first piece of a text: what it is, and of how many bytes.
#[derive(Clone, Copy)]
pub struct Cut {
    pub shape: Shape,
    pub size: usize,
}

/// Space and tab.
fn is_blank(c: u8) -> bool
    ensures { result ≡ blank c }
{
    c == b' ' || c == b'\t'
}

/// All from U+0021 on but U+007F and `( ) { } , | ! ' "`; the bytes of longer characters are among them.
#[tactic(auto, unfolding(crate::specs::Pieces::is_word))]
pub fn is_word(c: u8) -> bool
    ensures { result ≡ word_character c }
{
    let is_special = matches!(
        c,
        b'(' | b')' | b'{' | b'}' | b',' | b'|' | b'!' | b'\'' | b'"'
    );
    c >= 0x21 && c != 0x7f && !is_special
}

#[tactic(auto, unfolding(crate::specs::Pieces::is_control))]
fn is_control(c: u8) -> bool
    ensures { result ≡ control c }
{
    c < 0x20 || c == 0x7f
}

fn blanks(text: &[u8]) -> usize
    ensures count { result ≡ prefix_len blank text.now }
    ensures inside { result ≤ length text.now }
{
    let mut n = 0;
    for c in text {
        if !is_blank(*c) {
            return n;
        }
        n += 1;
    }
    n
}

fn word_characters(text: &[u8]) -> usize
    ensures count { result ≡ prefix_len word_character text.now }
    ensures inside { result ≤ length text.now }
{
    let mut n = 0;
    for c in text {
        if !is_word(*c) {
            return n;
        }
        n += 1;
    }
    n
}

/// How many bytes behind an opening quote there are up to the closing one, with it. None where the value isn't closed
/// or has a control character in it.
fn closing(quote: u8, text: &[u8]) -> Option<usize>
    ensures place { result ≡ closing_quote quote false text.now }
    ensures inside { IfSome result (λ n. n ≤ length text.now) }
{
    let mut escaped = false;
    let mut n = 0;
    for c in text {
        if is_control(*c) {
            return None;
        }
        n += 1;
        if !escaped && *c == quote {
            return Some(n);
        }
        escaped = !escaped && *c == b'\\';
    }
    None
}

fn of_one(shape: Shape) -> Cut
    ensures shape { result.shape ≡ shape }
    ensures size { result.size ≡ 1 }
{
    Cut { shape, size: 1 }
}

fn of_two(shape: Shape) -> Cut
    ensures shape { result.shape ≡ shape }
    ensures size { result.size ≡ 2 }
{
    Cut { shape, size: 2 }
}

fn after_less(text: &[u8]) -> Cut
    ensures cut { result ≡ cut_after_less text.now }
    ensures inside { result.size ≤ length text.now + 1 }
{
    match text {
        [b'<', ..] => of_two(Shape::Operator(Test::Less)),
        [b'=', ..] => of_two(Shape::Operator(Test::LessEqual)),
        _ => of_one(Shape::Lone),
    }
}

fn after_greater(text: &[u8]) -> Cut
    ensures cut { result ≡ cut_after_greater text.now }
    ensures inside { result.size ≤ length text.now + 1 }
{
    match text {
        [b'=', ..] => of_two(Shape::Operator(Test::GreaterEqual)),
        [b'>', ..] => of_two(Shape::Operator(Test::Greater)),
        _ => of_one(Shape::Lone),
    }
}

/// A piece outside a term's parentheses, by its first byte and what follows.
#[tactic(auto, unfolding(crate::specs::Pieces::plain_cut))]
fn plain_cut(first: u8, text: &[u8]) -> Cut
    ensures cut { result ≡ plain_cut_of first text.now }
    ensures inside { result.size ≤ length text.now + 1 }
{
    if is_blank(first) {
        return Cut {
            shape: Shape::Blank,
            size: blanks(text) + 1,
        };
    }
    if is_word(first) {
        return Cut {
            shape: Shape::Word,
            size: word_characters(text) + 1,
        };
    }
    of_one(Shape::Mark(first))
}

/// A piece in a term's parentheses.
#[tactic(auto, unfolding(crate::specs::Pieces::inner_cut))]
fn inner_cut(first: u8, text: &[u8]) -> Cut
    ensures cut { result ≡ inner_cut_of first text.now }
    ensures inside { result.size ≤ length text.now + 1 }
{
    if first != b'\'' && first != b'"' {
        return plain_cut(first, text);
    }
    match closing(first, text) {
        None => Cut {
            shape: Shape::Broken,
            size: text.len() + 1,
        },
        Some(n) => Cut {
            shape: Shape::Quoted,
            size: n + 1,
        },
    }
}

/// A piece at the front of a term's parentheses.
#[tactic(auto, unfolding(crate::specs::Pieces::opening_cut))]
fn opening_cut(first: u8, text: &[u8]) -> Cut
    ensures cut { result ≡ opening_cut_of first text.now }
    ensures inside { result.size ≤ length text.now + 1 }
{
    match first {
        b'=' => of_one(Shape::Operator(Test::Equal)),
        b'%' => of_one(Shape::Operator(Test::Glob)),
        b'~' => of_one(Shape::Operator(Test::Pattern)),
        b'<' => after_less(text),
        b'>' => after_greater(text),
        _ => inner_cut(first, text),
    }
}

/// The first piece of a text, by its first byte and what follows.
pub fn first_cut(place: Place, first: u8, text: &[u8]) -> Cut
    ensures cut { result ≡ first_cut_of place first text.now }
    ensures inside { result.size ≤ length text.now + 1 }
{
    match place {
        Place::Outside | Place::BehindWord => plain_cut(first, text),
        Place::Opening => opening_cut(first, text),
        Place::Inside => inner_cut(first, text),
    }
}

/// Where the text behind a piece stands.
pub fn next_place(place: Place, shape: Shape) -> Place
    ensures { result ≡ place_behind place shape }
{
    match place {
        Place::Outside => match shape {
            Shape::Blank => Place::Outside,
            Shape::Word => Place::BehindWord,
            _ => Place::Outside,
        },
        Place::BehindWord => match shape {
            Shape::Blank | Shape::Word => Place::BehindWord,
            Shape::Mark(b'(') => Place::Opening,
            _ => Place::Outside,
        },
        Place::Opening | Place::Inside => match shape {
            Shape::Blank => place,
            Shape::Mark(b')') => Place::Outside,
            _ => Place::Inside,
        },
    }
}
