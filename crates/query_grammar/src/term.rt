//! Terms: references, wanted packages and fields with their tests.

ghost use Rattle.std.specs.Prelude.{◌≡◌, ◌≢◌, IsTrue, IfOk, MatchOption};
ghost use Rattle.std.specs.Str.{IsUtf8};
ghost use Rattle.query_tree.specs.Pieces.{token, quoted_value, IfQuoted};
ghost use Rattle.query_tree.specs.Words.{relation_of as asked_by};
ghost use Rattle.query_grammar.specs.Reading.{begun as begun_by, version_at as version_read, relation_at as relation_read, valued as valued_as, value_at as value_read, test_at as test_read, arch_at as arch_read, braces_or, package_at as package_read, field_at as field_read, closed_by, goes_on, whole, progress as progress_of, at_end as ended_by};
ghost use Rattle.query_tree.specs.Tree.{plain, wanted as wanted_tree, field as field_tree};
ghost use Rattle.query_grammar.specs.Views.{progress_view};

use crate::fault::QueryKind;
use crate::value;
use ap_text::{Name, is_architecture};
use control_stanza::Text;
use deb_version::{Relation, Version};
use query_tree::{Query, Shape, Test, arch_of, may_test, version_of};
use std::alloc::{AllocError, Global};

/// A term that has begun and may go on, by what stands of it so far.
#[derive(Drop)]
pub(crate) enum Begun {
    /// The name of a wanted package.
    Package(Name),
    /// And a `(` behind it.
    PackageOpened(Name),
    /// And an operator behind that.
    Compared(Name, Relation),
    /// And a version behind that, or behind the `(`.
    Versioned(Name, Relation, Version),
    /// And the `)` that closes it.
    Related(Name, Relation, Version),
    /// A `{` behind the name or behind that `)`.
    Braced(Name, Option<(Relation, Version)>),
    /// And an architecture behind that.
    Bound(Name, Option<(Relation, Version)>, Name),
    /// The name of a field.
    Field(Text),
    /// And a `(` behind it.
    FieldOpened(Text),
    /// And a test behind that.
    Tested(Text, Test),
    /// And a value behind that, or behind the `(`.
    Valued(Text, Test, Text),
}

/// What a piece makes of a term.
#[derive(Drop)]
pub(crate) enum Progress {
    /// The term goes on behind the piece.
    GoesOn(Begun),
    /// The term is whole with the piece.
    Whole(Query),
    /// The term was whole before the piece, which is read next.
    Ended(Query),
    /// The piece can't stand there.
    Wrong(QueryKind),
}

/// The relation that an operator asks for; none for the tests that only fields have.
fn relation_of(test: Test) -> Option<Relation>
    ensures { result ≡ asked_by test }
{
    match test {
        Test::Equal => Some(Relation::Equal),
        Test::Less => Some(Relation::Earlier),
        Test::LessEqual => Some(Relation::EarlierEqual),
        Test::GreaterEqual => Some(Relation::LaterEqual),
        Test::Greater => Some(Relation::Later),
        Test::Glob | Test::Pattern => None,
    }
}

fn wanted(name: Name, relation: Option<(Relation, Version)>, arch: Option<Name>) -> Query
    ensures { plain result ≡ wanted_tree name relation arch }
{
    Query::Wanted {
        name,
        relation,
        arch,
    }
}

fn field(field: Text, test: Option<(Test, Text)>) -> Query
    ensures { plain result ≡ field_tree field test }
{
    Query::Field { field, test }
}

/// A piece where a version must stand.
fn version_at(
    alloc: Global,
    name: Name,
    relation: Relation,
    shape: Shape,
    text: &str,
) -> Result<Progress, AllocError>
    ensures { IfOk result (λ p. progress_view p ≡ version_read name relation (token shape text.now)) }
{
    match shape {
        Shape::Word => match version_of(alloc, text)? {
            Some(version) => Ok(Progress::GoesOn(Begun::Versioned(name, relation, version))),
            None => Ok(Progress::Wrong(QueryKind::BadVersion)),
        },
        Shape::Quoted => Ok(Progress::Wrong(QueryKind::BadVersion)),
        Shape::Broken => Ok(Progress::Wrong(QueryKind::WantClose)),
        _ => Ok(Progress::Wrong(QueryKind::WantValue)),
    }
}

/// A piece behind the `(` of a wanted package.
fn relation_at(alloc: Global, name: Name, shape: Shape, text: &str) -> Result<Progress, AllocError>
    ensures { IfOk result (λ p. progress_view p ≡ relation_read name (token shape text.now)) }
{
    match shape {
        Shape::Operator(test) => match relation_of(test) {
            Some(relation) => Ok(Progress::GoesOn(Begun::Compared(name, relation))),
            None => Ok(Progress::Wrong(QueryKind::BadOperator)),
        },
        Shape::Lone => Ok(Progress::Wrong(QueryKind::BadOperator)),
        _ => version_at(alloc, name, Relation::Equal, shape, text),
    }
}

fn valued(field: Text, test: Test, value: Text) -> Progress
    ensures { progress_view result ≡ valued_as field test value }
{
    if !may_test(field.as_str(), test, value.as_str()) {
        return Progress::Wrong(QueryKind::BadVersion);
    }
    Progress::GoesOn(Begun::Valued(field, test, value))
}

/// A piece where a value must stand.
fn value_at(
    alloc: Global,
    field: Text,
    test: Test,
    shape: Shape,
    text: &str,
) -> Result<Progress, AllocError>
    requires { IfQuoted shape (IsUtf8 (quoted_value text.now)) }
    ensures { IfOk result (λ p. progress_view p ≡ value_read field test (token shape text.now)) }
{
    match shape {
        Shape::Word => Ok(valued(field, test, Text::new(alloc, text)?)),
        Shape::Quoted => Ok(valued(field, test, value::quoted(alloc, text)?)),
        Shape::Broken => Ok(Progress::Wrong(QueryKind::WantClose)),
        _ => Ok(Progress::Wrong(QueryKind::WantValue)),
    }
}

/// A piece behind the `(` of a field.
fn test_at(alloc: Global, field: Text, shape: Shape, text: &str) -> Result<Progress, AllocError>
    requires { IfQuoted shape (IsUtf8 (quoted_value text.now)) }
    ensures { IfOk result (λ p. progress_view p ≡ test_read field (token shape text.now)) }
{
    match shape {
        Shape::Operator(test) => Ok(Progress::GoesOn(Begun::Tested(field, test))),
        Shape::Lone => Ok(Progress::Wrong(QueryKind::BadOperator)),
        _ => value_at(alloc, field, Test::Equal, shape, text),
    }
}

/// A piece where an architecture must stand.
fn arch_at(
    alloc: Global,
    name: Name,
    relation: Option<(Relation, Version)>,
    shape: Shape,
    text: &str,
) -> Result<Progress, AllocError>
    ensures { IfOk result (λ p. progress_view p ≡ arch_read name relation (token shape text.now)) }
{
    match shape {
        Shape::Word => {
            if !is_architecture(text) {
                return Ok(Progress::Wrong(QueryKind::WantValue));
            }
            let arch = arch_of(alloc, text)?;
            Ok(Progress::GoesOn(Begun::Bound(name, relation, arch)))
        }
        _ => Ok(Progress::Wrong(QueryKind::WantValue)),
    }
}

fn braces_or_end(
    name: Name,
    relation: Option<(Relation, Version)>,
    shape: Shape,
    text: &str,
) -> Progress
    ensures { progress_view result ≡ braces_or name relation (token shape text.now) }
{
    match shape {
        Shape::Mark(b'{') => Progress::GoesOn(Begun::Braced(name, relation)),
        _ => Progress::Ended(wanted(name, relation, None)),
    }
}

/// A piece behind the name of a wanted package.
fn package_at(name: Name, shape: Shape, text: &str) -> Progress
    ensures { progress_view result ≡ package_read name (token shape text.now) }
{
    match shape {
        Shape::Mark(b'(') => Progress::GoesOn(Begun::PackageOpened(name)),
        _ => braces_or_end(name, None, shape, text),
    }
}

/// A piece behind the name of a field.
fn field_at(name: Text, shape: Shape, text: &str) -> Progress
    ensures { progress_view result ≡ field_read name (token shape text.now) }
{
    match shape {
        Shape::Mark(b'(') => Progress::GoesOn(Begun::FieldOpened(name)),
        _ => Progress::Ended(field(name, None)),
    }
}

/// A piece where only a `)` may stand.
fn close_at(then: Progress, shape: Shape, text: &str) -> Progress
    ensures { progress_view result ≡ closed_by 41 (progress_view then) (token shape text.now) }
{
    match shape {
        Shape::Mark(b')') => then,
        _ => Progress::Wrong(QueryKind::WantClose),
    }
}

/// A piece where only a `}` may stand.
fn close_brace_at(then: Progress, shape: Shape, text: &str) -> Progress
    ensures { progress_view result ≡ closed_by 125 (progress_view then) (token shape text.now) }
{
    match shape {
        Shape::Mark(b'}') => then,
        _ => Progress::Wrong(QueryKind::WantClose),
    }
}

/// What a piece that isn't blank makes of a term.
#[tactic(auto, unfolding(crate::specs::Reading::progress))]
pub(crate) fn advance(
    alloc: Global,
    begun: Begun,
    shape: Shape,
    text: &str,
) -> Result<Progress, AllocError>
    requires { IfQuoted shape (IsUtf8 (quoted_value text.now)) }
    ensures { IfOk result (λ p. progress_view p ≡ progress_of begun (token shape text.now)) }
{
    match begun {
        Begun::Package(name) => Ok(package_at(name, shape, text)),
        Begun::PackageOpened(name) => relation_at(alloc, name, shape, text),
        Begun::Compared(name, relation) => version_at(alloc, name, relation, shape, text),
        Begun::Versioned(name, relation, version) => {
            let closed = Progress::GoesOn(Begun::Related(name, relation, version));
            Ok(close_at(closed, shape, text))
        }
        Begun::Related(name, relation, version) => {
            Ok(braces_or_end(name, Some((relation, version)), shape, text))
        }
        Begun::Braced(name, relation) => arch_at(alloc, name, relation, shape, text),
        Begun::Bound(name, relation, arch) => {
            let closed = Progress::Whole(wanted(name, relation, Some(arch)));
            Ok(close_brace_at(closed, shape, text))
        }
        Begun::Field(name) => Ok(field_at(name, shape, text)),
        Begun::FieldOpened(name) => test_at(alloc, name, shape, text),
        Begun::Tested(name, test) => value_at(alloc, name, test, shape, text),
        Begun::Valued(name, test, value) => {
            let closed = Progress::Whole(field(name, Some((test, value))));
            Ok(close_at(closed, shape, text))
        }
    }
}

/// What the end of the text makes of a term.
#[tactic(auto, unfolding(crate::specs::Reading::at_end))]
pub(crate) fn at_end(begun: Begun) -> Progress
    ensures { progress_view result ≡ ended_by begun }
{
    match begun {
        Begun::Package(name) => Progress::Ended(wanted(name, None, None)),
        Begun::Related(name, relation, version) => {
            Progress::Ended(wanted(name, Some((relation, version)), None))
        }
        Begun::Field(name) => Progress::Ended(field(name, None)),
        Begun::Versioned(..) | Begun::Bound(..) | Begun::Valued(..) => {
            Progress::Wrong(QueryKind::WantClose)
        }
        _ => Progress::Wrong(QueryKind::WantValue),
    }
}
