//! What stands of a query while it is read.

ghost use Rattle.std.specs.Prelude.{◌≡◌, ◌+◌, ◌<◌, ◌≤◌, [], ◌∷◌, IfOk, vec_len};
ghost use Rattle.query_tree.specs.Tree.{plain, plains, listed, negated, any, all};
ghost use Rattle.query_tree.specs.Grammar.{all_of as all_tree, any_of as any_tree};
ghost use Rattle.query_grammar.specs.Reading.{negate as negate_tree};

use crate::term::Begun;
use query_tree::Query;
use std::alloc::{AllocError, Global};

/// What is read next.
#[derive(Drop)]
pub(crate) enum Next {
    /// A term, a `!` or a `(` must begin.
    Wanting,
    /// A member is whole.
    Having,
    /// A term goes on.
    Within(Begun),
}

/// What stands of a query, or of a group in it.
#[derive(Drop)]
pub(crate) struct Level {
    /// Whole members of the `any`, each with its `|`.
    alternatives: Vec<Query>,
    /// Whole members of the `all` that is read.
    members: Vec<Query>,
    /// Each `!` before the member that is read.
    negations: u64,
    /// How many levels may still begin here.
    room: u64,
    ghost bounded: { negations + room ≤ 64 },
}

fn negation(alloc: Global, query: Query) -> Result<Query, AllocError>
    ensures { IfOk result (λ q. plain q ≡ negated (plain query)) }
{
    Ok(Query::Not(Box::new(alloc, query)?))
}

fn negate(alloc: Global, query: Query, times: u64) -> Result<Query, AllocError>
    ensures { IfOk result (λ q. plain q ≡ negate_tree times (plain query)) }
{
    let mut read = query;
    for _done in 0..times {
        read = negation(alloc, read)?;
    }
    Ok(read)
}

fn all_together(members: Vec<Query>) -> Query
    ensures { plain result ≡ all (listed (plains members.items)) }
{
    Query::All(members)
}

fn any_together(members: Vec<Query>) -> Query
    ensures { plain result ≡ any (listed (plains members.items)) }
{
    Query::Any(members)
}

fn only(members: Vec<Query>) -> Query
    requires { vec_len members ≡ 1 }
    ensures { plains members.items ≡ plain result ∷ [] }
{
    let mut members = members;
    match members.pop() {
        Some(query) => query,
        None => unreachable!(),
    }
}

/// An `all` with one member is that member.
#[tactic(auto, using(crate::proofs::LevelFacts::all_one, crate::proofs::LevelFacts::all_many))]
fn all_of(members: Vec<Query>) -> Query
    ensures { plain result ≡ all_tree (plains members.items) }
{
    if members.len() == 1 {
        return only(members);
    }
    all_together(members)
}

/// An `any` with one member is that member.
#[tactic(auto, using(crate::proofs::LevelFacts::any_one, crate::proofs::LevelFacts::any_many))]
fn any_of(members: Vec<Query>) -> Query
    ensures { plain result ≡ any_tree (plains members.items) }
{
    if members.len() == 1 {
        return only(members);
    }
    any_together(members)
}

impl Level {
    ghost use Rattle.query_grammar.specs.Views.{level_view};
    ghost use Rattle.query_grammar.specs.Reading.{empty_level, negated_level, with_member, with_alternative, whole_level};

    pub fn new(alloc: Global, room: u64) -> Level
        requires { room ≤ 64 }
        ensures { level_view result ≡ empty_level room }
    {
        Level {
            alternatives: Vec::new(alloc),
            members: Vec::new(alloc),
            negations: 0,
            room,
        }
    }

    /// How many levels may still begin here.
    pub fn room(&self) -> u64
        ensures value { result ≡ (level_view self.now).room }
        ensures bounded { result ≤ 64 }
    {
        self.room
    }

    /// The level behind one `!` more.
    pub fn negated(self) -> Level
        requires { 0 < (level_view self).room }
        ensures { level_view result ≡ negated_level (level_view self) }
    {
        let Level {
            alternatives,
            members,
            negations,
            room,
        } = self;
        Level {
            alternatives,
            members,
            negations: negations + 1,
            room: room - 1,
        }
    }

    /// The level with one more whole member.
    pub fn with_member(self, alloc: Global, query: Query) -> Result<Level, AllocError>
        ensures { IfOk result (λ l. level_view l ≡ with_member (level_view self) (plain query)) }
    {
        let Level {
            alternatives,
            mut members,
            negations,
            room,
        } = self;
        members.push(negate(alloc, query, negations)?)?;
        Ok(Level {
            alternatives,
            members,
            negations: 0,
            room: room + negations,
        })
    }

    /// The level behind the `|` of a whole `all`.
    pub fn with_alternative(self, alloc: Global) -> Result<Level, AllocError>
        ensures { IfOk result (λ l. level_view l ≡ with_alternative (level_view self)) }
    {
        let Level {
            mut alternatives,
            members,
            negations,
            room,
        } = self;
        alternatives.push(all_of(members))?;
        Ok(Level {
            alternatives,
            members: Vec::new(alloc),
            negations,
            room,
        })
    }

    /// The query that the whole level is.
    pub fn whole(self) -> Result<Query, AllocError>
        ensures { IfOk result (λ q. plain q ≡ whole_level (level_view self)) }
    {
        let Level {
            mut alternatives,
            members,
            negations: _,
            room: _,
        } = self;
        alternatives.push(all_of(members))?;
        Ok(any_of(alternatives))
    }
}
