//! Reading a query piece by piece.

ghost use Rattle.std.specs.Prelude.{◌≡◌, ◌∷◌, ◌+◌, length};
ghost use Rattle.std.specs.Str.{IsUtf8};
ghost use Rattle.query_tree.specs.Tree.{plain};
ghost use Rattle.query_tree.specs.Pieces.{token, quoted_value, IfQuoted};
ghost use Rattle.query_grammar.specs.Reading.{start, step as step_by, step_next as next_step, step_having as having_step, step_wanting as wanting_step, step_progress as progress_step, after_whole as whole_kind, closed_group, begin_negation as negation_step, begin_group as group_step, with_member, goes, having_one as having_tree, finish as finish_by, finish_having as having_finish, finish_progress as progress_finish};
ghost use Rattle.query_grammar.specs.Views.{progress_view, level_view, outer_view, reader_view, Gives, Reads};

use crate::begin;
use crate::fault::{QueryFault, QueryKind};
use crate::level::{Level, Next};
use crate::term::{self, Progress};
use query_tree::{Query, Shape};
use std::alloc::Global;

/// What stands of a query that is read.
#[derive(Drop)]
pub(crate) struct Reader {
    /// The groups around, the outermost first.
    outer: Vec<Level>,
    /// The innermost group, or the query itself.
    level: Level,
    next: Next,
}

fn fault(at: u64, kind: QueryKind) -> QueryFault
    ensures { result ≡ QueryFault.At at kind }
{
    QueryFault::At { place: at, kind }
}

fn having_one(
    alloc: Global,
    outer: Vec<Level>,
    level: Level,
    at: u64,
    query: Query,
) -> Result<Reader, QueryFault>
    ensures { Gives at result (goes (having_tree (outer_view outer.items) (level_view level) (plain query))) }
{
    let level = level.with_member(alloc, query)?;
    Ok(Reader {
        outer,
        level,
        next: Next::Having,
    })
}

/// What can't follow a whole member: in a group a `)` may.
#[tactic(auto, using(crate::proofs::LevelFacts::after_whole_outer))]
fn after_whole(outer: &[Level]) -> QueryKind
    ensures { result ≡ whole_kind (outer_view outer.now) }
{
    if outer.len() == 0 {
        QueryKind::Trailing
    } else {
        QueryKind::WantClose
    }
}

/// A `)` behind a whole member.
#[tactic(auto, using(crate::proofs::LevelFacts::outer_view_push))]
fn close_group(
    alloc: Global,
    outer: Vec<Level>,
    level: Level,
    at: u64,
) -> Result<Reader, QueryFault>
    ensures { Gives at result (closed_group (outer_view outer.items) (level_view level)) }
{
    let mut outer = outer;
    match outer.pop() {
        None => Err(fault(at, QueryKind::Trailing)),
        Some(around) => {
            let query = level.whole()?;
            having_one(alloc, outer, around, at, query)
        }
    }
}

/// A piece behind a whole member.
#[tactic(auto, unfolding(crate::specs::Reading::step_having))]
fn step_having(
    alloc: Global,
    outer: Vec<Level>,
    level: Level,
    at: u64,
    shape: Shape,
    text: &str,
) -> Result<Reader, QueryFault>
    ensures { Gives at result (having_step (outer_view outer.items) (level_view level) (token shape text.now)) }
{
    match shape {
        Shape::Mark(b',') => Ok(Reader {
            outer,
            level,
            next: Next::Wanting,
        }),
        Shape::Mark(b'|') => Ok(Reader {
            outer,
            level: level.with_alternative(alloc)?,
            next: Next::Wanting,
        }),
        Shape::Mark(b')') => close_group(alloc, outer, level, at),
        _ => Err(fault(at, after_whole(&outer))),
    }
}

/// A piece in a term, or behind a term that ended before it.
fn step_progress(
    alloc: Global,
    outer: Vec<Level>,
    level: Level,
    at: u64,
    shape: Shape,
    text: &str,
    progress: Progress,
) -> Result<Reader, QueryFault>
    ensures { Gives at result (progress_step (outer_view outer.items) (level_view level) (token shape text.now) (progress_view progress)) }
{
    match progress {
        Progress::GoesOn(begun) => Ok(Reader {
            outer,
            level,
            next: Next::Within(begun),
        }),
        Progress::Whole(query) => having_one(alloc, outer, level, at, query),
        Progress::Ended(query) => {
            let level = level.with_member(alloc, query)?;
            step_having(alloc, outer, level, at, shape, text)
        }
        Progress::Wrong(kind) => Err(fault(at, kind)),
    }
}

/// A `!` where a term must begin.
#[tactic(auto, using(crate::proofs::LevelFacts::negation_fits, crate::proofs::LevelFacts::no_room_to_negate))]
fn begin_negation(outer: Vec<Level>, level: Level, at: u64) -> Result<Reader, QueryFault>
    ensures { Gives at result (negation_step (outer_view outer.items) (level_view level) (level_view level).room) }
{
    if level.room() == 0 {
        return Err(fault(at, QueryKind::TooDeep));
    }
    Ok(Reader {
        outer,
        level: level.negated(),
        next: Next::Wanting,
    })
}

/// A `(` where a term must begin.
#[tactic(auto, using(crate::proofs::LevelFacts::group_fits, crate::proofs::LevelFacts::no_room_to_group, crate::proofs::LevelFacts::outer_view_push))]
fn begin_group(
    alloc: Global,
    outer: Vec<Level>,
    level: Level,
    at: u64,
) -> Result<Reader, QueryFault>
    ensures { Gives at result (group_step (outer_view outer.items) (level_view level) (level_view level).room) }
{
    if level.room() == 0 {
        return Err(fault(at, QueryKind::TooDeep));
    }
    let inner = Level::new(alloc, level.room() - 1);
    let mut outer = outer;
    outer.push(level)?;
    Ok(Reader {
        outer,
        level: inner,
        next: Next::Wanting,
    })
}

/// A piece where a term must begin.
#[tactic(auto, unfolding(crate::specs::Reading::step_wanting))]
fn step_wanting(
    alloc: Global,
    outer: Vec<Level>,
    level: Level,
    at: u64,
    shape: Shape,
    text: &str,
) -> Result<Reader, QueryFault>
    ensures { Gives at result (wanting_step (outer_view outer.items) (level_view level) (token shape text.now)) }
{
    match shape {
        Shape::Word => {
            let progress = begin::begin(alloc, text)?;
            step_progress(alloc, outer, level, at, shape, text, progress)
        }
        Shape::Mark(b'!') => begin_negation(outer, level, at),
        Shape::Mark(b'(') => begin_group(alloc, outer, level, at),
        _ => Err(fault(at, QueryKind::WantTerm)),
    }
}

/// A piece that isn't blank.
fn step_next(
    alloc: Global,
    reader: Reader,
    at: u64,
    shape: Shape,
    text: &str,
) -> Result<Reader, QueryFault>
    requires { IfQuoted shape (IsUtf8 (quoted_value text.now)) }
    ensures { Gives at result (next_step (outer_view reader.outer.items) (level_view reader.level) reader.next (token shape text.now)) }
{
    let Reader { outer, level, next } = reader;
    match next {
        Next::Wanting => step_wanting(alloc, outer, level, at, shape, text),
        Next::Having => step_having(alloc, outer, level, at, shape, text),
        Next::Within(begun) => {
            let progress = term::advance(alloc, begun, shape, text)?;
            step_progress(alloc, outer, level, at, shape, text, progress)
        }
    }
}

/// The end of the text behind a whole member.
#[tactic(auto, using(crate::proofs::LevelFacts::finish_outer))]
fn finish_having(outer: &[Level], level: Level, at: u64) -> Result<Query, QueryFault>
    ensures { Reads result (having_finish at (outer_view outer.now) (level_view level)) }
{
    if outer.len() != 0 {
        return Err(fault(at, QueryKind::WantClose));
    }
    let query = level.whole()?;
    Ok(query)
}

/// The end of the text in a term.
fn finish_progress(
    alloc: Global,
    outer: &[Level],
    level: Level,
    at: u64,
    progress: Progress,
) -> Result<Query, QueryFault>
    ensures { Reads result (progress_finish at (outer_view outer.now) (level_view level) (progress_view progress)) }
{
    match progress {
        Progress::GoesOn(_) => Err(fault(at, QueryKind::WantClose)),
        Progress::Whole(query) | Progress::Ended(query) => {
            let level = level.with_member(alloc, query)?;
            finish_having(outer, level, at)
        }
        Progress::Wrong(kind) => Err(fault(at, kind)),
    }
}

impl Reader {
    /// The reader before the first piece, for at most 64 levels.
    pub fn new(alloc: Global) -> Reader
        ensures { reader_view result ≡ start 64 }
    {
        Reader {
            outer: Vec::new(alloc),
            level: Level::new(alloc, 64),
            next: Next::Wanting,
        }
    }

    /// Reads the piece at a place, which comes back in a fault.
    #[tactic(auto, unfolding(crate::specs::Reading::step))]
    pub fn step(
        self,
        alloc: Global,
        at: u64,
        shape: Shape,
        text: &str,
    ) -> Result<Reader, QueryFault>
        requires { IfQuoted shape (IsUtf8 (quoted_value text.now)) }
        ensures { Gives at result (step_by (reader_view self) (token shape text.now)) }
    {
        match shape {
            Shape::Blank => Ok(self),
            _ => step_next(alloc, self, at, shape, text),
        }
    }

    /// Reads the end of the text, at that place.
    #[tactic(auto, unfolding(crate::specs::Reading::finish))]
    pub fn finish(self, alloc: Global, at: u64) -> Result<Query, QueryFault>
        ensures { Reads result (finish_by at (reader_view self)) }
    {
        let Reader { outer, level, next } = self;
        match next {
            Next::Wanting => Err(fault(at, QueryKind::WantTerm)),
            Next::Having => finish_having(&outer, level, at),
            Next::Within(begun) => finish_progress(alloc, &outer, level, at, term::at_end(begun)),
        }
    }
}
