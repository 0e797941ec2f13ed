//! Queries as trees, and why a text is none.

use crate::answers::Answer;
use crate::relations::put_relation;
use query_eval::EvalFault;
use query_grammar::{Query, QueryFault, QueryKind, Test};
use row_table::{put, put_at};
use std::alloc::AllocError;

fn kind_text(kind: QueryKind) -> &'static str {
    match kind {
        QueryKind::TooDeep => "too deep",
        QueryKind::WantTerm => "want term",
        QueryKind::BadOperator => "bad operator",
        QueryKind::BadVersion => "bad version",
        QueryKind::WantClose => "want close",
        QueryKind::WantValue => "want value",
        QueryKind::Trailing => "trailing",
        QueryKind::TooLong => "too long",
    }
}

impl Answer for QueryFault {
    fn put(&self, out: &mut String) -> Result<(), AllocError> {
        match self {
            QueryFault::At { place, kind } => {
                put_at(out, "at ", *place)?;
                put(out, &[": ", kind_text(*kind)])
            }
            QueryFault::OutOfMemory => out.push_str("out of memory"),
        }
    }
}

impl Answer for Query {
    fn put(&self, out: &mut String) -> Result<(), AllocError> {
        put_tree(out, self)
    }
}

fn test_text(test: Test) -> &'static str {
    match test {
        Test::Equal => "=",
        Test::Less => "<<",
        Test::LessEqual => "<=",
        Test::GreaterEqual => ">=",
        Test::Greater => ">>",
        Test::Glob => "%",
        Test::Pattern => "~",
    }
}

/// A query as a tree, each term with its kind.
#[cycle(put)]
fn put_tree(out: &mut String, query: &Query) -> Result<(), AllocError> {
    match query {
        Query::Any(queries) => put_branches(out, "any", queries),
        Query::All(queries) => put_branches(out, "all", queries),
        Query::Not(inner) => {
            put(out, &["not("])?;
            put_tree(out, inner)?;
            put(out, &[")"])
        }
        Query::Reference {
            name,
            version,
            arch,
        } => {
            put(out, &["reference ", name.as_str(), " "])?;
            put(out, &[version.as_str(), " ", arch.as_str()])
        }
        Query::Wanted {
            name,
            relation,
            arch,
        } => {
            put(out, &["wanted ", name.as_str()])?;
            put_relation(out, relation)?;
            match arch {
                Some(arch) => put(out, &[" {", arch.as_str(), "}"]),
                None => Ok(()),
            }
        }
        Query::Field { field, test } => {
            put(out, &["field ", field.as_str()])?;
            match test {
                Some((test, value)) => {
                    put(out, &[" (", test_text(*test), " "])?;
                    put(out, &[value.as_str(), ")"])
                }
                None => Ok(()),
            }
        }
    }
}

#[cycle(put)]
fn put_branches(out: &mut String, kind: &str, queries: &[Query]) -> Result<(), AllocError> {
    put(out, &[kind, "("])?;
    for i in 0..queries.len() {
        put(out, &[if i == 0 { "" } else { "; " }])?;
        put_tree(out, &queries[i])?;
    }
    put(out, &[")"])
}

impl Answer for EvalFault {
    fn put(&self, out: &mut String) -> Result<(), AllocError> {
        match self {
            EvalFault::BadPattern(test) => put_at(out, "bad pattern ", *test),
            EvalFault::PatternTooLarge(test) => put_at(out, "too large pattern ", *test),
            EvalFault::OutOfMemory => out.push_str("out of memory"),
        }
    }
}
