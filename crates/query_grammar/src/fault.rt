//! Why a text is no query.

ghost use Rattle.std.specs.Prelude.{◌≡◌};

use std::alloc::{AllocError, AllocFailed};

/// What is wrong at a fault's place: the first of these that fits there.
#[derive(Clone, Copy, Debug, PartialEq, Eq)]
pub enum QueryKind {
    /// The 65th level begins: one `!` or one `(` within another is a level.
    TooDeep,
    /// A term must begin, and no reference, name of a wanted package or field name stands there.
    WantTerm,
    /// A `<` or `>` that begins no operator stands where one may stand, or `%` or `~` beside a wanted package.
    BadOperator,
    /// A version must stand there, and a word or a quoted value stands there that is none.
    BadVersion,
    /// A `)` or `}` may stand there and something else or the end does, or a quoted value isn't closed or has a
    /// control character in it.
    WantClose,
    /// A value, a version or an architecture must stand there, and none does.
    WantValue,
    /// A whole term is followed by something that can't follow it.
    Trailing,
    /// The text has more than 4,096 bytes.
    TooLong,
}

impl QueryKind {
    /// The same kind.
    pub fn copy(&self) -> QueryKind
        ensures { result ≡ self.now }
    {
        *self
    }
}

/// Why a text isn't read as a query.
#[derive(Clone, Copy, Debug, PartialEq, Eq)]
pub enum QueryFault {
    /// The text is no query within the bounds. The place is the number of bytes, from the front, that some query
    /// begins with; for a text that is too long it is 4,096.
    At { place: u64, kind: QueryKind },
    /// There was no memory to keep the query.
    OutOfMemory,
}

impl QueryFault {
    /// The same fault.
    pub fn copy(&self) -> QueryFault
        ensures { result ≡ self.now }
    {
        *self
    }
}

impl From<AllocError> for QueryFault {
    ghost use Rattle.query_grammar.specs.declared.fault.QueryFault.TheVariants.{OutOfMemory};
    ghost use Rattle.std.specs.Prelude.{◌≡◌};

    ghost from_gives = { λ _ e. e ≡ OutOfMemory };

    fn from(_: AllocError) -> QueryFault {
        QueryFault::OutOfMemory
    }
}

impl<T: Drop> From<AllocFailed<T>> for QueryFault {
    ghost use Rattle.query_grammar.specs.declared.fault.QueryFault.TheVariants.{OutOfMemory};
    ghost use Rattle.std.specs.Prelude.{◌≡◌};

    ghost from_gives = { λ _ e. e ≡ OutOfMemory };

    fn from(_: AllocFailed<T>) -> QueryFault {
        QueryFault::OutOfMemory
    }
}
