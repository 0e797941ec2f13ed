//! What is wrong with a control text.
ghost use Rattle.std.specs.Prelude.{◌≡◌};
ghost use Rattle.control_stanza.specs.declared.fault.StanzaFault.TheVariants.{OutOfMemory};
ghost use Rattle.control_stanza.specs.declared.fault.StepError.TheVariants as steps;

use std::alloc::{AllocError, AllocFailed};

/// Why a line can't stand where it stands. Where a line shows several, the first in this order is named.
#[derive(Clone, Copy, Debug, PartialEq, Eq)]
pub enum StanzaKind {
    /// The line has a carriage return.
    CarriageReturn,
    /// The line is no UTF-8.
    NotUtf8,
    /// The line goes on with a field, and its stanza has none above it.
    StrayContinuation,
    /// The line should begin a field and has no colon.
    NoColon,
    /// What stands before the colon is no field name.
    BadFieldName,
    /// The stanza has a field of that name above, whatever the case of the letters.
    RepeatedField,
    /// With this line the stanza's lines have more than 4,194,304 bytes.
    TooLong,
}

/// Why a control text was not read.
#[derive(Clone, Copy, Debug, PartialEq, Eq)]
pub enum StanzaFault {
    /// The first line that can't stand there, counted from 1, and why.
    At { line: u64, kind: StanzaKind },
    /// Memory ran out.
    OutOfMemory,
}

impl StanzaKind {
    /// The same kind once more.
    pub fn copy(&self) -> StanzaKind
        ensures { result ≡ self.now }
    {
        *self
    }
}

impl StanzaFault {
    /// The same fault once more.
    pub fn copy(&self) -> StanzaFault
        ensures { result ≡ self.now }
    {
        *self
    }
}

impl From<AllocError> for StanzaFault {
    ghost from_gives = { λ _ e. e ≡ OutOfMemory };

    fn from(_: AllocError) -> StanzaFault {
        StanzaFault::OutOfMemory
    }
}

impl<T: Drop> From<AllocFailed<T>> for StanzaFault {
    ghost from_gives = { λ _ e. e ≡ OutOfMemory };

    fn from(_: AllocFailed<T>) -> StanzaFault {
        StanzaFault::OutOfMemory
    }
}

/// Why one line was not taken.
#[derive(Clone, Copy, Debug, PartialEq, Eq)]
pub(crate) enum StepError {
    Shows(StanzaKind),
    OutOfMemory,
}

impl From<AllocError> for StepError {
    ghost from_gives = { λ _ e. e ≡ steps.OutOfMemory };

    fn from(_: AllocError) -> StepError {
        StepError::OutOfMemory
    }
}

impl<T: Drop> From<AllocFailed<T>> for StepError {
    ghost from_gives = { λ _ e. e ≡ steps.OutOfMemory };

    fn from(_: AllocFailed<T>) -> StepError {
        StepError::OutOfMemory
    }
}
