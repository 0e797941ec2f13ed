//! Why an intake is refused.
ghost use Rattle.std.specs.Prelude.{◌≡◌};
ghost use Rattle.digest_set.specs.declared.facts.What.{What};
ghost use Rattle.machine_state.specs.declared.refusal.Refusal.TheVariants.{InputAbsent, InputMalformed, InputMismatch, Limit as OverLimit};
ghost use Rattle.package_intake.specs.Faults.{Tells, list_tells, pool_tells, inbox_tells};

use ap_host::InboxErr;
use ap_text::SafePath;
use digest_set::{Digits, What};
use hash_pool::PoolFault;
use machine_state::{Limit, Refusal, UpdateFault};
use package_list::ListFault;
use std::alloc::Global;

/// The inbox hasn't this file.
pub fn absent(alloc: Global, path: &SafePath) -> UpdateFault
    ensures { Tells result (InputAbsent path.now) }
{
    match path.copy(alloc) {
        Ok(path) => UpdateFault::Refused(Refusal::InputAbsent(path)),
        Err(_) => UpdateFault::OutOfMemory,
    }
}

/// This file of the inbox isn't readable, from this line on.
pub fn malformed(alloc: Global, path: &SafePath, line: u64) -> UpdateFault
    ensures { Tells result (InputMalformed path.now line) }
{
    match path.copy(alloc) {
        Ok(path) => UpdateFault::Refused(Refusal::InputMalformed { path, line }),
        Err(_) => UpdateFault::OutOfMemory,
    }
}

/// This file of the inbox has another size or digest than is stated.
pub(crate) fn differs(
    alloc: Global,
    path: &SafePath,
    what: What,
    said: Digits,
    found: Digits,
) -> UpdateFault
    ensures { Tells result (InputMismatch path.now what said found) }
{
    match path.copy(alloc) {
        Ok(path) => UpdateFault::Refused(Refusal::InputMismatch {
            path,
            what,
            said,
            found,
        }),
        Err(_) => UpdateFault::OutOfMemory,
    }
}

/// This limit would be passed.
pub(crate) fn over(limit: Limit) -> UpdateFault
    ensures { Tells result (OverLimit limit) }
{
    UpdateFault::Refused(Refusal::Limit(limit))
}

/// A fault of the inbox.
pub(crate) fn of_inbox(fault: InboxErr) -> UpdateFault
    ensures { inbox_tells fault result }
{
    match fault {
        InboxErr::Failed => UpdateFault::InboxFault,
        InboxErr::OutOfMemory => UpdateFault::OutOfMemory,
    }
}

/// A fault of a list that would be too long for this limit.
pub fn of_list(limit: Limit, fault: ListFault) -> UpdateFault
    ensures { list_tells limit fault result }
{
    match fault {
        ListFault::Conflict(triple) => UpdateFault::Refused(Refusal::Conflict(triple)),
        ListFault::Full => UpdateFault::Refused(Refusal::Limit(limit)),
        ListFault::OutOfMemory => UpdateFault::OutOfMemory,
    }
}

/// A fault of taking in this file.
pub(crate) fn of_pool(alloc: Global, path: &SafePath, fault: PoolFault) -> UpdateFault
    ensures { pool_tells path.now fault result }
{
    match fault {
        PoolFault::Absent => absent(alloc, path),
        PoolFault::Mismatch(what, said, found) => differs(alloc, path, what, said, found),
        PoolFault::HostFault => UpdateFault::HostFault,
        PoolFault::InboxFault => UpdateFault::InboxFault,
        PoolFault::OutOfMemory => UpdateFault::OutOfMemory,
    }
}
