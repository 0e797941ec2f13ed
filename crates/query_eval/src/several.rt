//! Several queries of one command, joined by 'or'.
ghost use Rattle.std.specs.Prelude.{◌≡◌, IfOk};
ghost use Rattle.query_eval.specs.Several.{some_true};

use crate::prepared::Prepared;
use package_core::Package;
use std::alloc::{AllocError, Global};

/// Whether some of the queries is true of the package. Fails only for want of memory.
pub fn is_any_true(
    alloc: Global,
    queries: &[Prepared],
    candidate: &Package,
) -> Result<bool, AllocError>
    ensures { IfOk result (λ b. b ≡ some_true queries.now candidate.now) }
{
    for query in queries {
        if query.matches(alloc, candidate)? {
            return Ok(true);
        }
    }
    Ok(false)
}
