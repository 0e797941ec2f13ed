//! Why a file isn't taken into the pool.

use crate::answers::Answer;
use crate::digests::put_difference;
use hash_pool::PoolFault;
use std::alloc::AllocError;

/// What was said of a file and found otherwise.
impl Answer for PoolFault {
    fn put(&self, out: &mut String) -> Result<(), AllocError> {
        match self {
            PoolFault::Mismatch(what, said, found) => put_difference(out, *what, said, found),
            _ => Ok(()),
        }
    }
}
