//! Whether no path stands twice.
ghost use Rattle.std.specs.Prelude.{◌≡◌, map, IfOk};
ghost use Rattle.release_file.specs.Release.{are_different, path_of};

use crate::listing::Listed;
use crate::ordered::Word;
use std::alloc::{AllocError, Global};
use std::collections::BTreeSet;

/// Whether no two of the files have one path. It takes n log n comparisons.
pub(crate) fn have_different_paths(alloc: Global, files: &[Listed]) -> Result<bool, AllocError>
    ensures { IfOk result (λ b. b ≡ are_different (map path_of files.now)) }
{
    let mut seen = BTreeSet::new(alloc);
    for file in files {
        if !seen.insert(Word::new(file.path.as_str()))? {
            return Ok(false);
        }
    }
    Ok(true)
}
