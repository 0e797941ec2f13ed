// The paths of pool files.
ghost use Rattle.std.specs.Prelude.{◌≡◌, IfOk};
ghost use Rattle.hash_pool.specs.Names.{pool_name};

use ap_text::SafePath;
use digest_set::Digits;
use std::alloc::{AllocError, Global};

const FOLDER: &str = "pool";

/// The path of the pool file of a SHA-256: `pool/` and 64 lower case hexadecimal digits.
pub fn pool_path(alloc: Global, sha256: &[u8; 32]) -> Result<SafePath, AllocError>
    ensures { IfOk result (λ path. path ≡ pool_name sha256.now) }
{
    let folder = SafePath::fixed(alloc, FOLDER)?;
    let digits = Digits::hexadecimal(alloc, sha256)?;
    let name = SafePath::fixed(alloc, digits.as_str())?;
    SafePath::joined(alloc, &folder, &name)
}
