//! The path of a package's file.
ghost use Rattle.std.specs.Prelude.{◌≡◌, ◌∷◌, [], IfOk};
ghost use Rattle.ap_text.specs.Paths.{segments};
ghost use Rattle.package_core.specs.Fields.{without_dots as undotted, last_segment as last_segment_of, is_file_path};
ghost use Rattle.package_core.specs.Answers.{Reads};

use crate::fault::PackageFault;
use ap_text::{SafePath, is_safe_path};
use std::alloc::{AllocError, Global};

/// A path without `./` in front, as often as it stands there. What is left may be empty. It takes no memory.
pub fn without_dots(text: &str) -> &str
    ensures { result.now ≡ undotted text.now }
{
    let mut rest = text;
    while let Some(behind) = rest.strip_prefix("./") {
        rest = behind;
    }
    rest
}

fn last_segment(path: &str) -> &str
    ensures last { result.now ≡ last_segment_of path.now }
    ensures one { segments result.now ≡ result.now ∷ [] }
{
    let mut rest = path;
    while let Some((_, behind)) = rest.split_once('/') {
        rest = behind;
    }
    rest
}

/// The path that a field Filename gives, without `./` in front.
pub(crate) fn read_path(alloc: Global, text: &str) -> Result<SafePath, PackageFault>
    ensures { Reads PackageFault.BadPath (is_file_path (undotted text.now)) (λ path. path ≡ undotted text.now) result }
{
    let path = without_dots(text);
    if path.len() > 700 || !is_safe_path(path) {
        return Err(PackageFault::BadPath);
    }
    Ok(SafePath::fixed(alloc, path)?)
}

/// The name of the file at a path.
pub(crate) fn file_name(alloc: Global, path: &SafePath) -> Result<SafePath, AllocError>
    ensures last { IfOk result (λ name. name ≡ last_segment_of path.now) }
    ensures one { IfOk result (λ name. segments name ≡ name ∷ []) }
{
    SafePath::fixed(alloc, last_segment(path.as_str()))
}
