//! Laws of shell patterns.

ghost use Rattle.std.specs.Prelude.{◌↔◌, ℕ, List, IsTrue};
ghost use Rattle.shell_pattern.specs.Glob.{Glob};
ghost use Rattle.shell_pattern.specs.GlobReading.{is_globbed};

/// A shell pattern is true of a value exactly where the value can be cut into pieces, one for each element of the pattern.
pub fn globs_cut_values()
    ensures { (pattern : List ℕ) (value : List ℕ) → IsTrue (is_globbed pattern value) ↔ Glob pattern value }
{}
