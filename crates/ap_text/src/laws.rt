ghost use Rattle.ap_text.specs.Decimals.{NumbersAreDecimals};
ghost use Rattle.ap_text.specs.Laws.{NamesArePaths, JoinedPaths, DecimalsAreNames, FrontsOfNames};

/// The law that a name is a safe path of one segment.
pub fn names_are_paths()
    ensures { NamesArePaths }
{}

/// The laws of a path joined of two safe ones behind a slash: it is safe where it is short enough, it lies below the
/// first, and its segments are those of both.
pub fn joined_paths()
    ensures { JoinedPaths }
{}

/// The law that the decimal digits of a number are a name, of at most 20 bytes.
pub fn decimals_are_names()
    ensures { DecimalsAreNames }
{}

/// The law that a front of a name, of at least one byte, is a name.
pub fn fronts_of_names()
    ensures { FrontsOfNames }
{}

/// The laws that carry the test of a number's digits to what is written of it: a number is written as such digits, of its
/// value, and such digits are what their value is written as.
pub fn numbers_are_decimals()
    ensures { NumbersAreDecimals }
{}
