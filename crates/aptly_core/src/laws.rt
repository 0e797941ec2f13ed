//! Laws of calls. Each function does nothing, and has the law as its contract.
ghost use Rattle.aptly_core.specs.Calls.{LawOfEmptyStore, LawOfHandOver, LawOfWords};

/// A call may be stopped at any moment, or end: the next one may begin on what it left, at the state after the commands that
/// were answered or one more. So no answered command is ever lost, in any list of calls.
pub fn calls_hand_over()
    ensures { LawOfHandOver }
{}

/// A call that says words alone, as one that ends with the usage line, may be stopped at any moment, or end: the next one may
/// begin where it could.
pub fn calls_that_say_hand_over()
    ensures { LawOfWords }
{}

/// The first call of all may begin on a store that has no file.
pub fn calls_begin_on_nothing()
    ensures { LawOfEmptyStore }
{}
