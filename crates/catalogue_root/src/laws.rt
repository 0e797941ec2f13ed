//! Laws of stores. Each function does nothing, and has the law as its contract.
ghost use Rattle.catalogue_root.specs.Laws.{LawOfOpenStores, LawOfStoredStates};

/// What stands for a state holds it whole, and a load can see it. A store with no file stands for the empty state.
pub fn law_of_open_stores()
    ensures { LawOfOpenStores }
{}

/// Files hold one state at most, where no two package texts in the root share a SHA-256.
pub fn stored_states_are_equal()
    ensures { LawOfStoredStates }
{}
