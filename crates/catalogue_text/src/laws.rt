//! Laws of root texts.
ghost use Rattle.std.specs.Prelude.{◌≡◌, ◌<◌, ◌^◌, ℕ, List, length};
ghost use Rattle.machine_state.specs.State.{Valid};
ghost use Rattle.machine_state.specs.Values.{StateView};
ghost use Rattle.catalogue_text.specs.Root.{root_text as root_of};
ghost use Rattle.catalogue_text.specs.Faults.{TextsApart, IsFirstBadLine};

/// What holds of root texts.
pub fn laws_of_root_texts()
    // A text is the root text of one valid state at most, where no two package texts in it have one SHA-256.
    ensures one { (state : StateView) (other : StateView) → TextsApart (root_of state) → Valid state → Valid other → root_of state ≡ root_of other → state ≡ other }
    // The packages that the states know are the same without that.
    ensures known { (state : StateView) (other : StateView) → Valid state → Valid other → root_of state ≡ root_of other → state.known ≡ other.known }
    // A text of fewer than 2^64 bytes has one first bad line at most.
    ensures line { (text : List ℕ) (line : ℕ) (other : ℕ) → length text < 2 ^ 64 → IsFirstBadLine text line → IsFirstBadLine text other → line ≡ other }
{}
