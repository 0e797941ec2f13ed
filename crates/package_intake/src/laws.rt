//! Laws of arrivals.
ghost use Rattle.std.specs.Prelude.{◌≡◌, ℕ, List, Result, Ok, All, IsTrue};
ghost use Rattle.ap_host.specs.Disk.{Files, Path};
ghost use Rattle.package_core.specs.Card.{Card};
ghost use Rattle.package_list.specs.Lists.{has_member};
ghost use Rattle.machine_state.specs.declared.refusal.Refusal.{Refusal};
ghost use Rattle.machine_state.specs.State.{IsCatalogue, IsNamedList, Valid};
ghost use Rattle.machine_state.specs.Values.{StateView};
ghost use Rattle.package_intake.specs.Arrival.{Arrives, list_of};
ghost use Rattle.package_intake.specs.Fits.{FitsIn, FitsWith, Fitting, added};

/// What was taken in and checked fits with what is known and a list of one's own. What arrives of a folder fits the state that it arrives
/// for: its packages are whole, and the state with them is valid. Of each folder something arrives, or it is refused. And where the
/// repository has an equal of each package, the state with them is the state as it was.
pub fn arrivals_fit()
    ensures joined { (known own list : List Card) → Fitting known own list → IsCatalogue known → IsNamedList known own → FitsWith known own list }
    ensures fits { (files : Files) (state : StateView) (name : List ℕ) (folder : Path) (list : List Card) → Valid state → Arrives files state.known (list_of state name) folder (Ok list) → FitsIn state name list }
    ensures total { (files : Files) (known own : List Card) (folder : Path) → (arrived : Result (List Card) Refusal) × Arrives files known own folder arrived }
    ensures same { (state : StateView) (name : List ℕ) (list : List Card) → Valid state → All (λ p. IsTrue (has_member (list_of state name) p)) list → added state name list ≡ state }
{}
