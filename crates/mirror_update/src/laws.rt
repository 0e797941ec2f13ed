//! Laws of archives that arrive.
ghost use Rattle.std.specs.Prelude.{◌≡◌, ℕ, List, Option, Some, Result, Ok, Err};
ghost use Rattle.ap_host.specs.Disk.{Files};
ghost use Rattle.package_core.specs.Card.{Card};
ghost use Rattle.machine_state.specs.declared.fetched.Fetched.{Fetched};
ghost use Rattle.machine_state.specs.declared.refusal.Refusal.{Refusal};
ghost use Rattle.machine_state.specs.State.{Valid, mirror_of};
ghost use Rattle.machine_state.specs.Values.{MirrorView, StateView};
ghost use Rattle.mirror_update.specs.Arrival.{Arrives};
ghost use Rattle.mirror_update.specs.Answers.{IsArchiveRefusal, Updates};
ghost use Rattle.mirror_update.specs.Fits.{FitsIn};

/// What arrives of an archive fits the state that it arrives for: its packages are whole, its date is one line of at most 200 bytes, and
/// the state in which the mirror has fetched it is valid. What is refused of it is refused for a step of an arrival. Of each archive
/// something arrives, or it is refused, whichever pattern was too large.
pub fn archives_fit()
    ensures fits { (files : Files) (state : StateView) (mirror : MirrorView) (fetched : Fetched) → Valid state → mirror_of mirror.name state.mirrors ≡ Some mirror → Arrives files state.known mirror (Ok fetched) → FitsIn state mirror.name fetched }
    ensures refuses { (files : Files) (known : List Card) (mirror : MirrorView) (refusal : Refusal) → Arrives files known mirror (Err refusal) → IsArchiveRefusal refusal }
    ensures total { (large : Option (List ℕ)) (inbox : Option Files) (state : StateView) (mirror : MirrorView) → (arrived : Result Fetched Refusal) × Updates large inbox state mirror arrived }
{}
