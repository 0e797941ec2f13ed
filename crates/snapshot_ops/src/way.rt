//! How the sources of a merge join.
ghost use Rattle.std.specs.Prelude.{◌≡◌, false, unwrap_or};
ghost use Rattle.snapshot_ops.specs.Merges.{way_of};

/// How a source of a merge joins those before it.
#[derive(Clone, Copy)]
pub enum Way {
    /// Its packages take the place of those of their name and architecture.
    Replacing,
    /// All stay, and no two may have one name, version and architecture.
    Keeping,
    /// Of each name and architecture the greatest stays alone.
    Latest,
}

/// The way that the flags `-latest` and `-no-remove` ask for, of which only one is set.
pub(crate) fn way_for(latest: &Option<bool>, no_remove: &Option<bool>) -> Way
    ensures { result ≡ way_of (unwrap_or latest.now false) (unwrap_or no_remove.now false) }
{
    if latest.unwrap_or(false) {
        Way::Latest
    } else if no_remove.unwrap_or(false) {
        Way::Keeping
    } else {
        Way::Replacing
    }
}
