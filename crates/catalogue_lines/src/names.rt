//! The order of names.
ghost use Rattle.std.specs.Prelude.{◌≡◌, All, IsTrue, ◌↔◌};
ghost use Rattle.std.specs.Ordering.{nat_cmp};
ghost use Rattle.std.specs.Cmp.Lexicographic.{slice_cmp};
ghost use Rattle.std.specs.declared.cmp.Ordering.TheVariants.{Less};
ghost use Rattle.machine_state.specs.Ascending.{IsAscending};
ghost use Rattle.machine_state.specs.Named.{name_cmp, named_cmp};

use ap_text::Name;
use machine_state::Named;

/// Whether a name comes after those of the ones before it: after that of the last.
pub fn follows<T: Named>(done: &[T], name: &Name) -> bool
    requires { IsAscending (named_cmp T.name_of) done.now }
    ensures { IsTrue result ↔ All (λ one. name_cmp T.name_of one name.now ≡ Less) done.now }
{
    match done.split_last() {
        None => true,
        Some((before, _)) => before.name().order(name).is_lt(),
    }
}

/// Whether a name comes after these names: after the last.
pub(crate) fn comes_after(done: &[Name], name: &Name) -> bool
    requires { IsAscending (slice_cmp nat_cmp) done.now }
    ensures { IsTrue result ↔ All (λ one. slice_cmp nat_cmp one name.now ≡ Less) done.now }
{
    match done.split_last() {
        None => true,
        Some((before, _)) => before.order(name).is_lt(),
    }
}
