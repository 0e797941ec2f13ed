//! A name in the order of its bytes.
ghost use Rattle.std.specs.Prelude.{◌≡◌};

use ap_text::Name;
use std::cmp::Ordering;
use std::marker::Model;

/// A name, seen as its bytes and in their order.
#[derive(Drop)]
pub(crate) struct ByName<'a> {
    name: &'a Name,
}

impl<'a> Model for ByName<'a> {
    ghost use Rattle.std.specs.Prelude.{List, ℕ};

    ghost Value = { List ℕ };

    ghost view = { λ a. a.name.now };
}

impl<'a> ByName<'a> {
    pub(crate) fn new(name: &'a Name) -> ByName<'a>
        ensures { result ≡ name.now }
    {
        ByName { name }
    }

    pub(crate) fn name(&self) -> &'a Name
        ensures { result.now ≡ self.now }
    {
        self.name
    }
}

impl<'a> PartialEq for ByName<'a> {
    ghost use Rattle.std.specs.Ordering.{eq_by_cmp};
    ghost use Rattle.std.specs.Cmp.{partial_equiv_from_equiv};
    ghost use Rattle.std.proofs.lemmas.Cmp.{eq_by_cmp_equiv, nat_list_cmp_total};
    ghost use Rattle.package_core.specs.Order.{text_cmp};

    ghost eq = { eq_by_cmp text_cmp };

    ghost laws = { partial_equiv_from_equiv (eq_by_cmp_equiv nat_list_cmp_total) };

    fn eq(&self, other: &ByName<'a>) -> bool {
        self.cmp(other).is_eq()
    }
}

impl<'a> Eq for ByName<'a> {
    ghost use Rattle.std.proofs.lemmas.Cmp.{eq_by_cmp_equiv, nat_list_cmp_total};

    ghost laws = { eq_by_cmp_equiv nat_list_cmp_total };
}

impl<'a> PartialOrd for ByName<'a> {
    ghost use Rattle.std.specs.Prelude.{Some, refl};
    ghost use Rattle.std.specs.Cmp.{po};
    ghost use Rattle.std.proofs.lemmas.Cmp.{nat_list_cmp_total};
    ghost use Rattle.package_core.specs.Order.{text_cmp};

    ghost partial_cmp = { λ a b. Some (text_cmp a b) };

    ghost laws = { po nat_list_cmp_total (λ a b. refl) };

    fn partial_cmp(&self, other: &ByName<'a>) -> Option<Ordering> {
        Some(self.cmp(other))
    }
}

impl<'a> Ord for ByName<'a> {
    ghost use Rattle.std.specs.Prelude.{refl};
    ghost use Rattle.std.proofs.lemmas.Cmp.{nat_list_cmp_total};
    ghost use Rattle.package_core.specs.Order.{text_cmp};

    ghost cmp = { text_cmp };

    ghost total = { nat_list_cmp_total };

    ghost matches_partial_cmp = { λ a b. refl };

    ghost matches_eq = { λ a b. refl };

    fn cmp(&self, other: &ByName<'a>) -> Ordering {
        self.name.order(other.name)
    }
}
