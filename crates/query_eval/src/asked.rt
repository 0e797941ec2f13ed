//! A package of which a query is asked.

ghost use Rattle.std.specs.Prelude.{◌≡◌, IfOk};
ghost use Rattle.package_relations.specs.Satisfies.{is_wanted as wanted};

use ap_text::Name;
use deb_version::{Relation, Version};
use package_core::Package;
use package_relations::Offer;
use std::alloc::{AllocError, Global};
use std::marker::Model;

/// A package of which a query is asked. What it provides is read where a condition first needs it, and then kept.
/// Contracts see the package.
#[derive(Drop)]
pub(crate) struct Asked<'p> {
    candidate: &'p Package,
    offer: Option<Offer<'p>>,
}

impl<'p> Model for Asked<'p> {
    ghost use Rattle.std.specs.Prelude.{◌≡◌};
    ghost use Rattle.std.specs.Option.{ForSome};
    ghost use Rattle.package_core.specs.declared.package.Package.{Package};

    ghost Value = { Package };

    ghost view = { λ a. a.candidate.now };

    ghost invariant = { λ a. ForSome a.offer (λ o. o ≡ a.candidate.now) };
}

impl<'p> Asked<'p> {
    pub(crate) fn new(candidate: &'p Package) -> Asked<'p>
        ensures { result ≡ candidate.now }
    {
        Asked {
            candidate,
            offer: None,
        }
    }

    pub(crate) fn package(&self) -> &'p Package
        ensures { result.now ≡ self.now }
    {
        self.candidate
    }

    /// Whether the package is what is asked for, or provides it, whatever its architecture.
    pub(crate) fn is_wanted(
        &mut self,
        alloc: Global,
        name: &Name,
        relation: &Option<(Relation, Version)>,
    ) -> Result<bool, AllocError>
        ensures value { IfOk result (λ b. b ≡ wanted self.old name.now relation.now) }
        ensures same { self.new ≡ self.old }
    {
        if let Some(offer) = &self.offer {
            return Ok(offer.is_wanted(name, relation));
        }
        let offer = Offer::new(alloc, self.candidate)?;
        let answer = offer.is_wanted(name, relation);
        self.offer = Some(offer);
        Ok(answer)
    }
}
