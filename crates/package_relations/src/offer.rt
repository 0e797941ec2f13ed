//! A package with what it provides (Debian Policy 7.1, 7.5).
ghost use Rattle.std.specs.Prelude.{◌≡◌, IfOk, unwrap_or};
ghost use Rattle.std.specs.List.{list_any};
ghost use Rattle.package_core.specs.Architecture.{is_for};
ghost use Rattle.package_relations.specs.Fields.{provided as provided_by};
ghost use Rattle.package_relations.specs.Satisfies.{is_as_asked as as_asked, provided_version as version_in, is_provided_as_asked as provided_as_asked, is_item as item, is_itself as itself, is_wanted as wanted, satisfies as satisfied, satisfies_group as group_satisfied};

use crate::fields::provided;
use ap_text::Name;
use deb_version::{Relation, Version, meets};
use depends_field::{Alternative, Group};
use package_core::Package;
use std::alloc::{AllocError, Global};
use std::marker::Model;

/// A package with what it provides, which is read once, so that no question takes memory. Contracts see the package.
#[derive(Drop)]
pub struct Offer<'a> {
    package: &'a Package,
    provided: Vec<Alternative>,
}

impl<'a> Model for Offer<'a> {
    ghost use Rattle.std.specs.Prelude.{◌≡◌};
    ghost use Rattle.package_core.specs.declared.package.Package.{Package};
    ghost use Rattle.package_relations.specs.Fields.{provided as provided_by};

    ghost Value = { Package };

    ghost view = { λ o. o.package.now };

    ghost invariant = { λ o. o.provided.items ≡ provided_by o.package.now };
}

impl<'a> Offer<'a> {
    /// Reads what the package provides. Fails only for want of memory.
    pub fn new(alloc: Global, candidate: &'a Package) -> Result<Offer<'a>, AllocError>
        ensures { IfOk result (λ offer. offer ≡ candidate.now) }
    {
        Ok(Offer {
            package: candidate,
            provided: provided(alloc, candidate)?,
        })
    }

    /// The package.
    pub fn package(&self) -> &'a Package
        ensures { result.now ≡ self.now }
    {
        self.package
    }

    /// What it provides.
    pub fn provided(&self) -> &[Alternative]
        ensures { result.now ≡ provided_by self.now }
    {
        self.provided.as_slice()
    }

    /// Whether the package is what is asked for, or provides it, whatever its architecture.
    #[tactic(auto, unfolding(crate::specs::Satisfies::is_wanted))]
    pub fn is_wanted(&self, name: &Name, asked: &Option<(Relation, Version)>) -> bool
        ensures { result ≡ wanted self.now name.now asked.now }
    {
        is_itself(self.package, name, asked) || has_item(&self.provided, name, asked)
    }

    /// Whether the package satisfies an alternative of a relation field for an architecture (Debian Policy 7.1, 7.5).
    ///
    /// Its architecture is the given one, or the alternative's own where it names one, or `all`; and it has the name and
    /// meets the relation, or it provides the name where no relation is asked for, or it provides the name with a version
    /// that meets the relation.
    #[tactic(auto, unfolding(crate::specs::Satisfies::satisfies))]
    pub fn satisfies(&self, alternative: &Alternative, arch: &Name) -> bool
        ensures { result ≡ satisfied self.now alternative.now arch.now }
    {
        is_for_alternative(self.package, &alternative.arch, arch)
            && self.is_wanted(&alternative.name, &alternative.relation)
    }

    /// Whether the package satisfies some alternative of a group for an architecture.
    pub fn satisfies_group(&self, group: &Group, arch: &Name) -> bool
        ensures { result ≡ group_satisfied self.now group.now arch.now }
    {
        group
            .alternatives
            .iter()
            .any(|alternative| self.satisfies(alternative, arch))
    }
}

fn is_as_asked(version: &Version, asked: &Option<(Relation, Version)>) -> bool
    ensures { result ≡ as_asked version.now asked.now }
{
    match asked {
        None => true,
        Some((relation, other)) => meets(version, *relation, other),
    }
}

fn is_provided_as_asked(
    said: &Option<(Relation, Version)>,
    asked: &Option<(Relation, Version)>,
) -> bool
    ensures { result ≡ provided_as_asked (version_in said.now) asked.now }
{
    match said {
        Some((Relation::Equal, version)) => is_as_asked(version, asked),
        _ => asked.is_none(),
    }
}

fn is_itself(candidate: &Package, name: &Name, asked: &Option<(Relation, Version)>) -> bool
    ensures { result ≡ itself candidate.now name.now asked.now }
{
    candidate.name.as_str() == name.as_str() && is_as_asked(&candidate.version, asked)
}

fn is_item(one: &Alternative, name: &Name, asked: &Option<(Relation, Version)>) -> bool
    ensures { result ≡ item name.now asked.now one.now }
{
    one.name.as_str() == name.as_str() && is_provided_as_asked(&one.relation, asked)
}

fn has_item(items: &[Alternative], name: &Name, asked: &Option<(Relation, Version)>) -> bool
    ensures { result ≡ list_any (item name.now asked.now) items.now }
{
    items.iter().any(|one| is_item(one, name, asked))
}

fn is_for_alternative(candidate: &Package, own: &Option<Name>, arch: &Name) -> bool
    ensures { result ≡ is_for candidate.now (unwrap_or own.now arch.now) }
{
    match own {
        Some(own) => candidate.is_for(own),
        None => candidate.is_for(arch),
    }
}
