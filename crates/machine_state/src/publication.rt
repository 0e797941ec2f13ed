//! Publications.
ghost use Rattle.std.specs.Prelude.{◌≡◌, IfOk, length};
ghost use Rattle.std.specs.List.Sorted.{IsSearchInRange, IsBinarySearchResult};
ghost use Rattle.std.specs.Option.{option_cmp, option_copied};
ghost use Rattle.std.specs.Ordering.{nat_cmp};
ghost use Rattle.std.specs.Cmp.Lexicographic.{slice_cmp};
ghost use Rattle.machine_state.specs.Ascending.{IsAscending};
ghost use Rattle.machine_state.specs.State.{place_cmp, publication_cmp, publication_of};

use crate::copied::{Copied, copy_all, copy_optional};
use crate::limit::Kind;
use ap_text::{Name, SafePath};
use control_stanza::Text;
use package_list::PackageList;
use std::alloc::{AllocError, Global};
use std::cmp::Ordering;
use std::marker::Model;

/// What is published at one moment. Contracts see its parts as a list.
#[derive(Drop)]
pub struct Generation {
    /// When it was published, in seconds since 1970.
    pub moment: i64,
    /// The packages of each component, in the order of the components.
    pub parts: Vec<(Name, PackageList)>,
}

impl Model for Generation {
    ghost use Rattle.machine_state.specs.Values.{GenerationView};

    ghost Value = { GenerationView };

    ghost view = { λ generation. record { moment = generation.moment; parts = generation.parts.items } };
}

impl Generation {
    /// An equal generation; its packages are shared. Fails only for want of memory.
    pub fn copy(&self, alloc: Global) -> Result<Generation, AllocError>
        ensures { IfOk result (λ generation. generation ≡ self.now) }
    {
        Ok(Generation {
            moment: self.moment,
            parts: copy_all(alloc, &self.parts)?,
        })
    }
}

/// A distribution that is published, below a prefix or without one. Contracts see its lists as lists.
#[derive(Drop)]
pub struct Publication {
    /// The path that it is published below, if there is one: at most 100 bytes, with no segment `dists`, `pool` or `endpoint`.
    pub prefix: Option<SafePath>,
    /// The distribution.
    pub dist: Name,
    /// What its sources are: repositories or snapshots.
    pub kind: Kind,
    /// The field Origin of its Release; not empty.
    pub origin: Text,
    /// The field Label of its Release; not empty.
    pub label: Text,
    /// The field Suite of its Release; not empty.
    pub suite: Text,
    /// The field Codename of its Release; not empty.
    pub codename: Text,
    /// The architectures that it has an index of, in the order of their bytes, none twice: one at least, without `all`.
    pub architectures: Vec<Name>,
    /// Each component with the name of its source, in the order of the components.
    pub sources: Vec<(Name, Name)>,
    /// How often it was published.
    pub serial: u32,
    /// What is published.
    pub current: Generation,
    /// What was published before that.
    pub previous: Option<Generation>,
}

impl Model for Publication {
    ghost use Rattle.machine_state.specs.Values.{PublicationView};

    ghost Value = { PublicationView };

    ghost view = { λ p. record { prefix = p.prefix; dist = p.dist; kind = p.kind; origin = p.origin; label = p.label; suite = p.suite; codename = p.codename; architectures = p.architectures.items; sources = p.sources.items; serial = p.serial; current = p.current; previous = p.previous } };
}

impl Publication {
    /// An equal publication; its packages are shared. Fails only for want of memory.
    pub fn copy(&self, alloc: Global) -> Result<Publication, AllocError>
        ensures { IfOk result (λ publication. publication ≡ self.now) }
    {
        Ok(Publication {
            prefix: copy_optional(alloc, &self.prefix)?,
            dist: self.dist.copy(alloc)?,
            kind: self.kind,
            origin: self.origin.copy(alloc)?,
            label: self.label.copy(alloc)?,
            suite: self.suite.copy(alloc)?,
            codename: self.codename.copy(alloc)?,
            architectures: copy_all(alloc, &self.architectures)?,
            sources: copy_all(alloc, &self.sources)?,
            serial: self.serial,
            current: self.current.copy(alloc)?,
            previous: copy_optional(alloc, &self.previous)?,
        })
    }

    /// How its place stands to another: by the prefix, where none comes first, and then by the distribution.
    pub fn place_order(&self, prefix: &Option<SafePath>, dist: &Name) -> Ordering
        ensures { result ≡ place_cmp self.now prefix.now dist.now }
    {
        prefix_order(&self.prefix, prefix).then(self.dist.order(dist))
    }
}

fn prefix_order(one: &Option<SafePath>, other: &Option<SafePath>) -> Ordering
    ensures { result ≡ option_cmp (slice_cmp nat_cmp) one.now other.now }
{
    match one {
        None => match other {
            None => Ordering::Equal,
            Some(_) => Ordering::Less,
        },
        Some(path) => match other {
            None => Ordering::Greater,
            Some(other) => path.order(other),
        },
    }
}

/// Where the publication of that prefix and distribution stands among the others, which are in the order of these, or where a new
/// one would go.
pub fn place_of_publication(
    publications: &[Publication],
    prefix: &Option<SafePath>,
    dist: &Name,
) -> Result<usize, usize>
    ensures found { IsBinarySearchResult (λ publication. place_cmp publication prefix.now dist.now) publications.now result }
    ensures bound { IsSearchInRange result (length publications.now) }
{
    publications.binary_search_by(|publication| publication.place_order(prefix, dist))
}

pub(crate) fn find_publication<'a>(
    publications: &'a [Publication],
    prefix: &Option<SafePath>,
    dist: &Name,
) -> Option<&'a Publication>
    ensures { IsAscending publication_cmp publications.now → option_copied result ≡ publication_of prefix.now dist.now publications.now }
{
    match place_of_publication(publications, prefix, dist) {
        Ok(place) => Some(&publications[place]),
        Err(_) => None,
    }
}

impl Copied for Generation {
    fn copied(&self, alloc: Global) -> Result<Generation, AllocError> {
        self.copy(alloc)
    }
}

impl Copied for Publication {
    fn copied(&self, alloc: Global) -> Result<Publication, AllocError> {
        self.copy(alloc)
    }
}

impl Copied for (Name, Name) {
    fn copied(&self, alloc: Global) -> Result<(Name, Name), AllocError> {
        Ok((self.0.copy(alloc)?, self.1.copy(alloc)?))
    }
}

impl Copied for (Name, PackageList) {
    fn copied(&self, alloc: Global) -> Result<(Name, PackageList), AllocError> {
        Ok((self.0.copy(alloc)?, self.1.copy(alloc)?))
    }
}
