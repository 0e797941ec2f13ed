//! All that the machine keeps.
ghost use Rattle.std.specs.Prelude.{◌≡◌, IfOk, []};
ghost use Rattle.std.specs.Option.{option_copied};
ghost use Rattle.machine_state.specs.Ascending.{IsAscending};
ghost use Rattle.machine_state.specs.State.{mirror_cmp, mirror_of, repo_cmp, repo_of, snapshot_cmp, snapshot_of, publication_cmp, publication_of, empty};

use crate::copied::copy_all;
use crate::mirror::Mirror;
use crate::named::find_named;
use crate::publication::{Publication, find_publication};
use crate::repo::Repo;
use crate::snapshot::Snapshot;
use ap_text::{Name, SafePath};
use package_list::PackageList;
use std::alloc::{AllocError, Global};
use std::marker::Model;

/// All that the machine keeps. A valid one has its mirrors, repositories and snapshots in the order of their names, no name twice
/// in one kind, and its publications in the order of their prefixes, where none comes first, and distributions; it knows each
/// package that it lists.
#[derive(Drop)]
pub struct State {
    /// Every package that was ever taken in and not cleaned up since, each complete; two may have one name, version and
    /// architecture.
    pub known: PackageList,
    /// The mirrors of archives.
    pub mirrors: Vec<Mirror>,
    /// The local repositories.
    pub repos: Vec<Repo>,
    /// The snapshots.
    pub snapshots: Vec<Snapshot>,
    /// The publications.
    pub publications: Vec<Publication>,
}

impl Model for State {
    ghost use Rattle.std.specs.Coded.{codes};
    ghost use Rattle.query_tree.specs.TreeCode.{tree_code};
    ghost use Rattle.machine_state.specs.Values.{StateView};

    ghost Value = { StateView };

    ghost coded = { Prim.hlevel (codes, tree_code) };

    ghost view = { λ state. record { known = state.known; mirrors = state.mirrors.items; repos = state.repos.items; snapshots = state.snapshots.items; publications = state.publications.items } };
}

impl State {
    /// The state of an empty store.
    pub fn empty(alloc: Global) -> State
        ensures { result ≡ empty }
    {
        State {
            known: PackageList::new(alloc),
            mirrors: Vec::new(alloc),
            repos: Vec::new(alloc),
            snapshots: Vec::new(alloc),
            publications: Vec::new(alloc),
        }
    }

    /// An equal state. Its packages are shared.
    pub fn copy(&self, alloc: Global) -> Result<State, AllocError>
        ensures { IfOk result (λ state. state ≡ self.now) }
    {
        Ok(State {
            known: self.known.copy(alloc)?,
            mirrors: copy_all(alloc, &self.mirrors)?,
            repos: copy_all(alloc, &self.repos)?,
            snapshots: copy_all(alloc, &self.snapshots)?,
            publications: copy_all(alloc, &self.publications)?,
        })
    }

    /// The same with these packages known, and these repositories. Fails only for want of memory.
    pub fn with_repos(
        &self,
        alloc: Global,
        known: PackageList,
        repos: Vec<Repo>,
    ) -> Result<State, AllocError>
        ensures { IfOk result (λ state. state ≡ record self.now { known = known; repos = repos.items }) }
    {
        Ok(State {
            known,
            mirrors: copy_all(alloc, &self.mirrors)?,
            repos,
            snapshots: copy_all(alloc, &self.snapshots)?,
            publications: copy_all(alloc, &self.publications)?,
        })
    }

    /// The mirror of that name, in a state whose mirrors are in the order of their names: none exactly where no mirror has the
    /// name.
    pub fn mirror(&self, name: &Name) -> Option<&Mirror>
        ensures { IsAscending mirror_cmp self.now.mirrors → option_copied result ≡ mirror_of name.now self.now.mirrors }
    {
        find_named(&self.mirrors, name)
    }

    /// The repository of that name, in a state whose repositories are in the order of their names: none exactly where no
    /// repository has the name.
    pub fn repo(&self, name: &Name) -> Option<&Repo>
        ensures { IsAscending repo_cmp self.now.repos → option_copied result ≡ repo_of name.now self.now.repos }
    {
        find_named(&self.repos, name)
    }

    /// The snapshot of that name, in a state whose snapshots are in the order of their names: none exactly where no snapshot has
    /// the name.
    pub fn snapshot(&self, name: &Name) -> Option<&Snapshot>
        ensures { IsAscending snapshot_cmp self.now.snapshots → option_copied result ≡ snapshot_of name.now self.now.snapshots }
    {
        find_named(&self.snapshots, name)
    }

    /// The publication of that prefix and distribution, in a state whose publications are in the order of these: none exactly where
    /// no publication has them.
    pub fn publication(&self, prefix: &Option<SafePath>, dist: &Name) -> Option<&Publication>
        ensures { IsAscending publication_cmp self.now.publications → option_copied result ≡ publication_of prefix.now dist.now self.now.publications }
    {
        find_publication(&self.publications, prefix, dist)
    }
}
