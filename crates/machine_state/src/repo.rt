//! Local repositories.
ghost use Rattle.std.specs.Prelude.{◌≡◌, IfOk, length};
ghost use Rattle.std.specs.List.Sorted.{IsSearchInRange, IsBinarySearchResult};
ghost use Rattle.machine_state.specs.Named.{name_cmp};
ghost use Rattle.machine_state.specs.State.{repo_name};

use crate::copied::{Copied, copy_optional};
use crate::named::{Named, place_of_name};
use ap_text::Name;
use control_stanza::Text;
use package_list::PackageList;
use std::alloc::{AllocError, Global};

/// A local repository.
#[derive(Drop)]
pub struct Repo {
    /// Its name.
    pub name: Name,
    /// A line of text on it: at most 200 bytes, no control character, no blank at either end. It may be empty.
    pub comment: Text,
    /// The distribution that it is published as, where nothing else is said.
    pub distribution: Option<Name>,
    /// The component that it is published as, where nothing else is said: any name but `Release`.
    pub component: Name,
    /// Its packages.
    pub list: PackageList,
}

impl Repo {
    /// An equal repository. Its packages are shared.
    pub fn copy(&self, alloc: Global) -> Result<Repo, AllocError>
        ensures { IfOk result (λ repo. repo ≡ self.now) }
    {
        Ok(Repo {
            name: self.name.copy(alloc)?,
            comment: self.comment.copy(alloc)?,
            distribution: copy_optional(alloc, &self.distribution)?,
            component: self.component.copy(alloc)?,
            list: self.list.copy(alloc)?,
        })
    }
}

impl Named for Repo {
    ghost name_of = { λ repo. repo.name };

    fn name(&self) -> &Name {
        &self.name
    }
}

impl Copied for Repo {
    fn copied(&self, alloc: Global) -> Result<Repo, AllocError> {
        self.copy(alloc)
    }
}

/// Where the repository of that name stands, or where a new one would go.
pub fn place_of_repo(repos: &[Repo], name: &Name) -> Result<usize, usize>
    ensures found { IsBinarySearchResult (λ repo. name_cmp repo_name repo name.now) repos.now result }
    ensures bound { IsSearchInRange result (length repos.now) }
{
    place_of_name(repos, name)
}
