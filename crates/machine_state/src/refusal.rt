//! Why a command is refused.
ghost use Rattle.std.specs.Prelude.{◌≡◌, IfOk};
ghost use Rattle.machine_state.specs.declared.refusal.Refusal.TheVariants.{InUse, AlreadyPublished, NotPublished, InputMismatch};

use crate::copied::copy_optional;
use crate::limit::{Kind, Limit};
use ap_text::{Name, SafePath};
use control_stanza::Text;
use digest_set::{Digits, What};
use std::alloc::{AllocError, Global};

/// Why a command is refused: the first that holds, in this order.
#[derive(Drop)]
pub enum Refusal {
    /// No such command, flag or form is built yet.
    NotBuilt,
    /// A text among the words isn't the name, path, prefix, architecture, component or line of text that it stands for.
    BadName(Text),
    /// The new name is taken.
    Exists(Kind, Name),
    /// A named thing isn't there.
    Unknown(Kind, Name),
    /// A query isn't in the grammar.
    BadQuery {
        /// Which query of the command, counted from 1.
        query: u64,
        /// Where in its text, in bytes from 0.
        place: u64,
    },
    /// The pattern of a `~` condition is none, or nested too deep.
    BadPattern {
        /// Which query of the command, counted from 1.
        query: u64,
        /// Which `~` condition of it, counted from 1.
        test: u64,
    },
    /// The pattern of a `~` condition was refused for its size.
    PatternTooLarge {
        /// Which query of the command, counted from 1.
        query: u64,
        /// Which `~` condition of it, counted from 1.
        test: u64,
    },
    /// The mirror was never updated.
    NotUpdated(Name),
    /// A repository or snapshot that is to go is a source of a publication: the first such.
    InUse {
        /// What it is.
        kind: Kind,
        /// What it is called.
        name: Name,
        /// The publication's prefix, if it has one.
        prefix: Option<SafePath>,
        /// The publication's distribution.
        dist: Name,
    },
    /// It is published already.
    AlreadyPublished {
        /// The prefix, if there is one.
        prefix: Option<SafePath>,
        /// The distribution.
        dist: Name,
    },
    /// It isn't published so.
    NotPublished {
        /// The prefix, if there is one.
        prefix: Option<SafePath>,
        /// The distribution.
        dist: Name,
    },
    /// No distribution is given.
    NoDistribution,
    /// The input hasn't this file.
    InputAbsent(SafePath),
    /// A file of the input isn't readable.
    InputMalformed {
        /// Which file.
        path: SafePath,
        /// The first line that isn't readable, counted from 1.
        line: u64,
    },
    /// A file of the input has another size or digest than is stated.
    InputMismatch {
        /// Which file.
        path: SafePath,
        /// What differs.
        what: What,
        /// What is stated.
        said: Digits,
        /// What was found.
        found: Digits,
    },
    /// A list would hold two packages of this name, version and architecture: its `name_version_arch`.
    Conflict(Text),
    /// A publication would have no architecture.
    NoArchitectures,
    /// Another file stands at a path of the public tree.
    FileClash(SafePath),
    /// A limit would be passed.
    Limit(Limit),
}

impl Refusal {
    /// An equal refusal. Fails only for want of memory.
    pub fn copy(&self, alloc: Global) -> Result<Refusal, AllocError>
        ensures { IfOk result (λ made. made ≡ self.now) }
    {
        match self {
            Refusal::NotBuilt => Ok(Refusal::NotBuilt),
            Refusal::BadName(text) => Ok(Refusal::BadName(text.copy(alloc)?)),
            Refusal::Exists(kind, name) => Ok(Refusal::Exists(*kind, name.copy(alloc)?)),
            Refusal::Unknown(kind, name) => Ok(Refusal::Unknown(*kind, name.copy(alloc)?)),
            Refusal::BadQuery { query, place } => Ok(Refusal::BadQuery {
                query: *query,
                place: *place,
            }),
            Refusal::BadPattern { query, test } => Ok(Refusal::BadPattern {
                query: *query,
                test: *test,
            }),
            Refusal::PatternTooLarge { query, test } => Ok(Refusal::PatternTooLarge {
                query: *query,
                test: *test,
            }),
            Refusal::NotUpdated(name) => Ok(Refusal::NotUpdated(name.copy(alloc)?)),
            Refusal::InUse {
                kind,
                name,
                prefix,
                dist,
            } => in_use(alloc, *kind, name, prefix, dist),
            Refusal::AlreadyPublished { prefix, dist } => already_published(alloc, prefix, dist),
            Refusal::NotPublished { prefix, dist } => not_published(alloc, prefix, dist),
            Refusal::NoDistribution => Ok(Refusal::NoDistribution),
            Refusal::InputAbsent(path) => Ok(Refusal::InputAbsent(path.copy(alloc)?)),
            Refusal::InputMalformed { path, line } => Ok(Refusal::InputMalformed {
                path: path.copy(alloc)?,
                line: *line,
            }),
            Refusal::InputMismatch {
                path,
                what,
                said,
                found,
            } => input_mismatch(alloc, path, *what, said, found),
            Refusal::Conflict(triple) => Ok(Refusal::Conflict(triple.copy(alloc)?)),
            Refusal::NoArchitectures => Ok(Refusal::NoArchitectures),
            Refusal::FileClash(path) => Ok(Refusal::FileClash(path.copy(alloc)?)),
            Refusal::Limit(limit) => Ok(Refusal::Limit(*limit)),
        }
    }
}

fn in_use(
    alloc: Global,
    kind: Kind,
    name: &Name,
    prefix: &Option<SafePath>,
    dist: &Name,
) -> Result<Refusal, AllocError>
    ensures { IfOk result (λ made. made ≡ InUse kind name.now prefix.now dist.now) }
{
    Ok(Refusal::InUse {
        kind,
        name: name.copy(alloc)?,
        prefix: copy_optional(alloc, prefix)?,
        dist: dist.copy(alloc)?,
    })
}

fn already_published(
    alloc: Global,
    prefix: &Option<SafePath>,
    dist: &Name,
) -> Result<Refusal, AllocError>
    ensures { IfOk result (λ made. made ≡ AlreadyPublished prefix.now dist.now) }
{
    Ok(Refusal::AlreadyPublished {
        prefix: copy_optional(alloc, prefix)?,
        dist: dist.copy(alloc)?,
    })
}

fn not_published(
    alloc: Global,
    prefix: &Option<SafePath>,
    dist: &Name,
) -> Result<Refusal, AllocError>
    ensures { IfOk result (λ made. made ≡ NotPublished prefix.now dist.now) }
{
    Ok(Refusal::NotPublished {
        prefix: copy_optional(alloc, prefix)?,
        dist: dist.copy(alloc)?,
    })
}

fn input_mismatch(
    alloc: Global,
    path: &SafePath,
    what: What,
    said: &Digits,
    found: &Digits,
) -> Result<Refusal, AllocError>
    ensures { IfOk result (λ made. made ≡ InputMismatch path.now what said.now found.now) }
{
    Ok(Refusal::InputMismatch {
        path: path.copy(alloc)?,
        what,
        said: said.copy(alloc)?,
        found: found.copy(alloc)?,
    })
}
