//! Copies of commands, and of what they are made of.
ghost use Rattle.std.specs.Prelude.{◌≡◌, IfOk, option_map};
ghost use Rattle.command_value.specs.Plain.{plain, plain_follow};

mod mirror;
mod other;
mod publish;
mod repo;
mod snapshot;

use crate::command::{Command, Follow, Origin};
use control_stanza::Text;
use mirror::copy_mirror;
use std::alloc::{AllocError, Global};

/// Copies of texts.
pub fn copies(alloc: Global, texts: &[Text]) -> Result<Vec<Text>, AllocError>
    ensures { IfOk result (λ made. made.items ≡ texts.now) }
{
    let mut made = Vec::new(alloc);
    for text in texts {
        made.push(text.copy(alloc)?)?;
    }
    Ok(made)
}

/// Copies of the texts of a list, where there is one.
fn copies_in(alloc: Global, list: &Option<Vec<Text>>) -> Result<Option<Vec<Text>>, AllocError>
    ensures { IfOk result (λ made. option_map (λ v. v.items) made ≡ option_map (λ v. v.items) list.now) }
{
    match list {
        Some(texts) => Ok(Some(copies(alloc, texts.as_slice())?)),
        None => Ok(None),
    }
}

/// A copy of a text, where there is one.
fn copy_in(alloc: Global, text: &Option<Text>) -> Result<Option<Text>, AllocError>
    ensures { IfOk result (λ made. made ≡ text.now) }
{
    match text {
        Some(text) => Ok(Some(text.copy(alloc)?)),
        None => Ok(None),
    }
}

impl Follow {
    /// The same once more. Fails only for want of memory.
    pub fn copy(&self, alloc: Global) -> Result<Follow, AllocError>
        ensures { IfOk result (λ made. plain_follow made ≡ plain_follow self.now) }
    {
        Ok(Follow {
            architectures: copies_in(alloc, &self.architectures)?,
            recommends: self.recommends,
            suggests: self.suggests,
        })
    }
}

impl Origin {
    /// The same once more. Fails only for want of memory.
    pub fn copy(&self, alloc: Global) -> Result<Origin, AllocError>
        ensures { IfOk result (λ made. made ≡ self.now) }
    {
        match self {
            Origin::Mirror(name) => Ok(Origin::Mirror(name.copy(alloc)?)),
            Origin::Repo(name) => Ok(Origin::Repo(name.copy(alloc)?)),
            Origin::Empty => Ok(Origin::Empty),
        }
    }
}

impl Command {
    /// The same command once more. Fails only for want of memory.
    pub fn copy(&self, alloc: Global) -> Result<Command, AllocError>
        ensures { IfOk result (λ made. plain made ≡ plain self.now) }
    {
        copy_mirror(alloc, self)
    }
}
