//! What the lines so far have left for the next ones, and the arguments that may speak of it.

use crate::given::{bytes_of, decoded, text_of};
use crate::stop::Stop;
use ap_text::{Name, SafePath};
use package_core::Package;
use package_list::PackageList;
use std::alloc::Global;

/// What the lines so far have left for the next ones.
#[derive(Drop)]
pub struct Desk {
    /// Who gives memory.
    pub alloc: Global,
    /// The text that `~` stands for.
    pub base: String,
    /// The packages that are held.
    pub packages: Vec<Package>,
    /// The lists that were made.
    pub lists: Vec<PackageList>,
}

impl Desk {
    /// Nothing yet.
    pub fn new(alloc: Global) -> Desk {
        Desk {
            alloc,
            base: String::new(alloc),
            packages: Vec::new(alloc),
            lists: Vec::new(alloc),
        }
    }

    /// The text of a word.
    pub fn word(&self, raw: &str) -> Result<String, Stop> {
        text_of(decoded(self.alloc, raw)?)
    }

    /// The bytes of a last argument.
    pub fn bytes(&self, raw: &str) -> Result<Vec<u8>, Stop> {
        bytes_of(self.alloc, self.base.as_str(), raw)
    }

    /// The text of a last argument.
    pub fn text(&self, raw: &str) -> Result<String, Stop> {
        text_of(self.bytes(raw)?)
    }

    /// A word that has to be a name.
    pub fn name(&self, raw: &str) -> Result<Name, Stop> {
        match Name::new(self.alloc, self.word(raw)?.as_str()) {
            Ok(name) => Ok(name),
            Err(_) => Err(Stop::NoCall),
        }
    }

    /// A word that has to be a path.
    pub fn path(&self, raw: &str) -> Result<SafePath, Stop> {
        match SafePath::new(self.alloc, self.word(raw)?.as_str()) {
            Ok(path) => Ok(path),
            Err(_) => Err(Stop::NoCall),
        }
    }
}
