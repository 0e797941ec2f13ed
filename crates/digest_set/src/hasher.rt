//! The digests of bytes that come in pieces.

ghost use Rattle.std.specs.Prelude.{◌≡◌, ℕ, ◌+◌, ◌<◌, ◌^◌, ◌++◌, List, [], length};
ghost use Rattle.digest_set.specs.Facts.{Holds, size_of, digests_of as facts_of};

use crate::facts::Digests;
use md5::Md5;
use sha1::Sha1;
use sha2::{Digest, Sha256};

/// A byte list that is hashed as its pieces come.
#[derive(Drop)]
pub struct Hashing {
    size: u64,
    md5: Md5,
    sha1: Sha1,
    sha256: Sha256,
}

#[tactic(auto, unfolding(crate::specs::Facts::size_of))]
impl Hashing {
    /// A hashing that has taken in nothing yet.
    pub fn new() -> Hashing
        ensures holds { Holds result [] }
        ensures size { size_of result ≡ 0 }
    {
        Hashing {
            size: 0,
            md5: <Md5 as md5::Digest>::new(),
            sha1: Sha1::new(),
            sha256: Sha256::new(),
        }
    }

    /// The number of bytes taken in so far.
    pub fn size(&self) -> u64
        ensures size { result ≡ size_of self.now }
        ensures of { (bytes : List ℕ) → Holds self.now bytes → result ≡ length bytes }
    {
        self.size
    }

    /// Takes in the next piece, of any length that keeps the number of bytes below 2^64.
    pub fn update(&mut self, bytes: &[u8])
        requires { size_of self.old + length bytes.now < 2 ^ 64 }
        ensures holds { (before : List ℕ) → Holds self.old before → Holds self.new (before ++ bytes.now) }
        ensures size { size_of self.new ≡ size_of self.old + length bytes.now }
    {
        self.size += bytes.len() as u64;
        md5::Digest::update(&mut self.md5, bytes);
        self.sha1.update(bytes);
        self.sha256.update(bytes);
    }

    /// The size and the digests of all that was taken in.
    pub fn finish(self) -> Digests
        ensures { (bytes : List ℕ) → Holds self bytes → result ≡ facts_of bytes }
    {
        Digests {
            size: self.size,
            md5: md5::Digest::finalize(self.md5),
            sha1: self.sha1.finalize(),
            sha256: self.sha256.finalize(),
        }
    }
}

/// The size and the digests of bytes that are there as a whole.
pub fn digests_of(bytes: &[u8]) -> Digests
    ensures { result ≡ facts_of bytes.now }
{
    let mut hashing = Hashing::new();
    hashing.update(bytes);
    hashing.finish()
}
