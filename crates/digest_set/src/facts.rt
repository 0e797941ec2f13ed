//! What is known of a byte list, and what is said of one.

ghost use Rattle.std.specs.Prelude.{◌≡◌};

/// The four facts of a byte list.
#[derive(Clone, Copy, Debug, PartialEq, Eq)]
pub struct Digests {
    /// The size in bytes.
    pub size: u64,
    /// The MD5 (RFC 1321).
    pub md5: [u8; 16],
    /// The SHA-1 (FIPS 180-4).
    pub sha1: [u8; 20],
    /// The SHA-256 (FIPS 180-4).
    pub sha256: [u8; 32],
}

/// What an index says of a file: its size and its SHA-256, and maybe the two older digests.
#[derive(Clone, Copy, Debug, PartialEq, Eq)]
pub struct Said {
    /// The size in bytes.
    pub size: u64,
    /// The SHA-256 (FIPS 180-4).
    pub sha256: [u8; 32],
    /// The SHA-1 (FIPS 180-4), if it is said.
    pub sha1: Option<[u8; 20]>,
    /// The MD5 (RFC 1321), if it is said.
    pub md5: Option<[u8; 16]>,
}

/// The fact in which two differ, in the order in which they are compared.
#[derive(Clone, Copy, Debug, PartialEq, Eq)]
pub enum What {
    /// The size in bytes.
    Size,
    /// The SHA-256 (FIPS 180-4).
    Sha256,
    /// The SHA-1 (FIPS 180-4).
    Sha1,
    /// The MD5 (RFC 1321).
    Md5,
}

impl Digests {
    /// The same facts once more.
    pub fn copy(&self) -> Digests
        ensures { result ≡ self.now }
    {
        *self
    }
}

impl Said {
    /// The same once more.
    pub fn copy(&self) -> Said
        ensures { result ≡ self.now }
    {
        *self
    }
}

impl What {
    /// The same fact once more.
    pub fn copy(&self) -> What
        ensures { result ≡ self.now }
    {
        *self
    }
}
