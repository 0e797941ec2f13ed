//! What the types of a file's facts say of their values.
ghost use Rattle.std.specs.Prelude.{◌≡◌, ◌<◌, ◌^◌, IfSome};
ghost use Rattle.hex.specs.Hex.{IsBytes};
ghost use Rattle.package_core.specs.Card.{said_of};
ghost use Rattle.package_core.specs.Whole.{IsDigest, IsSaid};

use digest_set::{Digests, Said};

fn are_bytes(bytes: &[u8])
    ensures { IsBytes bytes.now }
{}

/// A digest has as many bytes as its type says.
pub(crate) fn has_size<const N: usize>(digest: [u8; N])
    ensures { IsDigest N digest.entry }
{
    are_bytes(&digest);
}

/// A size is below 2^64.
pub(crate) fn is_small(size: u64)
    ensures { size < 2 ^ 64 }
{}

fn has_size_if_said<const N: usize>(digest: Option<[u8; N]>)
    ensures { IfSome digest.entry (IsDigest N) }
{
    match digest {
        None => {}
        Some(digest) => has_size(digest),
    }
}

/// What is said of a file has the sizes that its type says.
pub(crate) fn has_sizes(said: &Said)
    ensures { IsSaid said.now }
{
    is_small(said.size);
    has_size(said.sha256);
    has_size_if_said(said.sha1);
    has_size_if_said(said.md5);
}

/// What was found of a file, as it is said in a package.
pub(crate) fn as_said(found: &Digests) -> Said
    ensures is { result ≡ said_of found.now }
    ensures sizes { IsSaid result }
{
    is_small(found.size);
    has_size(found.sha256);
    has_size(found.sha1);
    has_size(found.md5);
    Said {
        size: found.size,
        sha256: found.sha256,
        sha1: Some(found.sha1),
        md5: Some(found.md5),
    }
}
