//! What is said of a byte list beside what was found.

ghost use Rattle.std.specs.Prelude.{◌≡◌, IfOk, Option, nat_eq, bytes_eq};
ghost use Rattle.std.specs.Option.{option_copied};
ghost use Rattle.std.specs.Fmt.{decimal};
ghost use Rattle.hex.specs.Hex.{encode_lower};
ghost use Rattle.digest_set.specs.Difference.{difference, otherwise};

use crate::facts::{Digests, Said, What};
use crate::written::Digits;
use std::alloc::{AllocError, Global};

type Difference = (What, Digits, Digits);

fn of_sizes(alloc: Global, said: u64, found: u64) -> Result<Option<Difference>, AllocError>
    ensures value { IfOk result (λ differing. differing ≡ otherwise nat_eq decimal What.Size (Some said) found) }
    ensures agree { said ≡ found → result ≡ Ok None }
{
    if said == found {
        return Ok(None);
    }
    let said = Digits::decimal(alloc, said)?;
    let found = Digits::decimal(alloc, found)?;
    Ok(Some((What::Size, said, found)))
}

fn of_digests(
    alloc: Global,
    what: What,
    said: Option<&[u8]>,
    found: &[u8],
) -> Result<Option<Difference>, AllocError>
    ensures value { IfOk result (λ differing. differing ≡ otherwise bytes_eq encode_lower what (option_copied said.entry) found.now) }
    ensures agree { otherwise bytes_eq encode_lower what (option_copied said.entry) found.now ≡ None → result ≡ Ok None }
{
    let Some(said) = said else {
        return Ok(None);
    };
    if said == found {
        return Ok(None);
    }
    let said = Digits::hexadecimal(alloc, said)?;
    let found = Digits::hexadecimal(alloc, found)?;
    Ok(Some((what, said, found)))
}

/// The first difference between what is said and what was found, in the order of [`What`], as said and as found.
///
/// Sizes are decimal, digests lower case hexadecimal. A digest that isn't said never differs.
#[tactic(auto, unfolding(crate::specs::Difference::difference))]
pub fn mismatch(
    alloc: Global,
    said: &Said,
    found: &Digests,
) -> Result<Option<(What, Digits, Digits)>, AllocError>
    ensures first { IfOk result (λ difference_found. difference_found ≡ difference said.now found.now) }
    ensures agree { difference said.now found.now ≡ None → result ≡ Ok None }
{
    if let Some(sizes) = of_sizes(alloc, said.size, found.size)? {
        return Ok(Some(sizes));
    }
    if let Some(digests) = of_digests(alloc, What::Sha256, Some(&said.sha256), &found.sha256)? {
        return Ok(Some(digests));
    }
    let sha1 = said.sha1.as_ref().map(|d| d.as_slice());
    if let Some(digests) = of_digests(alloc, What::Sha1, sha1, &found.sha1)? {
        return Ok(Some(digests));
    }
    let md5 = said.md5.as_ref().map(|d| d.as_slice());
    of_digests(alloc, What::Md5, md5, &found.md5)
}
