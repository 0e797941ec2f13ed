//! Sizes and digests as texts.

ghost use Rattle.std.specs.Prelude.{◌≡◌, ◌↔◌, ◌*◌, length, IfOk, IsTrue, IsSome};
ghost use Rattle.std.specs.Fmt.{decimal as decimal_text};
ghost use Rattle.std.specs.List.{AllPass};
ghost use Rattle.std.specs.Ordering.{nat_cmp};
ghost use Rattle.std.specs.Result.{result_ok};
ghost use Rattle.std.specs.Cmp.Lexicographic.{slice_cmp};
ghost use Rattle.hex.specs.Hex.{encode_lower, decode_sized, is_hex_digit};

use hex::FromHex;
use std::alloc::{AllocError, Global};
use std::cmp::Ordering;
use std::marker::Model;

/// A size in decimal, or a digest in lower case hexadecimal.
#[derive(Drop)]
pub struct Digits {
    text: String,
}

impl Model for Digits {
    ghost use Rattle.std.specs.Prelude.{ℕ, List, string_bytes};

    ghost Value = { List ℕ };

    ghost view = { λ d. string_bytes d.text };
}

impl Digits {
    /// A number in decimal.
    pub fn decimal(alloc: Global, number: u64) -> Result<Digits, AllocError>
        ensures { IfOk result (λ digits. digits ≡ decimal_text number) }
    {
        let text = format!(in alloc; "{}", number)?;
        Ok(Digits { text })
    }

    /// Bytes in lower case hexadecimal, two digits each.
    pub fn hexadecimal(alloc: Global, bytes: &[u8]) -> Result<Digits, AllocError>
        ensures { IfOk result (λ digits. digits ≡ encode_lower bytes.now) }
    {
        let text = hex::encode(alloc, bytes)?;
        Ok(Digits { text })
    }

    /// The digits as text.
    pub fn as_str(&self) -> &str
        ensures { result.now ≡ self.now }
    {
        self.text.as_str()
    }

    /// The same digits once more.
    pub fn copy(&self, alloc: Global) -> Result<Digits, AllocError>
        ensures { IfOk result (λ digits. digits ≡ self.now) }
    {
        let text = String::from_str(alloc, self.text.as_str())?;
        Ok(Digits { text })
    }

    /// Whether the two are the same text.
    pub fn is(&self, other: &Digits) -> bool
        ensures { IsTrue result ↔ (self.now ≡ other.now) }
    {
        self.text.as_str() == other.text.as_str()
    }

    /// The order of the two texts by bytes.
    pub fn order(&self, other: &Digits) -> Ordering
        ensures { result ≡ slice_cmp nat_cmp self.now other.now }
    {
        self.text.as_str().cmp(other.text.as_str())
    }
}

/// Reads a digest of `N` bytes from twice as many hexadecimal digits, of either case.
pub fn digest_of_hex<const N: usize>(text: &str) -> Option<[u8; N]>
    ensures value { result ≡ result_ok (decode_sized text.now N) }
    ensures found { IsSome result ↔ ((length text.now ≡ 2 * N) × AllPass is_hex_digit text.now) }
{
    <[u8; N] as FromHex>::from_hex(text).ok()
}
