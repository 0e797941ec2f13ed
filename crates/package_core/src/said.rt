//! What a stanza says of the package's file.
ghost use Rattle.std.specs.Prelude.{◌≡◌, ◌<◌, ◌^◌, IfOk, IfSome, Some, not};
ghost use Rattle.std.specs.Option.{option_copied, option_and_then};
ghost use Rattle.std.specs.Str.Parse.{digits_value};
ghost use Rattle.ap_text.specs.Decimals.{is_number};
ghost use Rattle.package_core.specs.Fields.{is_digest, digest, is_other};
ghost use Rattle.package_core.specs.Answers.{Reads};
ghost use Rattle.package_core.specs.Whole.{IsDigest};

use crate::fault::PackageFault;
use crate::sizes::has_size;
use ap_text::read_decimal;
use digest_set::digest_of_hex;

/// The number that a field Size gives.
pub(crate) fn read_size(text: &str) -> Result<u64, PackageFault>
    ensures read { Reads PackageFault.BadNumber (is_number text.now) (λ n. n ≡ digits_value 10 text.now) result }
    ensures small { IfOk result (λ n. n < 2 ^ 64) }
{
    match read_decimal(text) {
        Some(number) => Ok(number),
        None => Err(PackageFault::BadNumber),
    }
}

/// The digest of `N` bytes that a field gives.
pub(crate) fn read_digest<const N: usize>(text: &str) -> Result<[u8; N], PackageFault>
    ensures read { Reads PackageFault.BadDigest (is_digest N text.now) (λ bytes. digest N text.now ≡ Some bytes) result }
    ensures sized { IfOk result (IsDigest N) }
{
    match digest_of_hex::<N>(text) {
        Some(bytes) => {
            has_size(bytes);
            Ok(bytes)
        }
        None => Err(PackageFault::BadDigest),
    }
}

/// The digest that a field gives, if it is there.
pub(crate) fn read_optional<const N: usize>(
    text: Option<&str>,
) -> Result<Option<[u8; N]>, PackageFault>
    ensures read { Reads PackageFault.BadDigest (not (is_other (is_digest N) (option_copied text.entry))) (λ found. found ≡ option_and_then (digest N) (option_copied text.entry)) result }
    ensures sized { IfOk result (λ found. IfSome found (IsDigest N)) }
{
    match text {
        None => Ok(None),
        Some(text) => Ok(Some(read_digest::<N>(text)?)),
    }
}
