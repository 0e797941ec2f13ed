ghost use Rattle.std.specs.Prelude.{◌≡◌, ◌≢◌, ◌<◌, ◌^◌, ◌++◌, ℕ, OnOk, OnErr, IfSome, None};
ghost use Rattle.std.specs.List.{list_all};
ghost use Rattle.std.specs.Fmt.{decimal};
ghost use Rattle.ap_text.specs.Decimals.{is_digit as digit, has_number_form as number_form};

use std::alloc::AllocError;

/// Appends the decimal digits of a number, without leading zeros. On an error the bytes are as they were.
pub fn write_decimal(out: &mut Vec<u8>, n: u64) -> Result<(), AllocError>
    ensures written { OnOk result (out.new.items ≡ out.old.items ++ decimal n) }
    ensures unchanged { OnErr result (out.new.items ≡ out.old.items) }
{
    let digits = n.to_string(*out.allocator())?;
    out.extend_from_slice(digits.as_bytes())
}

fn is_digit(b: u8) -> bool
    ensures { result ≡ digit b }
{
    b >= b'0' && b <= b'9'
}

fn all_digits(text: &[u8]) -> bool
    ensures { result ≡ list_all digit text.now }
{
    text.iter().all(|b| is_digit(*b))
}

/// Whether a text is digits as a number is written, of whatever value.
#[tactic(auto, unfolding(crate::specs::Decimals::has_number_form))]
fn has_number_form(text: &[u8]) -> bool
    ensures { result ≡ number_form text.now }
{
    !text.is_empty() && all_digits(text) && (text.len() == 1 || text[0] != b'0')
}

/// The number whose decimal digits, as [`write_decimal`] writes them, a text is: without sign, without leading zeros,
/// and below 2^64. It takes no memory.
pub fn read_decimal(text: &str) -> Option<u64>
    ensures found { IfSome result (λ n. text.now ≡ decimal n) }
    ensures small { IfSome result (λ n. n < 2 ^ 64) }
    ensures none { result ≡ None → (n : ℕ) → n < 2 ^ 64 → text.now ≢ decimal n }
{
    if !has_number_form(text.as_bytes()) {
        return None;
    }
    text.parse().ok()
}
