//! The date of a Release.
ghost use Rattle.std.specs.Prelude.{◌≡◌, false, true, IfOk, MatchOption};
ghost use Rattle.std.specs.List.{list_all};
ghost use Rattle.std.specs.Prelude.{not, ◌==◌};
ghost use Rattle.release_file.specs.Release.{is_date as date};

use control_stanza::Text;
use std::alloc::{AllocError, Global};

fn has_one_line(bytes: &[u8]) -> bool
    ensures { result ≡ list_all (λ b. not (b == 10)) bytes.now }
{
    bytes.iter().all(|b| *b != b'\n')
}

/// Whether a text is one line of at most 200 bytes.
fn is_date(text: &str) -> bool
    ensures { result ≡ date text.now }
{
    text.len() <= 200 && has_one_line(text.as_bytes())
}

/// The date that a text is, where it is one line of at most 200 bytes.
pub(crate) fn read_date(alloc: Global, text: &str) -> Result<Option<Text>, AllocError>
    ensures { IfOk result (λ o. MatchOption o (date text.now ≡ false) (λ made. (date text.now ≡ true) × (made ≡ text.now))) }
{
    if !is_date(text) {
        return Ok(None);
    }
    Ok(Some(Text::new(alloc, text)?))
}
