//! Quoted values.

ghost use Rattle.std.specs.Prelude.{◌≡◌, ◌-◌, false, length, take, IfOk};
ghost use Rattle.std.specs.Str.{IsUtf8};
ghost use Rattle.query_tree.specs.Pieces.{unquoted as meant, quoted_value};

use control_stanza::Text;
use std::alloc::{AllocError, Global};
use std::str;

/// The bytes between two quotes as they are meant.
fn unquoted(alloc: Global, quote: u8, text: &[u8]) -> Result<Vec<u8>, AllocError>
    ensures { IfOk result (λ v. v.items ≡ meant quote false text.now) }
{
    let mut bytes = Vec::new(alloc);
    let mut escaped = false;
    for c in text {
        if escaped && *c != quote && *c != b'\\' {
            bytes.push(b'\\')?;
        }
        escaped = !escaped && *c == b'\\';
        if !escaped {
            bytes.push(*c)?;
        }
    }
    if escaped {
        bytes.push(b'\\')?;
    }
    Ok(bytes)
}

/// What a quoted value means, its quotes among the text.
pub(crate) fn quoted(alloc: Global, text: &str) -> Result<Text, AllocError>
    requires { IsUtf8 (quoted_value text.now) }
    ensures { IfOk result (λ value. value ≡ quoted_value text.now) }
{
    let bytes = match text.as_bytes() {
        [] => Vec::new(alloc),
        [quote, inner @ ..] => unquoted(alloc, *quote, &inner[..inner.len().saturating_sub(1)])?,
    };
    match str::from_utf8(&bytes) {
        Ok(value) => Text::new(alloc, value),
        Err(_) => unreachable!(),
    }
}
