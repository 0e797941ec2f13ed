//! Lines of text.
ghost use Rattle.std.specs.Prelude.{◌≡◌};
ghost use Rattle.std.specs.List.{list_all};
ghost use Rattle.machine_state.specs.State.{is_line as line, is_line_byte as line_byte, is_line_text as line_text};

fn are_line_bytes(bytes: &[u8]) -> bool
    ensures { result ≡ list_all line_byte bytes.now }
{
    bytes.iter().all(|b| *b >= 32 && *b != 127)
}

/// Whether the bytes can be a line of text: at most 200 bytes, no control character, no blank at either end. Whether they are UTF-8
/// isn't asked.
pub fn is_line(bytes: &[u8]) -> bool
    ensures { result ≡ line bytes.now }
{
    bytes.len() <= 200
        && are_line_bytes(bytes)
        && (bytes.is_empty() || bytes[0] != 32)
        && (bytes.is_empty() || bytes[bytes.len() - 1] != 32)
}

/// Whether the text is a line of text: at most 200 bytes, no control character, no blank at either end. The empty text is one.
pub fn is_line_text(text: &str) -> bool
    ensures { result ≡ line_text text.now }
{
    is_line(text.as_bytes())
}
