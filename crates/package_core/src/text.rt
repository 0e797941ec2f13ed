//! The text of a package.
ghost use Rattle.std.specs.Prelude.{◌≡◌, ◌++◌, IfOk, OnOk, OnErr, unwrap_or, [], take, length};
ghost use Rattle.std.specs.Str.{IsUtf8};
ghost use Rattle.hex.specs.Hex.{encode_lower};
ghost use Rattle.package_core.specs.Card.{line, file_text, package_text};

use crate::package::Package;
use crate::sizes::has_sizes;
use ap_text::SafePath;
use control_stanza::{Text, write_stanza};
use digest_set::{Digits, Said};
use std::alloc::{AllocError, Global};

#[tactic(auto, using(std::proofs::Common::append_assoc))]
fn put_line(out: &mut Vec<u8>, name: &str, value: &str) -> Result<(), AllocError>
    ensures kept { take (length out.old.items) out.new.items ≡ out.old.items }
    ensures ok { OnOk result (out.new.items ≡ out.old.items ++ line name.now value.now) }
{
    out.extend_from_slice(name.as_bytes())?;
    out.extend_from_slice(b": ")?;
    out.extend_from_slice(value.as_bytes())?;
    out.push(b'\n')?;
    Ok(())
}

fn put_digest(out: &mut Vec<u8>, name: &str, digest: &[u8]) -> Result<(), AllocError>
    ensures kept { take (length out.old.items) out.new.items ≡ out.old.items }
    ensures ok { OnOk result (out.new.items ≡ out.old.items ++ line name.now (encode_lower digest.now)) }
{
    let digits = Digits::hexadecimal(*out.allocator(), digest)?;
    put_line(out, name, digits.as_str())
}

fn bytes_of<const N: usize>(digest: &Option<[u8; N]>) -> &[u8]
    ensures { result.now ≡ unwrap_or digest.now [] }
{
    match digest {
        Some(bytes) => bytes,
        None => b"",
    }
}

/// What is known of a file, each fact on a line of its own.
#[tactic(auto, unfolding(crate::specs::Card::file_text), using(std::proofs::Common::append_assoc))]
fn put_lines(out: &mut Vec<u8>, path: &SafePath, said: &Said) -> Result<(), AllocError>
    ensures kept { take (length out.old.items) out.new.items ≡ out.old.items }
    ensures ok { OnOk result (out.new.items ≡ out.old.items ++ file_text path.now said.now) }
{
    put_line(out, "Filename", path.as_str())?;
    let size = Digits::decimal(*out.allocator(), said.size)?;
    put_line(out, "Size", size.as_str())?;
    put_digest(out, "MD5sum", bytes_of(&said.md5))?;
    put_digest(out, "SHA1", bytes_of(&said.sha1))?;
    put_digest(out, "SHA256", &said.sha256)
}

/// Appends the lines `Filename`, `Size`, `MD5sum`, `SHA1` and `SHA256` on a file at a path, digests in lower case. They are
/// meant for a file of which all four facts are known: a digest that isn't has a line without digits. For want of memory
/// nothing is appended.
pub fn put_file_lines(out: &mut Vec<u8>, path: &SafePath, said: &Said) -> Result<(), AllocError>
    ensures ok { OnOk result (out.new.items ≡ out.old.items ++ file_text path.now said.now) }
    ensures err { OnErr result (out.new.items ≡ out.old.items) }
{
    let before = out.len();
    match put_lines(out, path, said) {
        Ok(()) => Ok(()),
        Err(error) => {
            out.truncate(before);
            Err(error)
        }
    }
}

/// The lines on a file are UTF-8: the path is visible, and digits are ASCII.
fn are_text(path: &SafePath, said: &Said)
    ensures { IsUtf8 (file_text path.now said.now) }
{
    let _ = path.as_str();
    has_sizes(said);
}

#[tactic(auto, unfolding(crate::specs::Card::package_text))]
pub(crate) fn text_of(alloc: Global, of: &Package) -> Result<Text, AllocError>
    ensures { IfOk result (λ text. text ≡ package_text of.now) }
{
    // The fields are a stanza's, so their text is UTF-8.
    let _ = of.stanza.fields();
    are_text(&of.file, &of.said);
    let mut bytes = Vec::new(alloc);
    write_stanza(&mut bytes, &of.stanza)?;
    put_file_lines(&mut bytes, &of.file, &of.said)?;
    let text = String::from_utf8_lossy(alloc, &bytes)?;
    Text::new(alloc, text.as_str())
}
