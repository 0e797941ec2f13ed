ghost use Rattle.std.specs.Prelude.{◌≡◌, ◌+◌, ◌≤◌, ◌↔◌, length, not, is_some, IsTrue, IfOk, IfErr, IfSome, OnOk, string_bytes, ℕ, List, ◌==◌};
ghost use Rattle.std.specs.List.{position, position_or_len, list_any};
ghost use Rattle.std.specs.Ordering.{nat_cmp};
ghost use Rattle.std.specs.Cmp.Lexicographic.{slice_cmp};
ghost use Rattle.ap_text.specs.Faults.{IsPathFault};
ghost use Rattle.ap_text.specs.Paths.{segments, is_path_byte as path_byte, is_no_entry as no_entry, is_long_segment as long_segment, is_safe_path as safe_path, is_too_long as too_long, bad_place_in as bad_place_in_segment, bad_place_from, bad_place_of_path, is_below as lies_below, numbered, below_folder};

use crate::fault::TextFault;
use crate::name::Name;
use std::alloc::{AllocError, Global};
use std::cmp::Ordering;
use std::marker::Model;

fn is_path_byte(b: u8) -> bool
    ensures { result ≡ path_byte b }
{
    b >= 33 && b <= 126
}

/// Whether a segment is empty, `.` or `..`, which name no entry of a folder.
fn is_no_entry(segment: &[u8]) -> bool
    ensures { result ≡ no_entry segment.now }
{
    segment.is_empty() || segment == b".".as_slice() || segment == b"..".as_slice()
}

fn first_other(segment: &[u8]) -> Option<usize>
    ensures { result ≡ position (λ b. not (path_byte b)) segment.now }
{
    segment.iter().position(|b| !is_path_byte(*b))
}

fn bad_place_in(segment: &[u8]) -> Option<usize>
    ensures { result ≡ bad_place_in_segment segment.now }
{
    if is_no_entry(segment) {
        Some(0)
    } else {
        first_other(segment)
    }
}

fn has_long_segment(bytes: &[u8]) -> bool
    ensures { result ≡ list_any long_segment (segments bytes.now) }
{
    bytes
        .split(|b| *b == b'/')
        .any(|segment| segment.len() > 255)
}

fn is_too_long(bytes: &[u8]) -> bool
    ensures { result ≡ too_long bytes.now }
{
    bytes.len() > 1000 || has_long_segment(bytes)
}

fn next_slash(bytes: &[u8]) -> Option<usize>
    ensures { result ≡ position (λ b. b == 47) bytes.now }
{
    bytes.iter().position(|b| *b == b'/')
}

/// The length of the segment at the front.
fn segment_len(bytes: &[u8]) -> usize
    ensures { result ≡ position_or_len (λ b. b == 47) bytes.now }
{
    match next_slash(bytes) {
        Some(len) => len,
        None => bytes.len(),
    }
}

fn bad_place(bytes: &[u8]) -> Option<usize>
    requires { length bytes.now ≤ 1000 }
    ensures { result ≡ bad_place_of_path bytes.now }
{
    let mut start = 0;
    while start <= bytes.len() {
        let rest = &bytes[start..];
        let len = segment_len(rest);
        if let Some(place) = bad_place_in(&rest[..len]) {
            return Some(start + place);
        }
        start += len + 1;
    }
    None
}

/// The fault of a text as a safe path, want of memory apart.
fn fault_of(text: &str) -> Option<TextFault>
    ensures fault { IfSome result (IsPathFault text.now) }
    ensures good { is_some result ≡ not (safe_path text.now) }
{
    let bytes = text.as_bytes();
    if bytes.is_empty() {
        return Some(TextFault::Empty);
    }
    if is_too_long(bytes) {
        return Some(TextFault::TooLong);
    }
    match bad_place(bytes) {
        Some(place) => Some(TextFault::BadByte(place as u64)),
        None => None,
    }
}

/// Whether a text is a safe path: 1 to 1000 bytes of visible ASCII, in segments of 1 to 255 bytes between slashes, none
/// of which is `.` or `..`.
pub fn is_safe_path(text: &str) -> bool
    ensures { result ≡ safe_path text.now }
{
    fault_of(text).is_none()
}

fn numbered_text(alloc: Global, folder: &str, number: u64) -> Result<String, AllocError>
    ensures { IfOk result (λ text. string_bytes text ≡ numbered folder.now number) }
{
    format!(in alloc; "{}/{}", folder, number)
}

fn joined_text(alloc: Global, folder: &str, rest: &str) -> Result<String, AllocError>
    ensures { IfOk result (λ text. string_bytes text ≡ below_folder folder.now rest.now) }
{
    format!(in alloc; "{}/{}", folder, rest)
}

/// A path of the store or of the inbox, relative to its folder. It never leaves that folder.
#[derive(Drop)]
pub struct SafePath {
    text: String,
}

impl Model for SafePath {
    ghost Value = { List ℕ };

    ghost view = { λ p. string_bytes p.text };

    ghost invariant = { λ p. IsTrue (safe_path (string_bytes p.text)) };
}

impl SafePath {
    /// The path that a text is. Each fault comes exactly where its cause holds, and want of memory alone may keep a
    /// good text from being a path.
    pub fn new(alloc: Global, text: &str) -> Result<SafePath, TextFault>
        ensures ok { IfOk result (λ path. path ≡ text.now) }
        ensures good { OnOk result (IsTrue (safe_path text.now)) }
        ensures fault { IfErr result (IsPathFault text.now) }
    {
        if let Some(fault) = fault_of(text) {
            return Err(fault);
        }
        match String::from_str(alloc, text) {
            Ok(text) => Ok(SafePath { text }),
            Err(_) => Err(TextFault::OutOfMemory),
        }
    }

    /// A path that the program itself writes.
    pub fn fixed(alloc: Global, text: &str) -> Result<SafePath, AllocError>
        requires { IsTrue (safe_path text.now) }
        ensures { IfOk result (λ path. path ≡ text.now) }
    {
        let text = String::from_str(alloc, text)?;
        Ok(SafePath { text })
    }

    /// The path of one segment that a name is.
    pub fn of_name(alloc: Global, name: &Name) -> Result<SafePath, AllocError>
        ensures { IfOk result (λ path. path ≡ name.now) }
    {
        let text = String::from_str(alloc, name.as_str())?;
        Ok(SafePath { text })
    }

    /// The path of a numbered file of a folder.
    pub fn numbered(alloc: Global, folder: &SafePath, number: u64) -> Result<SafePath, AllocError>
        requires { length folder.now ≤ 900 }
        ensures { IfOk result (λ path. path ≡ numbered folder.now number) }
    {
        let text = numbered_text(alloc, folder.as_str(), number)?;
        Ok(SafePath { text })
    }

    /// The path of what stands at another path below a folder.
    pub fn joined(alloc: Global, folder: &SafePath, rest: &SafePath) -> Result<SafePath, AllocError>
        requires { length (below_folder folder.now rest.now) ≤ 1000 }
        ensures { IfOk result (λ path. path ≡ below_folder folder.now rest.now) }
    {
        let text = joined_text(alloc, folder.as_str(), rest.as_str())?;
        Ok(SafePath { text })
    }

    /// The text, which is a safe path.
    pub fn as_str(&self) -> &str
        ensures text { result.now ≡ self.now }
        ensures good { IsTrue (safe_path self.now) }
    {
        self.text.as_str()
    }

    /// An equal path.
    pub fn copy(&self, alloc: Global) -> Result<SafePath, AllocError>
        ensures { IfOk result (λ path. path ≡ self.now) }
    {
        let text = String::from_str(alloc, self.text.as_str())?;
        Ok(SafePath { text })
    }

    /// Whether the two are one path.
    pub fn is(&self, other: &SafePath) -> bool
        ensures { IsTrue result ↔ (self.now ≡ other.now) }
    {
        self.text.as_str() == other.text.as_str()
    }

    /// The order by bytes.
    pub fn order(&self, other: &SafePath) -> Ordering
        ensures { result ≡ slice_cmp nat_cmp self.now other.now }
    {
        self.text.as_str().cmp(other.text.as_str())
    }

    /// Whether the path lies below a folder, at any depth.
    pub fn is_below(&self, folder: &SafePath) -> bool
        ensures { result ≡ lies_below folder.now self.now }
    {
        let path = self.text.as_bytes();
        let folder = folder.text.as_bytes();
        path.starts_with(folder) && path.len() > folder.len() && path[folder.len()] == b'/'
    }
}
