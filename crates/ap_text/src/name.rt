ghost use Rattle.std.specs.Prelude.{◌≡◌, ◌<◌, ◌↔◌, length, IsTrue, IfOk, IfErr, IfSome, OnOk, is_some, string_bytes, ℕ, List, not, ◌==◌};
ghost use Rattle.std.specs.List.{position, list_all};
ghost use Rattle.std.specs.Ordering.{nat_cmp};
ghost use Rattle.std.specs.Cmp.Lexicographic.{slice_cmp};
ghost use Rattle.ap_text.specs.Faults.{IsNameFault};
ghost use Rattle.ap_text.specs.Names.{is_alphanumeric as alphanumeric, is_name_byte as name_byte, is_name as name, is_package_name as package_name, is_architecture as architecture, is_component as component, bad_place_of_name};

use crate::fault::TextFault;
use std::alloc::{AllocError, Global};
use std::cmp::Ordering;
use std::marker::Model;

fn is_alphanumeric(b: u8) -> bool
    ensures { result ≡ alphanumeric b }
{
    matches!(b, b'0'..=b'9' | b'A'..=b'Z' | b'a'..=b'z')
}

fn is_name_byte(b: u8) -> bool
    ensures { result ≡ name_byte b }
{
    is_alphanumeric(b) || b == b'+' || b == b'-' || b == b'.' || b == b'_'
}

fn first_other(bytes: &[u8]) -> Option<usize>
    ensures { result ≡ position (λ b. not (name_byte b)) bytes.now }
{
    bytes.iter().position(|b| !is_name_byte(*b))
}

fn has_no_underscore(bytes: &[u8]) -> bool
    ensures { result ≡ list_all (λ b. not (b == 95)) bytes.now }
{
    bytes.iter().all(|b| *b != b'_')
}

fn bad_place(bytes: &[u8]) -> Option<usize>
    requires { 0 < length bytes.now }
    ensures { result ≡ bad_place_of_name bytes.now }
{
    if is_alphanumeric(bytes[0]) {
        first_other(bytes)
    } else {
        Some(0)
    }
}

/// The fault of a text as a name, want of memory apart.
fn fault_of(text: &str) -> Option<TextFault>
    ensures fault { IfSome result (IsNameFault text.now) }
    ensures good { is_some result ≡ not (name text.now) }
{
    let bytes = text.as_bytes();
    if bytes.is_empty() {
        return Some(TextFault::Empty);
    }
    if bytes.len() > 200 {
        return Some(TextFault::TooLong);
    }
    match bad_place(bytes) {
        Some(place) => Some(TextFault::BadByte(place as u64)),
        None => None,
    }
}

/// Whether a text is a name: 1 to 200 bytes of letters, digits and `+ - . _`, the first a letter or a digit.
pub fn is_name(text: &str) -> bool
    ensures { result ≡ name text.now }
{
    fault_of(text).is_none()
}

/// Whether a text is the name of a package: a name of two bytes at least and without `_` (Debian Policy 5.6.1, which
/// asks for lower case besides).
pub fn is_package_name(text: &str) -> bool
    ensures { result ≡ package_name text.now }
{
    is_name(text) && text.len() >= 2 && has_no_underscore(text.as_bytes())
}

/// Whether a text is an architecture: a name other than `source`, which stands for source packages (Debian Policy 5.6.8).
/// `all` is one.
pub fn is_architecture(text: &str) -> bool
    ensures { result ≡ architecture text.now }
{
    is_name(text) && text != "source"
}

/// Whether a text is a component: a name other than `Release`, which is the file beside the components of a distribution.
pub fn is_component(text: &str) -> bool
    ensures { result ≡ component text.now }
{
    is_name(text) && text != "Release"
}

/// A name: of a package, an architecture, a component, a distribution or a member of the store.
#[derive(Drop)]
pub struct Name {
    text: String,
}

impl Model for Name {
    ghost Value = { List ℕ };

    ghost view = { λ n. string_bytes n.text };

    ghost invariant = { λ n. IsTrue (name (string_bytes n.text)) };
}

impl Name {
    /// The name that a text is. Each fault comes exactly where its cause holds, and want of memory alone may keep a
    /// good text from being a name.
    pub fn new(alloc: Global, text: &str) -> Result<Name, TextFault>
        ensures ok { IfOk result (λ name. name ≡ text.now) }
        ensures good { OnOk result (IsTrue (name text.now)) }
        ensures fault { IfErr result (IsNameFault text.now) }
    {
        if let Some(fault) = fault_of(text) {
            return Err(fault);
        }
        match String::from_str(alloc, text) {
            Ok(text) => Ok(Name { text }),
            Err(_) => Err(TextFault::OutOfMemory),
        }
    }

    /// The text, which is a name.
    pub fn as_str(&self) -> &str
        ensures text { result.now ≡ self.now }
        ensures good { IsTrue (name self.now) }
    {
        self.text.as_str()
    }

    /// An equal name.
    pub fn copy(&self, alloc: Global) -> Result<Name, AllocError>
        ensures { IfOk result (λ name. name ≡ self.now) }
    {
        let text = String::from_str(alloc, self.text.as_str())?;
        Ok(Name { text })
    }

    /// Whether the two are one name.
    pub fn is(&self, other: &Name) -> bool
        ensures { IsTrue result ↔ (self.now ≡ other.now) }
    {
        self.text.as_str() == other.text.as_str()
    }

    /// The order by bytes.
    pub fn order(&self, other: &Name) -> Ordering
        ensures { result ≡ slice_cmp nat_cmp self.now other.now }
    {
        self.text.as_str().cmp(other.text.as_str())
    }
}
