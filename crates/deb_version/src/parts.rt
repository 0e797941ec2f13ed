//! The parts of a version's text, and what may not stand in them.

ghost use Rattle.std.specs.Prelude.{◌≡◌, ◌+◌, ◌≤◌, ◌<◌, length, is_some, IfSome, unwrap_or, reverse, IsTrue};
ghost use Rattle.std.specs.Option.{option_copied};
ghost use Rattle.std.specs.List.{list_all};
ghost use Rattle.std.specs.Str.Parse.{AllDigits};
ghost use Rattle.deb_version.specs.Cuts.{is_digit};
ghost use Rattle.deb_version.specs.VersionText.{epoch_end, epoch_of, body_of, after_hyphen, upstream_in, revision_in, is_epoch as is_epoch_text, is_revision_byte as may_be_in_revision, is_upstream_byte as may_be_in_upstream, bad_in_upstream as first_bad_in_upstream, bad_in_revision as first_bad_in_revision, fault_of};

use crate::runs;
use crate::text::VersionFault;
use std::cmp::Ordering;

/// The largest epoch, in decimal.
const LARGEST_EPOCH: &[u8] = b"2147483647";

fn first_colon(text: &[u8]) -> Option<usize>
    ensures place { result ≡ epoch_end text.now }
    ensures inside { IfSome result (λ n. n < length text.now) }
{
    text.iter().position(|c| *c == b':')
}

fn bytes_after_last_hyphen(body: &[u8]) -> Option<usize>
    ensures count { result ≡ after_hyphen body.now }
    ensures inside { IfSome result (λ n. n < length body.now) }
{
    body.iter().rev().position(|c| *c == b'-')
}

/// What stands before the first colon, if there is one, and what follows it.
#[tactic(auto, unfolding(crate::specs::VersionText::epoch_of, crate::specs::VersionText::start_of))]
pub fn split_epoch(text: &[u8]) -> (Option<&[u8]>, &[u8])
    ensures epoch { option_copied result.0 ≡ epoch_of text.now }
    ensures body { result.1.now ≡ body_of text.now }
    ensures size { length result.1.now ≤ length text.now }
{
    match first_colon(text) {
        None => (None, text),
        Some(n) => (Some(&text[..n]), &text[n + 1..]),
    }
}

/// What stands before the last hyphen, and what follows it, if there is one.
#[tactic(auto, unfolding(crate::specs::VersionText::upstream_in, crate::specs::VersionText::revision_in))]
pub fn split_revision(body: &[u8]) -> (&[u8], Option<&[u8]>)
    ensures upstream { result.0.now ≡ upstream_in body.now }
    ensures revision { option_copied result.1 ≡ revision_in body.now }
    ensures upstream_size { length result.0.now ≤ length body.now }
    ensures revision_size { IfSome result.1 (λ revision. length revision.now ≤ length body.now) }
{
    match bytes_after_last_hyphen(body) {
        None => (body, None),
        Some(n) => {
            let end = body.len() - n;
            (&body[..end - 1], Some(&body[end..]))
        }
    }
}

#[tactic(auto, unfolding(crate::specs::Cuts::is_digit))]
fn all_digits(text: &[u8]) -> bool
    ensures { result ≡ list_all is_digit text.now }
{
    text.iter().all(|c| c.is_ascii_digit())
}

#[tactic(auto, unfolding(crate::specs::VersionText::is_epoch), using(crate::proofs::Epochs::all_digits_are))]
fn is_epoch(digits: &[u8]) -> bool
    ensures { result ≡ is_epoch_text digits.now }
{
    if digits.is_empty() || !all_digits(digits) {
        return false;
    }
    runs::compare_numbers(digits, LARGEST_EPOCH).is_le()
}

#[tactic(auto, unfolding(crate::specs::VersionText::is_revision_byte, crate::specs::Cuts::is_digit))]
fn is_revision_byte(c: u8) -> bool
    ensures { result ≡ may_be_in_revision c }
{
    c.is_ascii_alphanumeric() || c == b'.' || c == b'+' || c == b'~'
}

#[tactic(auto, unfolding(crate::specs::VersionText::is_upstream_byte))]
fn is_upstream_byte(has_epoch: bool, c: u8) -> bool
    ensures { result ≡ may_be_in_upstream has_epoch c }
{
    is_revision_byte(c) || c == b'-' || (has_epoch && c == b':')
}

#[tactic(auto, unfolding(crate::specs::VersionText::bad_in_upstream))]
fn bad_in_upstream(has_epoch: bool, upstream: &[u8]) -> Option<usize>
    ensures place { result ≡ first_bad_in_upstream has_epoch upstream.now }
    ensures inside { IfSome result (λ k. k < length upstream.now) }
{
    upstream
        .iter()
        .position(|c| !is_upstream_byte(has_epoch, *c))
}

#[tactic(auto, unfolding(crate::specs::VersionText::bad_in_revision))]
fn bad_in_revision(revision: &[u8]) -> Option<usize>
    ensures place { result ≡ first_bad_in_revision revision.now }
    ensures inside { IfSome result (λ k. k < length revision.now) }
{
    revision.iter().position(|c| !is_revision_byte(*c))
}

/// What keeps a text from being a version.
#[tactic(auto, unfolding(crate::specs::VersionText::fault_of))]
pub fn fault(text: &[u8]) -> Option<VersionFault>
    ensures { result ≡ fault_of text.now }
{
    let (epoch, body) = split_epoch(text);
    if let Some(digits) = epoch {
        if !is_epoch(digits) {
            return Some(VersionFault::BadEpoch);
        }
    }
    let (upstream, written) = split_revision(body);
    let revision = written.unwrap_or(b"");
    if upstream.is_empty() || (written.is_some() && revision.is_empty()) {
        return Some(VersionFault::Empty);
    }
    if let Some(k) = bad_in_upstream(epoch.is_some(), upstream) {
        return Some(VersionFault::BadByte((text.len() - body.len() + k) as u64));
    }
    if let Some(k) = bad_in_revision(revision) {
        return Some(VersionFault::BadByte((text.len() - revision.len() + k) as u64));
    }
    None
}
