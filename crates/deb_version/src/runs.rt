//! The order of two upstream versions, or of two revisions, run by run.

ghost use Rattle.std.specs.Prelude.{◌≡◌, ◌≢◌, ◌≤◌, length, slice_index};
ghost use Rattle.std.specs.Ordering.{nat_cmp};
ghost use Rattle.std.specs.Cmp.Lexicographic.{slice_cmp};
ghost use Rattle.std.specs.Str.Parse.{digits_value, AllDigits};
ghost use Rattle.std.specs.List.{prefix_len};
ghost use Rattle.deb_version.specs.Cuts.{is_digit, is_non_digit, rank, ranks, part_cmp, front, after, first_cut, later, cut_cmp};

use std::cmp::Ordering;

#[tactic(auto, unfolding(crate::specs::Cuts::is_digit))]
fn digits_len(a: &[u8]) -> usize
    ensures value { result ≡ prefix_len is_digit a.now }
    ensures inside { result ≤ length a.now }
{
    let mut n = 0;
    for c in a {
        if !c.is_ascii_digit() {
            return n;
        }
        n += 1;
    }
    n
}

#[tactic(auto, unfolding(crate::specs::Cuts::is_digit))]
fn non_digits_len(a: &[u8]) -> usize
    ensures value { result ≡ prefix_len is_non_digit a.now }
    ensures inside { result ≤ length a.now }
{
    let mut n = 0;
    for c in a {
        if c.is_ascii_digit() {
            return n;
        }
        n += 1;
    }
    n
}

#[tactic(auto, unfolding(crate::specs::Cuts::rank))]
fn rank_of(c: u8) -> u32
    ensures value { result ≡ rank c }
    ensures inside { result ≢ 1 }
{
    match c {
        b'~' => 0,
        b'A'..=b'Z' | b'a'..=b'z' => c as u32 + 2,
        _ => c as u32 + 258,
    }
}

fn compare_runs(a: &[u8], b: &[u8]) -> Ordering
    ensures { result ≡ slice_cmp nat_cmp (ranks a.now) (ranks b.now) }
{
    let mut left = a;
    let mut right = b;
    loop {
        match (left, right) {
            ([], []) => return Ordering::Equal,
            ([], [y, ..]) => return 1.cmp(&rank_of(*y)),
            ([x, ..], []) => return rank_of(*x).cmp(&1),
            ([x, xs @ ..], [y, ys @ ..]) => {
                let order = rank_of(*x).cmp(&rank_of(*y));
                if order != Ordering::Equal {
                    return order;
                }
                left = xs;
                right = ys;
            }
        }
    }
}

fn without_zeros(digits: &[u8]) -> &[u8]
    requires { AllDigits 10 digits.now }
    ensures digits { AllDigits 10 result.now }
    ensures value { digits_value 10 result.now ≡ digits_value 10 digits.now }
    ensures front { slice_index result.now 0 ≢ 48 }
{
    let mut rest = digits;
    while let [b'0', others @ ..] = rest {
        rest = others;
    }
    rest
}

pub fn compare_numbers(a: &[u8], b: &[u8]) -> Ordering
    requires first { AllDigits 10 a.now }
    requires second { AllDigits 10 b.now }
    ensures { result ≡ nat_cmp (digits_value 10 a.now) (digits_value 10 b.now) }
{
    let a = without_zeros(a);
    let b = without_zeros(b);
    if a.len() != b.len() {
        return a.len().cmp(&b.len());
    }
    a.cmp(b)
}

#[tactic(auto, using(crate::proofs::CutSteps::front_is, crate::proofs::CutSteps::after_is))]
fn take_run(part: &[u8]) -> (&[u8], &[u8])
    ensures run { result.0.now ≡ front is_non_digit part.now }
    ensures rest { result.1.now ≡ after is_non_digit part.now }
{
    let n = non_digits_len(part);
    part.split_at(n)
}

#[tactic(auto, using(crate::proofs::CutSteps::front_is, crate::proofs::CutSteps::after_is, crate::proofs::CutSteps::front_digits))]
fn take_digits(part: &[u8]) -> (&[u8], &[u8])
    ensures digits { result.0.now ≡ front is_digit part.now }
    ensures numbers { AllDigits 10 result.0.now }
    ensures rest { result.1.now ≡ after is_digit part.now }
{
    let n = digits_len(part);
    part.split_at(n)
}

#[tactic(auto, unfolding(crate::specs::Cuts::first_cut, crate::specs::Cuts::later))]
/// The first runs of two parts, and what follows them.
fn compare_first<'a, 'b>(a: &'a [u8], b: &'b [u8]) -> (Ordering, &'a [u8], &'b [u8])
    ensures order { result.0 ≡ cut_cmp (first_cut a.now) (first_cut b.now) }
    ensures first { result.1.now ≡ later a.now }
    ensures second { result.2.now ≡ later b.now }
{
    let (run, a_rest) = take_run(a);
    let (other_run, b_rest) = take_run(b);
    let (digits, a_rest) = take_digits(a_rest);
    let (other_digits, b_rest) = take_digits(b_rest);
    let order = compare_runs(run, other_run).then(compare_numbers(digits, other_digits));
    (order, a_rest, b_rest)
}

/// Parts of a version, run by run.
pub fn compare_parts(a: &[u8], b: &[u8]) -> Ordering
    ensures { result ≡ part_cmp a.now b.now }
{
    let mut left = a;
    let mut right = b;
    while !left.is_empty() || !right.is_empty() {
        let (order, a_rest, b_rest) = compare_first(left, right);
        match order {
            Ordering::Equal => {}
            other => return other,
        }
        left = a_rest;
        right = b_rest;
    }
    Ordering::Equal
}
