//! What two texts of identifiers have in common at their start, and what decides their order after it.
//!
//! `#[inline(always)]`: these are the steps of one comparison.
ghost use Rattle.std.specs.Prelude.{◌≡◌, ◌≤◌, length, take};
ghost use Rattle.semver_texts.specs.Private.CommonStarts as CommonStarts;
ghost use Rattle.semver_texts.specs.Private.CommonStarts.{IsCommon, IsStart};

use crate::parse::number::is_digit;

// How many bytes both texts begin with alike.
#[inline(always)]
pub(crate) fn common_length(a: &[u8], b: &[u8]) -> usize
    ensures { IsCommon a.now b.now result }
{
    let both = a.len().min(b.len());
    'alike: for i in 0..both {
        if a[i] != b[i] {
            return i;
        }
    }
    both
}

// Where the last identifier of the text starts: after its last dot, or at 0.
#[inline(always)]
pub(crate) fn last_start(text: &[u8]) -> usize
    ensures within { result ≤ length text.now }
    ensures starts { IsStart (take result text.now) }
{
    let mut start = text.len();
    'back: while start > 0 && text[start - 1] != b'.' {
        start -= 1;
    }
    start
}

// The first byte, and 0 at the end of the text, which is before each byte.
#[inline(always)]
pub(crate) fn first_byte(text: &[u8]) -> u8
    ensures { result ≡ CommonStarts.first_byte text.now }
{
    match text {
        [first, ..] => *first,
        [] => 0,
    }
}

// After `9`: of the bytes of an identifier, the letters are.
#[inline(always)]
fn is_letter(byte: u8) -> bool
    ensures { result ≡ CommonStarts.is_letter byte }
{
    byte > b'9'
}

// Returns `true` if an identifier ends before this text: at a dot, or at the end of the text.
#[inline(always)]
fn ends(text: &[u8]) -> bool
    ensures { result ≡ CommonStarts.ends text.now }
{
    match text {
        [first, ..] => *first == b'.',
        [] => true,
    }
}

// `true` for `2` before the rest `` or `.beta`, and `false` before `3`.
#[inline(always)]
fn is_last_digit(byte: u8, rest: &[u8]) -> bool
    ensures { result ≡ CommonStarts.is_last_digit byte rest.now }
{
    is_digit(byte) && ends(rest)
}

// Returns `true` if the first bytes of these texts decide, which follow the common start of two texts of identifiers.
//
// - A letter makes its identifier a text. Each other byte comes before the letters, as a number does before a text.
// - At two ends the identifiers are equal, and the end of a text comes before a dot.
// - Two last digits make two numbers that differ in these digits alone, or two texts.
#[inline(always)]
pub(crate) fn are_decided(one: &[u8], other: &[u8]) -> bool
    ensures { result ≡ CommonStarts.are_decided one.now other.now }
{
    match (one, other) {
        ([], []) => true,
        ([], [second, ..]) => is_letter(*second) || *second == b'.',
        ([first, ..], []) => is_letter(*first) || *first == b'.',
        ([first, after @ ..], [second, after_second @ ..]) => {
            is_letter(*first)
                || is_letter(*second)
                || (is_last_digit(*first, after) && is_last_digit(*second, after_second))
        }
    }
}
