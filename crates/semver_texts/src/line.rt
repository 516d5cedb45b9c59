//! Texts that are written into one array, from its end: so a printed version or set is one write to the formatter.
ghost use Rattle.std.specs.Prelude.{◌≡◌, ◌+◌, ◌≤◌, ◌∷◌, ◌++◌, IfSome, decimal, drop};
ghost use Rattle.semver_texts.specs.Characters.{dot};
ghost use Rattle.semver_texts.specs.Print.{version_text};
ghost use Rattle.semver_texts.specs.declared.line.TheConstants.{NUMBER_ROOM, ROOM, TRIPLE_ROOM, VERSION_ROOM};

use crate::end::{EndVersion, Extras};
use itoa::write_digits;
use std::str;

// The longest number has this many digits.
pub(crate) const NUMBER_ROOM: usize = 20;

// The length of the longest triple: three numbers and two dots.
pub(crate) const TRIPLE_ROOM: usize = 62;

// The length of the longest version without lists: a triple, a hyphen and a number.
pub const VERSION_ROOM: usize = 83;

/// Room for two versions, their operators and a space.
pub const ROOM: usize = 176;

/// Writes `1.2.3` into the array and returns it.
#[inline]
pub fn triple_text(line: &mut [u8; ROOM], major: u64, minor: u64, patch: u64) -> &str
    ensures { result.now ≡ decimal major ++ (dot ∷ (decimal minor ++ (dot ∷ decimal patch))) }
{
    let start = put_triple_last(line, (major, minor, patch));
    let text = &line[start..];
    // Safe: digits and dots are ASCII.
    unsafe { str::from_utf8_unchecked(text) }
}

// Writes `1.2.3` to the end of the line, and returns where it begins.
#[inline]
fn put_triple_last(line: &mut [u8; ROOM], triple: (u64, u64, u64)) -> usize
    ensures place { result ≤ ROOM }
    ensures text { drop result line.new ≡ decimal triple.0 ++ (dot ∷ (decimal triple.1 ++ (dot ∷ decimal triple.2))) }
{
    put_triple(line, ROOM, triple)
}

// Writes `1.2.3` so that it ends at `end`, and returns where it begins.
#[inline]
pub fn put_triple(line: &mut [u8; ROOM], end: usize, triple: (u64, u64, u64)) -> usize
    requires { (TRIPLE_ROOM ≤ end) × (end ≤ ROOM) }
    ensures place { (result ≤ end) × (end ≤ result + TRIPLE_ROOM) }
    ensures text { drop result line.new
        ≡ decimal triple.0 ++ (dot ∷ (decimal triple.1 ++ (dot ∷ (decimal triple.2 ++ drop end line.old)))) }
{
    let at = put_number(line, end, triple.2);
    let at = put_byte(line, at, b'.');
    let at = put_number(line, at, triple.1);
    let at = put_byte(line, at, b'.');
    put_number(line, at, triple.0)
}

// Writes the digits of a number so that they end at `end`. `inline(always)`: part of each print's only loop.
#[inline(always)]
pub fn put_number(line: &mut [u8; ROOM], end: usize, n: u64) -> usize
    requires { (NUMBER_ROOM ≤ end) × (end ≤ ROOM) }
    ensures place { (result ≤ end) × (end ≤ result + NUMBER_ROOM) }
    ensures text { drop result line.new ≡ decimal n ++ drop end line.old }
{
    write_digits(n, line, end)
}

// Writes one byte before `end`. `inline(always)`: one store.
#[inline(always)]
pub fn put_byte(line: &mut [u8; ROOM], end: usize, byte: u8) -> usize
    requires { (1 ≤ end) × (end ≤ ROOM) }
    ensures place { result + 1 ≡ end }
    ensures text { drop result line.new ≡ byte ∷ drop end line.old }
{
    line[end - 1] = byte;
    end - 1
}

/// Writes `1.2.3` or `1.2.3-0` so that it ends at `end`, and returns where it begins. Returns `None` for a version with a
/// build or another prerelease.
#[inline]
pub fn put_version(line: &mut [u8; ROOM], end: usize, version: &EndVersion) -> Option<usize>
    requires { (VERSION_ROOM ≤ end) × (end ≤ ROOM) }
    ensures place { IfSome result (λ start. (start ≤ end) × (end ≤ start + VERSION_ROOM)) }
    ensures text { IfSome result (λ start. drop start line.new ≡ version_text version.now ++ drop end line.old) }
{
    let triple = (version.major, version.minor, version.patch);
    match &version.extras {
        Extras::Nothing => Some(put_triple(line, end, triple)),
        Extras::Zero => {
            let at = put_number(line, end, 0);
            let at = put_byte(line, at, b'-');
            Some(put_triple(line, at, triple))
        }
        Extras::Lists(_) => None,
    }
}
