//! Texts with white space outside ASCII, which npm takes for a space.
ghost use Rattle.std.specs.Prelude.{◌≡◌, IfOk, string_bytes};
ghost use Rattle.npm_sets.specs.NpmAnswer.{IsNpmAnswer};
ghost use Rattle.npm_sets.specs.Spaces.{with_plain_spaces};
ghost use Rattle.npm_sets.specs.Spaces as Spaces;
ghost use Rattle.npm_sets.specs.Private.RefusedViews.{IsLengthBefore};

use crate::NpmOptions;
use crate::read::read_npm;
use semver_sets::read::Unread;
use semver_sets::set_list::Sets;
use std::alloc::{AllocError, Global};

/// Reads the sets of a range text as [`read_npm`] does, with a space in place of each white space character outside ASCII.
///
/// # Errors
///
/// As [`read_npm`].
///
/// # Memory
///
/// As [`read_npm`]. A text that is not in ASCII is copied.
// `inline(always)`: it has one caller, and its sets are built in the place of that caller's result.
#[inline(always)]
pub fn read_npm_text(alloc: Global, text: &str, options: NpmOptions) -> Result<Sets, Unread>
    ensures { IsNpmAnswer options (with_plain_spaces text.now) result }
{
    if text.is_ascii() {
        return read_npm(alloc, text.as_bytes(), options);
    }
    read_other(alloc, text, options)
}

// Calls `read_wide`. With this function between, the toolchain clears the place of its result only if it is called.
#[inline(always)]
fn read_other(alloc: Global, text: &str, options: NpmOptions) -> Result<Sets, Unread>
    ensures { IsNpmAnswer options (with_plain_spaces text.now) result }
{
    read_wide(alloc, text, options)
}

// Reads a text that is not in ASCII. `inline(never)`: few are not.
#[inline(never)]
fn read_wide(alloc: Global, text: &str, options: NpmOptions) -> Result<Sets, Unread>
    ensures { IsNpmAnswer options (with_plain_spaces text.now) result }
{
    let plain = with_plain_spaces(alloc, text)?;
    read_npm(alloc, plain.as_str().as_bytes(), options)
}

// The text with a space in place of each white space character outside ASCII.
pub(crate) fn with_plain_spaces(alloc: Global, text: &str) -> Result<String, AllocError>
    ensures { IfOk result (λ plain. string_bytes plain ≡ with_plain_spaces text.now) }
{
    text.chars().map(plain).collect(alloc)
}

// A space for a white space character outside ASCII, and each other character itself.
fn plain(c: char) -> char
    ensures { result ≡ Spaces.plain c }
{
    match c {
        '\u{a0}' | '\u{1680}' | '\u{2000}'..='\u{200a}' | '\u{2028}' | '\u{2029}' | '\u{202f}' =>
            ' ',
        '\u{205f}' | '\u{3000}' | '\u{feff}' => ' ',
        _ => c,
    }
}

// How many bytes of a text come before a place of its text with plain spaces: 3 for 2 in `\u{a0}1 2`.
pub(crate) fn length_before(text: &str, place: usize) -> usize
    ensures { IsLengthBefore text.now place result }
{
    let mut rest = text.chars();
    let mut left = place;
    while left > 0 {
        match rest.next() {
            Some(c) => left = left.saturating_sub(plain(c).len_utf8()),
            None => return text.len(),
        }
    }
    text.len() - rest.as_str().len()
}
