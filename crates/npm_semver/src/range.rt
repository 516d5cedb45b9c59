//! Ranges as npm itself reads them.
//!
//! See docs/DECISIONS.md, "In strict form npm's reading names the first word that it refuses".
ghost use Rattle.std.specs.Prelude.{◌≡◌, ◌⊎◌};
ghost use Rattle.semver_sets.specs.declared.read.Unread.TheVariants.{Refused};
ghost use Rattle.semver_versions.specs.Error.{IsOutOfMemory};
ghost use Rattle.npm_sets.specs.NpmMeaning.{IsNpmRefused};
ghost use Rattle.npm_sets.specs.Spaces.{with_plain_spaces};
ghost use Rattle.npm_sets.specs.declared.options.NpmOptions.{NpmOptions};
ghost use Rattle.npm_semver.specs.NpmRangeAnswer.{IsNpmRangeAnswer, IsNpmRefusal};

use node_semver::{Range, SemverError, SemverErrorKind};
use npm_sets::NpmOptions;
use npm_sets::read::full::read_full;
use npm_sets::refused::refused_offset;
use npm_sets::spaces::read_npm_text;
use semver_sets::read::Unread;
use semver_sets::read::full::full_set;
use semver_sets::set_list::Sets;
use std::alloc::Global;

/// Reads a range as npm reads it, in strict or in loose form, and with prereleases included or not.
///
/// [`Range::parse`] reads a text as the Rust crate does, and gives other answers for some texts: `<=20` is
/// `<21.0.0-0` here and `<=20.0.0-0` there, and the empty text is every release here and is refused there.
///
/// White space outside ASCII counts as a space, as in npm: U+00A0, U+3000, U+FEFF and others.
///
/// If prereleases are not included, ask the range by [`Range::satisfies`]. If they are, ask it by
/// [`Range::contains`]: a prerelease then needs no end that is a prerelease of its triple.
///
/// # Errors
///
/// Returns the kind of the fault and its byte offset. In strict form this is the offset of the first word that is no
/// comparator, and in loose form it is always 0:
///
/// - `foo`, `1.2.3.4`: `NoValidRanges` at 0, in strict form a word is no comparator. `>=1.2.3 foo`: at 8.
/// - `1 - 2 foo`: `NoValidRanges` at 2, only a whole piece is a hyphen range, and `-` is no comparator.
/// - `01.2.3`, `1.2.3beta`, `1.2.3-01`: `NoValidRanges` at 0, in strict form no partial is written so.
/// - `foo`, `foo || bar`: `NoValidRanges` at 0, in loose form no word is a comparator.
/// - `^1 9007199254740992.0.0`: `NoValidRanges` at 3 in strict form and at 0 in loose form, a number is above
///   `MAX_SAFE_INTEGER`. So is a word whose operand has more than 256 bytes.
/// - any text: `OutOfMemory` at 0, with an empty text, if an allocation fails.
///
/// Comparators that never hold together are no fault: `>4 <3` is `<0.0.0-0`, which no version satisfies.
///
/// # Memory
///
/// Allocates the prereleases that the text writes at ends, and a list if there are several sets. An error holds a
/// copy of the text. A text that is not in ASCII is copied for the time of the call, and once more if it is refused
/// in strict form.
///
/// # Examples
///
/// `>= 1.2`, `1.2 - 3`, the empty text and `^1 ||` are read. `foo >=1` is read in loose form only.
///
/// # Source
///
/// npm's `semver` 7.6.2, "Ranges" and "Range Grammar". `docs/DIFFERENCES.md` lists where it differs.
// Most ranges are a full version after `^`, `~` or nothing, and are read here, as in `Range::parse`.
// `inline(always)`: the range is built in the place of the caller's result.
#[inline(always)]
pub fn parse_range(alloc: Global, text: &str, options: NpmOptions) -> Result<Range, SemverError>
    ensures { IsNpmRangeAnswer options text.now result }
{
    match read_full(text.as_bytes(), options) {
        Some((form, major, minor, patch)) => {
            Ok(Range::of_sets(Sets::One(full_set(form, major, minor, patch))))
        }
        None => match read_npm_text(alloc, text, options) {
            Ok(sets) => Ok(Range::of_sets(sets)),
            Err(unread) => Err(unread_error(alloc, text, options, unread)),
        },
    }
}

// The error for a text that was not read. It only calls `npm_error`: where `parse_range` calls that itself, it clears the
// stack slot of an error for each text, and with this function in between only for a text that is refused.
#[inline(always)]
fn unread_error(alloc: Global, text: &str, options: NpmOptions, unread: Unread) -> SemverError
    requires { unread ≡ Refused → IsNpmRefused options (with_plain_spaces text.now) }
    ensures { IsOutOfMemory result
        ⊎ (IsNpmRefusal options text.now result × IsNpmRefused options (with_plain_spaces text.now)) }
{
    npm_error(alloc, text, options, unread)
}

// The error for a text that was not read, out of line. `inline(never)`: few texts are refused.
#[inline(never)]
fn npm_error(alloc: Global, text: &str, options: NpmOptions, unread: Unread) -> SemverError
    requires { unread ≡ Refused → IsNpmRefused options (with_plain_spaces text.now) }
    ensures { IsOutOfMemory result
        ⊎ (IsNpmRefusal options text.now result × IsNpmRefused options (with_plain_spaces text.now)) }
{
    match unread {
        Unread::Refused => refusal(alloc, text, options),
        Unread::OutOfMemory => SemverError::out_of_memory(alloc),
    }
}

// The error for a text that is refused.
fn refusal(alloc: Global, text: &str, options: NpmOptions) -> SemverError
    requires { IsNpmRefused options (with_plain_spaces text.now) }
    ensures { IsOutOfMemory result ⊎ IsNpmRefusal options text.now result }
{
    match refused_offset(alloc, text, options) {
        Ok(offset) => SemverError::new(alloc, text, offset, SemverErrorKind::NoValidRanges),
        Err(_) => SemverError::out_of_memory(alloc),
    }
}
