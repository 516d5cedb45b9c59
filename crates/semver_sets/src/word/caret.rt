//! `^1.2.3`, `^0.2`, `^1`
ghost use Rattle.std.specs.Prelude.{◌≡◌, ◌≤◌, None, Some};
ghost use Rattle.semver_sets.specs.CaretRanges.{caret_row};
ghost use Rattle.semver_sets.specs.Comparator.{from_up_to};
ghost use Rattle.semver_sets.specs.FullTexts.{AreInLimit};
ghost use Rattle.semver_sets.specs.PartialText.{by_row};
ghost use Rattle.semver_sets.specs.Private.WordViews.{some_ends};
ghost use Rattle.semver_sets.specs.WordEnds.{IsSound, ends_seen, partial_seen, version_seen};
ghost use Rattle.semver_texts.specs.Version.{VersionValue, without_build};

use crate::partial::Partial;
use crate::word::ends::{WordEnds, WordVersion, below, from_up_to, with_major, with_minor};
use semver_texts::MAX_SAFE_INTEGER;

// The ends of a partial after `^`.
#[inline(always)]
pub(crate) fn caret_ends<'a>(partial: Partial<'a>) -> Option<WordEnds<'a>>
    requires { IsSound partial }
    ensures { some_ends result ≡ by_row caret_row (partial_seen partial.entry) }
{
    match (partial.major, partial.minor, partial.patch) {
        (Some(major), None, None) => Some(of_major(major)),
        (Some(major), Some(minor), None) => Some(of_minor(major, minor)),
        (Some(major), Some(minor), Some(patch)) => {
            Some(from_up_to(partial.bare(), raised(major, minor, patch)))
        }
        _ => None,
    }
}

// `^1`, `^0`
#[inline(always)]
fn of_major(major: u64) -> WordEnds<'static>
    requires { major ≤ MAX_SAFE_INTEGER }
    ensures { (z : VersionValue) → caret_row (Some major) None None z ≡ Some (ends_seen result) }
{
    match major {
        0 => below(WordVersion::Least(1, 0, 0)),
        _ => with_major(major),
    }
}

// `^1.2`, `^0.2`
#[inline(always)]
fn of_minor(major: u64, minor: u64) -> WordEnds<'static>
    requires major { major ≤ MAX_SAFE_INTEGER }
    requires minor { minor ≤ MAX_SAFE_INTEGER }
    ensures { (z : VersionValue) → caret_row (Some major) (Some minor) None z ≡ Some (ends_seen result) }
{
    match major {
        0 => with_minor(0, minor),
        _ => from_up_to(
            WordVersion::Release(major, minor, 0),
            WordVersion::Least(major + 1, 0, 0),
        ),
    }
}

// Where `^1.2.3` ends: the leftmost number that is not 0 is raised.
#[inline(always)]
fn raised(major: u64, minor: u64, patch: u64) -> WordVersion<'static>
    requires { AreInLimit major minor patch }
    ensures { (z : VersionValue) → caret_row (Some major) (Some minor) (Some patch) z
        ≡ Some (from_up_to (without_build z) (version_seen result)) }
{
    match (major, minor) {
        (0, 0) => WordVersion::Least(0, 0, patch + 1),
        (0, _) => WordVersion::Least(0, minor + 1, 0),
        _ => WordVersion::Least(major + 1, 0, 0),
    }
}
