//! By which bump two versions differ: npm's `diff`.
ghost use Rattle.std.specs.Prelude.{◌≡◌};
ghost use Rattle.npm_semver.specs.BumpBetween.{bump_between, bump_up, by_numbers, to_prerelease, to_release};

use crate::Bump;
use node_semver::Version;
use std::cmp::Ordering;

/// Returns the bump that leads from the lower of the two versions to the higher one, or `None` if they have the same
/// precedence.
///
/// The first number that differs decides: it is a `PreMajor`, `PreMinor` or `PrePatch` if the higher version is a
/// prerelease. If only the prereleases differ, it is a `PreRelease`. If a prerelease becomes a release, it is the
/// bump to the release that it is a prerelease of.
///
/// # Memory
///
/// Does not allocate.
///
/// # Examples
///
/// - `1.2.3` and `1.3.0`: `Minor`, in both directions. `1.2.3` and `1.3.0-rc.1`: `PreMinor`.
/// - `1.0.0-rc.1` and `1.0.0`: `Major`. `1.2.0-rc.1` and `1.2.0`: `Minor`.
/// - `1.2.3` and `1.2.3+build`: `None`.
///
/// # Source
///
/// The README of npm's `semver`, "Functions", `diff`.
pub fn diff(one: &Version, other: &Version) -> Option<Bump>
    ensures { result ≡ bump_between one.now other.now }
{
    match one.cmp(other) {
        Ordering::Less => Some(bump_up(one, other)),
        Ordering::Equal => None,
        Ordering::Greater => Some(bump_up(other, one)),
    }
}

// The bump from the lower version to the higher one.
fn bump_up(low: &Version, high: &Version) -> Bump
    ensures { result ≡ bump_up low.now.pre_release high.now.pre_release low.now high.now }
{
    if high.is_prerelease() {
        to_prerelease(low, high)
    } else if low.is_prerelease() {
        by_numbers(low, high)
    } else {
        to_release(low, high)
    }
}

// `premajor` for `1.2.3` and `2.0.0-0`
fn to_prerelease(low: &Version, high: &Version) -> Bump
    ensures { result ≡ to_prerelease low.now high.now }
{
    if low.major != high.major {
        Bump::PreMajor
    } else if low.minor != high.minor {
        Bump::PreMinor
    } else if low.patch != high.patch {
        Bump::PrePatch
    } else {
        Bump::PreRelease
    }
}

// `minor` for `1.2.3` and `1.3.0`
fn to_release(low: &Version, high: &Version) -> Bump
    ensures { result ≡ to_release low.now high.now }
{
    if low.major != high.major {
        Bump::Major
    } else if low.minor != high.minor {
        Bump::Minor
    } else {
        Bump::Patch
    }
}

// `major` for `1.0.0-rc.1` and `1.0.0`
fn by_numbers(low: &Version, high: &Version) -> Bump
    ensures { result ≡ by_numbers low.now.minor low.now.patch high.now.minor high.now.patch }
{
    if low.minor == 0 && low.patch == 0 {
        Bump::Major
    } else if high.patch != 0 {
        Bump::Patch
    } else if high.minor != 0 {
        Bump::Minor
    } else {
        Bump::Major
    }
}
