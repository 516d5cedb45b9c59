//! The prereleases that satisfy a set.

use node_semver::{Range, Version};
use npm_semver::range_from_sets;
use semver_cuts::{Cut, Span};
use std::alloc::{AllocError, Global};
use std::cmp::Ordering;
use std::slice;

/// The releases whose prereleases satisfy a set, in ascending order: two at most, since a set has two ends.
#[derive(Drop)]
pub enum Opened {
    Nothing,
    One(Version),
    Two(Version, Version),
}

/// Returns the releases whose prereleases satisfy the set. `alone` is the range with this set alone.
pub fn opened_in(alloc: Global, alone: &Range, set: &Span<Version>) -> Result<Opened, AllocError> {
    let (lower, upper) = set.ends();
    let below = opened_by(alloc, alone, lower)?;
    let above = opened_by(alloc, alone, upper)?;
    Ok(in_order(below, above))
}

/// The releases in ascending order, and equal ones once.
fn in_order(below: Option<Version>, above: Option<Version>) -> Opened {
    match (below, above) {
        (None, None) => Opened::Nothing,
        (Some(release), None) => Opened::One(release),
        (None, Some(release)) => Opened::One(release),
        (Some(one), Some(other)) => match one.cmp(&other) {
            Ordering::Less => Opened::Two(one, other),
            Ordering::Equal => Opened::One(one),
            Ordering::Greater => Opened::Two(other, one),
        },
    }
}

/// The release that the version at the cut is a prerelease of, if a prerelease with this triple satisfies the range.
fn opened_by(
    alloc: Global,
    range: &Range,
    cut: &Cut<Version>,
) -> Result<Option<Version>, AllocError> {
    match cut {
        Cut::Start | Cut::End => Ok(None),
        Cut::Before(version) | Cut::After(version) => opened_at(alloc, range, version),
    }
}

/// The release that the version is a prerelease of, if a prerelease with this triple satisfies the range.
fn opened_at(
    alloc: Global,
    range: &Range,
    version: &Version,
) -> Result<Option<Version>, AllocError> {
    if !version.is_prerelease() {
        return Ok(None);
    }
    let Some(prereleases) = prereleases_of(alloc, version)? else {
        return Ok(None);
    };
    match range.least_common(alloc, &prereleases)? {
        Some(_) => Ok(Some(release_of(alloc, version))),
        None => Ok(None),
    }
}

/// The release with the triple of the version.
fn release_of(alloc: Global, version: &Version) -> Version {
    Version::new(alloc, version.major, version.minor, version.patch)
}

/// The range that the prereleases with the triple of the version satisfy, and no other version: `>=1.2.3-0 <1.2.3`.
fn prereleases_of(alloc: Global, version: &Version) -> Result<Option<Range>, AllocError> {
    let least = Version::with_pre_release(alloc, version.major, version.minor, version.patch, 0)?;
    let release = release_of(alloc, version);
    match Span::new(Cut::Before(least), Cut::Before(release)) {
        Some(set) => range_from_sets(alloc, slice::from_ref(&set)),
        None => Ok(None),
    }
}
