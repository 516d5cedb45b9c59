//! The releases at versions and at cuts.
ghost use Rattle.std.specs.Prelude.{◌≡◌, ◌≢◌, ◌+◌};
ghost use Rattle.std.specs.Option.{MatchOption};
ghost use Rattle.node_semver.specs.Cuts.{Before, End};
ghost use Rattle.node_semver.specs.Ranges.{IsRangeCut, IsRangeEnd};
ghost use Rattle.node_semver.specs.Versions.{IsPlain, VersionValue, release};
ghost use Rattle.npm_advisories.specs.Private.Covering.{IsAligned, IsAlignedTo, IsPassed, IsReleaseAbove};

use node_semver::Version;
use semver_cuts::Cut;
use std::alloc::Global;

/// The release with the numbers of a version.
pub(crate) fn release_of(alloc: Global, version: &Version) -> Version
    ensures { result ≡ release version.now.major version.now.minor version.now.patch }
{
    Version::new(alloc, version.major, version.minor, version.patch)
}

/// The release with the numbers of a version, and the next patch.
fn next_patch(alloc: Global, version: &Version) -> Version
    requires { IsRangeEnd version.now }
    ensures { result ≡ release version.now.major version.now.minor (version.now.patch + 1) }
{
    Version::new(alloc, version.major, version.minor, version.patch + 1)
}

/// The least release above a version.
pub(crate) fn release_above(alloc: Global, version: &Version) -> Version
    requires { IsRangeEnd version.now }
    ensures { IsReleaseAbove version.now result }
{
    if version.is_prerelease() {
        release_of(alloc, version)
    } else {
        next_patch(alloc, version)
    }
}

/// The cut just before the least release that is not below a cut.
pub(crate) fn aligned(alloc: Global, cut: &Cut<Version>) -> Cut<Version>
    requires { IsRangeCut cut.now }
    ensures { IsAlignedTo cut.now result }
{
    match cut {
        Cut::Start => Cut::Start,
        Cut::Before(version) => Cut::Before(release_of(alloc, version)),
        Cut::After(version) => Cut::Before(release_above(alloc, version)),
        Cut::End => Cut::End,
    }
}

/// The release that a cut is before, if there is one.
pub(crate) fn release_at(alloc: Global, cut: &Cut<Version>) -> Option<Version>
    requires { IsAligned cut.now }
    ensures { MatchOption result ((v : VersionValue) → cut.now ≢ Before v)
        (λ found. (cut.now ≡ Before found) × IsPlain found) }
{
    match cut {
        Cut::Before(version) => Some(release_of(alloc, version)),
        _ => None,
    }
}

/// The least release that is neither below this one nor below a cut; `None` for the end of all cuts.
pub(crate) fn release_past(alloc: Global, cut: &Cut<Version>, from: Version) -> Option<Version>
    requires { IsAligned cut.now × IsPlain from }
    ensures { MatchOption result (cut.now ≡ End) (IsPassed cut.now from) }
{
    match cut {
        Cut::Before(version) if from < *version => Some(release_of(alloc, version)),
        Cut::End => None,
        _ => Some(from),
    }
}
