//! Advisories that are about each release, and so about a package without a version.
//!
//! See docs/DECISIONS.md, "A package without a version is hit by advisories about all releases".
ghost use Rattle.std.specs.Prelude.{◌≡◌, ◌↔◌, IfOk, IsTrue, filter, map};
ghost use Rattle.node_semver.specs.Ranges.{RangeContains};
ghost use Rattle.node_semver.specs.Versions.{IsPrerelease, VersionValue};
ghost use Rattle.npm_advisories.specs.Advisories.{about_value};
ghost use Rattle.npm_advisories.specs.Hits.{AreKept};
ghost use Rattle.npm_advisories.specs.Private.Covering.{AreCovered, AreSteps};
ghost use Rattle.npm_advisories.specs.Private.Spans.{IsInRange, IsOfEach};
ghost use Rattle.npm_advisories.specs.Severities.{is_at_least};

use crate::advisory::Advisory;
use crate::covered::{covered_by, least_free};
use crate::{About, Result, Severity};
use node_semver::Version;
use semver_cuts::Span;
use std::alloc::Global;

/// What the advisories of a list that are about each release say of themselves. The spans are the releases that any of them is about.
pub(crate) fn about_each<'f>(
    alloc: Global,
    advisories: &[Advisory<'f>],
    covered: &[Span<Version>],
) -> Result<Vec<About<'f>>>
    requires { AreCovered covered.now (IsInRange advisories.now) }
    ensures { IfOk result (λ each. AreKept IsOfEach (λ advisory. about_value advisory.about) advisories.now (map about_value each.items)) }
{
    let mut each = Vec::new(alloc);
    // Mostly some release is safe.
    if !have_each(alloc, covered) {
        return Ok(each);
    }
    for advisory in advisories {
        if is_of_each(alloc, advisory)? {
            each.push(advisory.about)?;
        }
    }
    Ok(each)
}

/// Those of the level.
pub(crate) fn of_level<'f>(
    alloc: Global,
    all: &[About<'f>],
    level: Severity,
) -> Result<Vec<About<'f>>>
    ensures { IfOk result (λ some. map about_value some.items
        ≡ filter (λ about. is_at_least level about.severity) (map about_value all.now)) }
{
    let mut some = Vec::from_slice(alloc, all)?;
    some.retain(|about| about.severity.is_at_least(level));
    Ok(some)
}

/// Returns `true` if an advisory is about each release.
fn is_of_each(alloc: Global, advisory: &Advisory<'_>) -> Result<bool>
    ensures { IfOk result (λ is. IsTrue is ↔ IsOfEach advisory.now) }
{
    let sets = advisory.sets(alloc)?;
    let covered = covered_by(alloc, &sets)?;
    Ok(have_each(alloc, &covered))
}

/// Returns `true` if spans contain each release.
fn have_each(alloc: Global, covered: &[Span<Version>]) -> bool
    requires { AreSteps covered.now }
    ensures { IsTrue result ↔ ((v : VersionValue) → ¬ IsPrerelease v → RangeContains covered.now v) }
{
    let zero = Version::new(alloc, 0, 0, 0);
    least_free(alloc, covered, &zero).is_none()
}
