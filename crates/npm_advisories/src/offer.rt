//! The versions that are offered in place of one that is hit.
//!
//! See docs/DECISIONS.md, "The versions that are offered are releases".
ghost use Rattle.std.specs.Prelude.{◌≡◌, IfOk, IsTrue, map};
ghost use Rattle.std.specs.List.{AllByRecursion};
ghost use Rattle.node_semver.specs.Ranges.{IsRangeEnd};
ghost use Rattle.node_semver.specs.Versions.{IsPlain, least_of};
ghost use Rattle.npm_advisories.specs.Audit.{version_or_least};
ghost use Rattle.npm_advisories.specs.Offers.{IsAskedFor, IsLeastOrNone};
ghost use Rattle.npm_advisories.specs.Private.Covering.{AreSteps, IsAdmittedFrom, IsFreeFrom};
ghost use Rattle.npm_advisories.specs.Private.Offering.{IsUnhitBy, IsAdmittedBy};

use crate::Result;
use crate::covered::{covered_by, least_free, least_free_of_both};
use crate::release::release_above;
use crate::spans::add_outside;
use node_semver::{Version, VersionRef};
use npm_texts::{OF_DEPENDENCIES, range_of};
use semver_cuts::Span;
use std::alloc::Global;

/// The versions that are offered in place of one that is hit.
#[derive(Drop)]
pub(crate) struct Offer {
    pub(crate) least: Option<Version>,
    pub(crate) admitted: Option<Version>,
}

/// The versions that are offered above this one, or above 0.0.0-0: none of those that are covered.
pub(crate) fn offer_above(
    alloc: Global,
    version: &Option<VersionRef<'_>>,
    covered: &[Span<Version>],
    asked: &[&str],
) -> Result<Offer>
    requires end { IsRangeEnd (version_or_least version.now) }
    requires covered { AreSteps covered.now }
    ensures least { IfOk result (λ offer.
        IsLeastOrNone (IsUnhitBy covered.now (version_or_least version.now)) offer.least) }
    ensures admitted { IfOk result (λ offer. IsLeastOrNone
        (IsAdmittedBy covered.now (map (λ text. text.now) asked.now) (version_or_least version.now)) offer.admitted) }
{
    match version {
        Some(version) => offer_of(alloc, version, covered, asked),
        None => offer_of(alloc, &least_version(), covered, asked),
    }
}

/// The least version of all.
fn least_version() -> VersionRef<'static>
    ensures { result ≡ least_of 0 0 0 }
{
    match VersionRef::parse("0.0.0-0") {
        Ok(version) => version,
        Err(_) => unreachable!(),
    }
}

/// The versions that are offered in place of this one.
fn offer_of(
    alloc: Global,
    version: &VersionRef<'_>,
    covered: &[Span<Version>],
    asked: &[&str],
) -> Result<Offer>
    requires end { IsRangeEnd version.now }
    requires covered { AreSteps covered.now }
    ensures least { IfOk result (λ offer. IsLeastOrNone (IsUnhitBy covered.now version.now) offer.least) }
    ensures admitted { IfOk result (λ offer. IsLeastOrNone
        (IsAdmittedBy covered.now (map (λ text. text.now) asked.now) version.now) offer.admitted) }
{
    let next = release_above(alloc, &version.to_version(alloc)?);
    let least = least_free(alloc, covered, &next);
    let admitted = least_asked(alloc, covered, next, asked, &least)?;
    Ok(Offer { least, admitted })
}

/// The least release from this one on that is not covered and that each of the range texts admits, given the least one that is not covered.
/// Often all admit that one, which takes less time to see than all releases that they do not admit.
fn least_asked(
    alloc: Global,
    covered: &[Span<Version>],
    from: Version,
    asked: &[&str],
    least: &Option<Version>,
) -> Result<Option<Version>>
    requires covered { AreSteps covered.now }
    requires from { IsPlain from }
    requires least { IsLeastOrNone (IsFreeFrom covered.now from) least.now }
    ensures { IfOk result (IsLeastOrNone (IsAdmittedFrom covered.now (map (λ text. text.now) asked.now) from)) }
{
    let Some(found) = least else {
        return Ok(None);
    };
    if is_asked_by_all(alloc, asked, found)? {
        let copy = found.clone()?;
        return Ok(Some(copy));
    }
    least_admitted(alloc, covered, from, asked)
}

/// Returns `true` if each of the range texts admits a version.
fn is_asked_by_all(alloc: Global, asked: &[&str], version: &Version) -> Result<bool>
    ensures { IfOk result (λ is. IsTrue is
        → AllByRecursion (λ text. IsAskedFor text version.now) (map (λ text. text.now) asked.now)) }
{
    for text in asked {
        if !is_asked_by(alloc, text, version)? {
            return Ok(false);
        }
    }
    Ok(true)
}

/// Returns `true` if a range text admits a version.
fn is_asked_by(alloc: Global, text: &str, version: &Version) -> Result<bool>
    ensures { IfOk result (λ is. IsTrue is → IsAskedFor text.now version.now) }
{
    match range_of(alloc, text, OF_DEPENDENCIES)? {
        Some(range) => Ok(range.satisfies(version)),
        None => Ok(false),
    }
}

/// The least release from this one on that is not covered and that each of the range texts admits.
fn least_admitted(
    alloc: Global,
    covered: &[Span<Version>],
    from: Version,
    asked: &[&str],
) -> Result<Option<Version>>
    requires covered { AreSteps covered.now }
    requires from { IsPlain from }
    ensures { IfOk result (IsLeastOrNone (IsAdmittedFrom covered.now (map (λ text. text.now) asked.now) from)) }
{
    let mut outside = Vec::new(alloc);
    for text in asked {
        if !add_outside(alloc, &mut outside, text)? {
            return Ok(None);
        }
    }
    let unasked = covered_by(alloc, &outside)?;
    Ok(least_free_of_both(alloc, covered, &unasked, from))
}
