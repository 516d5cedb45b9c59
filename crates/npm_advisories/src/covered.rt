//! Releases that spans contain, and the least one that they do not.
//!
//! The ends of the spans are moved to releases, so between two spans that do not touch there is always a release: a search
//! need not go on to the next span.
ghost use Rattle.std.specs.Prelude.{◌≡◌, ◌++◌, IfOk, List, OnOk};
ghost use Rattle.std.specs.List.{AllByRecursion, Contains};
ghost use Rattle.std.specs.Option.{MatchOption};
ghost use Rattle.semver_cuts.specs.Ends.{Ends, IsInSpan};
ghost use Rattle.semver_cuts.specs.Joined.{AreMerged};
ghost use Rattle.node_semver.specs.Cuts.{IsInSome};
ghost use Rattle.node_semver.specs.Ranges.{IsInside, IsRangeSet, RangeContains};
ghost use Rattle.node_semver.specs.Versions.{IsPlain, VersionValue, version_cmp};
ghost use Rattle.npm_advisories.specs.Offers.{IsLeastOrNone};
ghost use Rattle.npm_advisories.specs.Private.Covering.{AreCovered, AreSteps, HaveReleases, IsFreeFrom, IsFreeOfBoth};
ghost use Rattle.npm_advisories.specs.Lemmas.Spans.{span_list};

use crate::Result;
use crate::release::{aligned, release_at, release_of, release_past};
use node_semver::Version;
use semver_cuts::algebra::join;
use semver_cuts::{Cut, Span};
use std::alloc::Global;

/// The releases that sets contain, as spans in order that do not touch and end at releases.
pub(crate) fn covered_by(alloc: Global, sets: &[Span<Version>]) -> Result<Vec<Span<Version>>>
    requires { AllByRecursion IsRangeSet sets.now }
    ensures { IfOk result (λ covered. AreCovered covered.items (RangeContains sets.now)) }
{
    let mut spans = Vec::new(alloc);
    for set in sets {
        if let Some(span) = aligned_span(alloc, set) {
            spans.push(span)?;
        }
    }
    join(alloc, spans)
}

/// The releases that a set contains, as a span that ends at releases; `None` if there are none.
fn aligned_span(alloc: Global, set: &Span<Version>) -> Option<Span<Version>>
    requires { IsRangeSet set.now }
    ensures { HaveReleases (span_list result) (λ v. IsInside v set.now) }
{
    Span::new(aligned(alloc, set.lower()), aligned(alloc, set.upper()))
}

/// The least release from this one on that none of the spans contains.
pub(crate) fn least_free(
    alloc: Global,
    covered: &[Span<Version>],
    from: &Version,
) -> Option<Version>
    requires steps { AreSteps covered.now }
    requires from { IsPlain from.now }
    ensures { IsLeastOrNone (IsFreeFrom covered.now from.now) result }
{
    let cut = Cut::Before(release_of(alloc, from));
    match span_around(covered, &cut) {
        Some(span) => release_at(alloc, span.upper()),
        None => Some(release_of(alloc, from)),
    }
}

/// The span that contains a cut, if one of them does.
fn span_around<'c>(spans: &'c [Span<Version>], cut: &Cut<Version>) -> Option<&'c Span<Version>>
    requires { AreMerged version_cmp spans.now }
    ensures { MatchOption result (¬ IsInSome version_cmp spans.now cut.now)
        (λ span. Contains spans.now span.now × IsInSpan version_cmp span.now cut.now) }
{
    let place = spans.partition_point(|span| *span.upper() <= *cut);
    if place < spans.len() && *spans[place].lower() <= *cut {
        Some(&spans[place])
    } else {
        None
    }
}

/// The least release from this one on that neither the spans nor the others contain. It goes through the others, and
/// searches the spans once for each.
pub(crate) fn least_free_of_both(
    alloc: Global,
    covered: &[Span<Version>],
    others: &[Span<Version>],
    from: Version,
) -> Option<Version>
    requires covered { AreSteps covered.now }
    requires others { AreSteps others.now }
    requires from { IsPlain from }
    ensures { IsLeastOrNone (IsFreeOfBoth covered.now others.now from) result }
{
    let mut next = from;
    for other in others {
        let found = Cut::Before(least_free(alloc, covered, &next)?);
        if found < *other.lower() {
            return release_at(alloc, &found);
        }
        next = release_past(alloc, other.upper(), next)?;
    }
    least_free(alloc, covered, &next)
}
