//! The search for the least version that is wanted of two ranges.
//!
//! `#[inline(always)]` makes one function of the steps from candidate to candidate. `#[inline(never)]` keeps out what
//! needs a list of identifiers: most candidates are releases.
ghost use Rattle.std.specs.Prelude.{◌≡◌, ◌↔◌, [], IsTrue};
ghost use Rattle.std.specs.List.{AllByRecursion};
ghost use Rattle.semver_cuts.specs.declared.cut.Cut.TheVariants.{After, Before};
ghost use Rattle.semver_sets.specs.RangeSets.{IsRangeSet, IsRangeCut, IsRangeEnd};
ghost use Rattle.semver_texts.specs.Version.{release};
ghost use Rattle.node_semver.specs.Private.CandidateViews.{AreEndsTried, AreSetsTried, IsBelowBest, IsCutTrial};
ghost use Rattle.node_semver.specs.Private.CandidateViews.{IsLeastOpened, IsOpenTrial, IsShut, IsTrial, first_of};

use crate::range::least::candidates::is_release_below;
use crate::range::least::question::{Inclusion, Question};
use crate::range::least::unbuilt::Unbuilt;
use crate::{Comparisons, Range};
use semver_cuts::{Cut, Span};
use semver_sets::set::admits;
use semver_texts::end::EndVersion;
use semver_texts::{AsVersion, Triple};

// The least wanted version, as a candidate that is not built: the least of the wanted candidates.
#[inline(always)]
pub(crate) fn least_wanted<'a, Q: Question, I: Inclusion>(
    range: &'a Range,
    other: &'a Range,
) -> Option<Unbuilt<'a>>
    ensures { AreEndsTried I.included (Q.wanted I.included range.now other.now) Q.end range.now other.now result }
{
    let found = least_candidate::<Q, I>(range.sets.as_slice(), range, other);
    least_with_others::<Q, I>(found, other.sets.as_slice(), range, other)
}

// The least of the candidates of the sets: for each set those where it begins, and the one in the triple that its upper
// end opens.
#[inline(always)]
fn least_candidate<'a, Q: Question, I: Inclusion>(
    sets: &'a [Span<EndVersion>],
    range: &Range,
    other: &Range,
) -> Option<Unbuilt<'a>>
    requires { AllByRecursion IsRangeSet sets.now }
    ensures { AreSetsTried I.included (Q.wanted I.included range.now other.now) sets.now result }
{
    let mut best = None;
    'sets: for set in sets {
        try_cut::<Q, I>(&mut best, set.lower(), range, other);
        try_opened::<Q, I>(&mut best, set, range, other);
    }
    best
}

// The least of these and of the candidates at an end of each of the other's sets.
#[inline(always)]
fn least_with_others<'a, Q: Question, I: Inclusion>(
    found: Option<Unbuilt<'a>>,
    sets: &'a [Span<EndVersion>],
    range: &Range,
    other: &Range,
) -> Option<Unbuilt<'a>>
    requires sets { AllByRecursion IsRangeSet sets.now }
    requires found { AreSetsTried I.included (Q.wanted I.included range.now other.now) range.now found }
    ensures { AreEndsTried I.included (Q.wanted I.included range.now other.now) Q.end range.now sets.now result }
{
    let mut best = found;
    'sets: for set in sets {
        try_cut::<Q, I>(&mut best, Q::end_of(set), range, other);
    }
    best
}

// Tries the candidates at a cut: the least release after it and, if it is at a prerelease or prereleases are included, the
// least version after it.
#[inline(always)]
fn try_cut<'a, Q: Question, I: Inclusion>(
    best: &mut Option<Unbuilt<'a>>,
    cut: &'a Cut<EndVersion>,
    range: &Range,
    other: &Range,
)
    requires { IsRangeCut cut.now }
    ensures { IsCutTrial I.included (Q.wanted I.included range.now other.now) best.old cut.now best.new }
{
    match cut {
        Cut::Start => try_first::<Q, I>(best, Triple::new(0, 0, 0), range, other),
        Cut::Before(end) => try_before::<Q, I>(best, end, range, other),
        Cut::After(end) => try_after::<Q, I>(best, end, range, other),
        Cut::End => {}
    }
}

#[inline(always)]
fn try_before<'a, Q: Question, I: Inclusion>(
    best: &mut Option<Unbuilt<'a>>,
    end: &'a EndVersion,
    range: &Range,
    other: &Range,
)
    ensures { IsCutTrial I.included (Q.wanted I.included range.now other.now) best.old (Before end.now) best.new }
{
    if end.is_prerelease() {
        try_candidate::<Q, I>(best, Unbuilt::at_end(end).without_build(), range, other);
    }
    try_release::<Q, I>(best, end.triple(), range, other);
}

#[inline(never)]
fn try_after<'a, Q: Question, I: Inclusion>(
    best: &mut Option<Unbuilt<'a>>,
    end: &'a EndVersion,
    range: &Range,
    other: &Range,
)
    requires { IsRangeEnd end.now }
    ensures { IsCutTrial I.included (Q.wanted I.included range.now other.now) best.old (After end.now) best.new }
{
    if end.is_prerelease() {
        try_candidate::<Q, I>(best, Unbuilt::after_end(end).without_build(), range, other);
        try_release::<Q, I>(best, end.triple(), range, other);
    } else {
        let next = Triple::new(end.major, end.minor, end.patch + 1);
        try_first::<Q, I>(best, next, range, other);
    }
}

// Tries the release of a triple or, with prereleases included, its least version.
#[inline(always)]
fn try_first<'a, Q: Question, I: Inclusion>(
    best: &mut Option<Unbuilt<'a>>,
    triple: Triple,
    range: &Range,
    other: &Range,
)
    ensures { IsTrial (Q.wanted I.included range.now other.now) best.old
        (first_of I.included triple.major triple.minor triple.patch) best.new }
{
    if I::includes() {
        try_candidate::<Q, I>(best, Unbuilt::least_of(triple), range, other);
    } else {
        try_release::<Q, I>(best, triple, range, other);
    }
}

// Tries the least version of the triple that the upper end of a set opens, if the set admits it. If that end is
// `1.2.3-0`, no version of the triple is below it.
#[inline(always)]
fn try_opened<'a, Q: Question, I: Inclusion>(
    best: &mut Option<Unbuilt<'a>>,
    set: &Span<EndVersion>,
    range: &Range,
    other: &Range,
)
    ensures { IsOpenTrial (Q.wanted I.included range.now other.now) best.old set.now best.new }
{
    if opens_nothing_inside(set.upper()) {
        return;
    }
    try_least_opened::<Q, I>(best, set, range, other);
}

#[inline(never)]
fn try_least_opened<'a, Q: Question, I: Inclusion>(
    best: &mut Option<Unbuilt<'a>>,
    set: &Span<EndVersion>,
    range: &Range,
    other: &Range,
)
    ensures { IsOpenTrial (Q.wanted I.included range.now other.now) best.old set.now best.new }
{
    match least_opened(set.upper()) {
        Some(least) => {
            if admits(set, &least, &mut Comparisons::new()) {
                try_candidate::<Q, I>(best, least, range, other);
            }
        }
        None => {}
    }
}

// Returns `true` only if no prerelease of the triple that the cut opens is below the cut. Only the identifiers are
// tested.
#[inline(always)]
fn opens_nothing_inside(cut: &Cut<EndVersion>) -> bool
    ensures { IsTrue result → IsShut cut.now }
{
    match cut {
        Cut::Before(end) => end.has_no_lists(),
        Cut::After(end) => !end.is_prerelease(),
        Cut::Start | Cut::End => true,
    }
}

// The least version of the triple that the cut opens.
#[inline]
fn least_opened<'a>(cut: &Cut<EndVersion>) -> Option<Unbuilt<'a>>
    ensures { IsLeastOpened cut.now result }
{
    match cut {
        Cut::Before(end) | Cut::After(end) => {
            if end.is_prerelease() {
                Some(Unbuilt::least_of(end.triple()))
            } else {
                None
            }
        }
        Cut::Start | Cut::End => None,
    }
}

// Keeps the candidate if it is less than the best so far and wanted.
#[inline(never)]
fn try_candidate<'a, Q: Question, I: Inclusion>(
    best: &mut Option<Unbuilt<'a>>,
    candidate: Unbuilt<'a>,
    range: &Range,
    other: &Range,
)
    requires { candidate.build ≡ [] }
    ensures { IsTrial (Q.wanted I.included range.now other.now) best.old candidate.entry best.new }
{
    if candidate.is_below_best(best) && Q::is_wanted::<I, Unbuilt<'a>>(&candidate, range, other) {
        *best = Some(candidate);
    }
}

// Keeps the release of a triple if it is less than the best so far and wanted: only triples are compared.
#[inline(always)]
fn try_release<Q: Question, I: Inclusion>(
    best: &mut Option<Unbuilt<'_>>,
    triple: Triple,
    range: &Range,
    other: &Range,
)
    ensures { IsTrial (Q.wanted I.included range.now other.now) best.old
        (release triple.major triple.minor triple.patch) best.new }
{
    if is_release_below(triple, best) {
        try_lower::<Q, I>(best, triple, range, other);
    }
}

// Keeps a release that is less than the best so far if it is wanted.
#[inline(never)]
fn try_lower<Q: Question, I: Inclusion>(
    best: &mut Option<Unbuilt<'_>>,
    triple: Triple,
    range: &Range,
    other: &Range,
)
    requires { IsBelowBest best.old (release triple.major triple.minor triple.patch) }
    ensures { IsTrial (Q.wanted I.included range.now other.now) best.old
        (release triple.major triple.minor triple.patch) best.new }
{
    if Q::is_wanted::<I, Triple>(&triple, range, other) {
        *best = Some(Unbuilt::release(triple));
    }
}
