//! Which versions are wanted of two ranges, with prereleases included or not.
//!
//! One search serves both questions, since a flag would be tested for each candidate.
ghost use Rattle.std.specs.Prelude.{◌≡◌, ◌↔◌, Bool, true, false, IsTrue, List};
ghost use Rattle.semver_cuts.specs.declared.cut.Cut.{Cut};
ghost use Rattle.semver_cuts.specs.Ends.{Ends};
ghost use Rattle.semver_sets.specs.RangeSets.{IsRangeSet, IsRangeCut};
ghost use Rattle.semver_texts.specs.Version.{VersionValue};
ghost use Rattle.node_semver.specs.Private.CandidateViews.{AreWantedBeyond, AreWantedOfBoth};
ghost use Rattle.node_semver.specs.Private.LeastViews.{IsInRange};

use crate::{Comparisons, Range};
use semver_cuts::{Cut, Span};
use semver_texts::AsVersion;
use semver_texts::end::EndVersion;

// Which versions a range has: those that it admits, or those that it contains. It is a type without values, as a question
// is.
pub(crate) trait Inclusion {
    // Whether prereleases are included.
    ghost included: { Bool };

    fn includes() -> bool
        ensures { result ≡ included };

    // Returns `true` if the range has the version.
    fn has<V: AsVersion>(range: &Range, version: &V) -> bool
        ensures { IsTrue result ↔ IsInRange included range.now (V.seen version.now) };
}

// A range has the versions that it admits.
pub(crate) struct Admitted;

impl Inclusion for Admitted {
    ghost included = { false };

    #[inline(always)]
    fn includes() -> bool {
        false
    }

    #[inline(always)]
    fn has<V: AsVersion>(range: &Range, version: &V) -> bool {
        range.sets.admits(version, &mut Comparisons::new())
    }
}

// A range has the versions that it contains: prereleases are included.
pub(crate) struct Contained;

impl Inclusion for Contained {
    ghost included = { true };

    #[inline(always)]
    fn includes() -> bool {
        true
    }

    #[inline(always)]
    fn has<V: AsVersion>(range: &Range, version: &V) -> bool {
        range.sets.contains(version, &mut Comparisons::new())
    }
}

// A question about two ranges. It is a type without values, so each question has a search of its own, which tests
// nothing more.
pub(crate) trait Question {
    // The versions that are wanted, with prereleases included or not, for the sets of the range and of the other.
    ghost wanted: { Bool → List (Ends VersionValue) → List (Ends VersionValue) → VersionValue → Type 0 };

    // The end at which a set of the other range can make versions wanted: above it, but not below.
    ghost end: { Ends VersionValue → Cut VersionValue };

    fn end_of(set: &Span<EndVersion>) -> &Cut<EndVersion>
        requires { IsRangeSet set.now }
        ensures end { result.now ≡ end set.now }
        ensures read { IsRangeCut result.now };

    // Returns `true` if the candidate is wanted.
    fn is_wanted<I: Inclusion, V: AsVersion>(candidate: &V, range: &Range, other: &Range) -> bool
        ensures { IsTrue result ↔ wanted I.included range.now other.now (V.seen candidate.now) };
}

// Which versions has the range and the other has not? Where a set of the other ends, it turns versions away.
pub(crate) struct Beyond;

impl Question for Beyond {
    ghost wanted = { AreWantedBeyond };

    ghost end = { λ set. set.upper };

    #[inline(always)]
    fn end_of(set: &Span<EndVersion>) -> &Cut<EndVersion> {
        set.upper()
    }

    #[inline(always)]
    fn is_wanted<I: Inclusion, V: AsVersion>(candidate: &V, range: &Range, other: &Range) -> bool {
        I::has(range, candidate) && !I::has(other, candidate)
    }
}

// Which versions have both ranges? Where a set of the other begins, it has versions.
pub(crate) struct Common;

impl Question for Common {
    ghost wanted = { AreWantedOfBoth };

    ghost end = { λ set. set.lower };

    #[inline(always)]
    fn end_of(set: &Span<EndVersion>) -> &Cut<EndVersion> {
        set.lower()
    }

    #[inline(always)]
    fn is_wanted<I: Inclusion, V: AsVersion>(candidate: &V, range: &Range, other: &Range) -> bool {
        I::has(range, candidate) && I::has(other, candidate)
    }
}
