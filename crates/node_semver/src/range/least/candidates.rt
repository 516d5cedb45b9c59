//! The candidates for the least version that is wanted of two ranges. A candidate is checked against sets before any memory is
//! allocated for it.
//!
//! `#[inline(always)]`: each function is a few stores or comparisons in the loop over the candidates.
ghost use Rattle.std.specs.Prelude.{◌≡◌, ◌↔◌, IsTrue};
ghost use Rattle.semver_texts.specs.Comparison.{prerelease_cmp};
ghost use Rattle.semver_texts.specs.Version.{least_of, release, without_build};
ghost use Rattle.node_semver.specs.Private.CandidateViews.{IsBelowBest};

use crate::range::least::unbuilt::Unbuilt;
use semver_texts::end::{BorrowedIdentifiers, EndVersion};
use semver_texts::{AsVersion, Triple};
use std::cmp::Ordering;

impl<'a> Unbuilt<'a> {
    // The release with this triple.
    #[inline(always)]
    pub(crate) fn release(triple: Triple) -> Unbuilt<'a>
        ensures { result ≡ release triple.major triple.minor triple.patch }
    {
        Unbuilt {
            major: triple.major,
            minor: triple.minor,
            patch: triple.patch,
            identifiers: BorrowedIdentifiers::List(&[]),
            zero: false,
            build: &[],
        }
    }

    // The least version with this triple.
    #[inline(always)]
    pub(crate) fn least_of(triple: Triple) -> Unbuilt<'a>
        ensures { result ≡ least_of triple.major triple.minor triple.patch }
    {
        Unbuilt {
            zero: true,
            ..Unbuilt::release(triple)
        }
    }

    // This version without its build.
    #[inline(always)]
    pub(crate) fn without_build(self) -> Unbuilt<'a>
        ensures { result ≡ without_build self.entry }
    {
        Unbuilt { build: &[], ..self }
    }

    // Returns `true` if there is no best version so far, or this one is less than it.
    #[inline(always)]
    pub(crate) fn is_below_best(&self, best: &Option<Unbuilt<'_>>) -> bool
        ensures { IsTrue result ↔ IsBelowBest best.now self.now }
    {
        match best {
            Some(best) => self.is_below(best),
            None => true,
        }
    }
}

impl<'a> AsVersion for Unbuilt<'a> {
    ghost seen = { λ version. version };

    #[inline(always)]
    fn is_prerelease(&self) -> bool {
        self.zero || !self.identifiers.is_empty()
    }

    #[inline(always)]
    fn triple(&self) -> Triple {
        Triple::new(self.major, self.minor, self.patch)
    }

    #[inline(always)]
    fn cmp_extras(&self, end: &EndVersion) -> Ordering {
        cmp_with_end(end, self)
    }
}

// The order of the prereleases of an end and a version with the same triple. `inline(never)`: most candidates have no
// identifiers.
#[inline(never)]
fn cmp_with_end(end: &EndVersion, version: &Unbuilt<'_>) -> Ordering
    ensures { result ≡ prerelease_cmp end.now.pre_release version.now.pre_release }
{
    let end = Unbuilt::at_end(end);
    if end.is_prerelease_below(version) {
        Ordering::Less
    } else if version.is_prerelease_below(&end) {
        Ordering::Greater
    } else {
        Ordering::Equal
    }
}

// Returns `true` if there is no best version so far, or the release of this triple is less than it. No other version of
// its triple is greater than the release.
#[inline(always)]
pub(crate) fn is_release_below(triple: Triple, best: &Option<Unbuilt<'_>>) -> bool
    ensures { IsTrue result ↔ IsBelowBest best.now (release triple.major triple.minor triple.patch) }
{
    match best {
        Some(best) => triple < best.triple(),
        None => true,
    }
}
