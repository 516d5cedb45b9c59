//! Which versions a set admits.
//!
//! `#[inline(always)]`: the functions here are the steps of a search, and most versions are releases, for which only
//! triples are compared.
//!
//! All kinds of versions are searched alike: `==` needs one type on both sides, hence `cmp_ref`.
ghost use Rattle.std.specs.Prelude.{◌≡◌, ◌≤◌, ◌+◌, ◌↔◌, IsTrue};
ghost use Rattle.semver_cuts.specs.declared.cut.Cut.TheVariants.{Before, Start};
ghost use Rattle.semver_cuts.specs.Ends.{IsCutAtMost};
ghost use Rattle.semver_texts.specs.Comparison.{prerelease_cmp, version_cmp};
ghost use Rattle.semver_sets.specs.Meaning.{HasOpenEnd, IsInside, Opens, SetAdmits};
ghost use Rattle.semver_texts.specs.EndViews.{IsAtTriple};
ghost use Rattle.semver_texts.specs.Version.{IsPrerelease, VersionValue, release};

use crate::Counts;
use semver_cuts::{Cut, Span};
use semver_texts::end::EndVersion;
use semver_texts::{AsVersion, Triple};
use std::cmp::Ordering;

/// Returns `true` if the set admits the version, and adds the comparisons that this takes to `comparisons`.
///
/// A release is admitted if it lies inside the set. A prerelease also needs an end that is a prerelease of its triple.
/// If there is none, it is not compared at all.
#[inline(always)]
pub fn admits<V: AsVersion, C: Counts>(
    set: &Span<EndVersion>,
    version: &V,
    comparisons: &mut C,
) -> bool
    ensures answer { IsTrue result ↔ SetAdmits set.now (V.seen version.now) }
    ensures adds { C.count comparisons.old ≤ C.count comparisons.new }
    ensures short { C.count comparisons.new ≤ C.count comparisons.old + 2 }
    ensures admitted { IsTrue result → C.count comparisons.old + 2 ≤ C.count comparisons.new }
    ensures unopened { IsPrerelease (V.seen version.now) → ¬ HasOpenEnd (V.seen version.now) set.now
        → C.count comparisons.new ≡ C.count comparisons.old }
{
    if version.is_prerelease() {
        admits_prerelease(set, version, comparisons)
    } else {
        has_inside(set, version, comparisons)
    }
}

// Returns `true` if the set admits a prerelease. `inline(never)`: releases are checked most often.
#[inline(never)]
fn admits_prerelease<V: AsVersion, C: Counts>(
    set: &Span<EndVersion>,
    version: &V,
    comparisons: &mut C,
) -> bool
    requires { IsPrerelease (V.seen version.now) }
    ensures answer { IsTrue result ↔ SetAdmits set.now (V.seen version.now) }
    ensures adds { C.count comparisons.old ≤ C.count comparisons.new }
    ensures short { C.count comparisons.new ≤ C.count comparisons.old + 2 }
    ensures admitted { IsTrue result → C.count comparisons.old + 2 ≤ C.count comparisons.new }
    ensures unopened { ¬ HasOpenEnd (V.seen version.now) set.now → C.count comparisons.new ≡ C.count comparisons.old }
{
    admits_opened(set, version, comparisons)
}

// Returns `true` if the set admits a prerelease. `inline(always)`: the search among many sets calls it in a loop.
#[inline(always)]
pub(crate) fn admits_opened<V: AsVersion, C: Counts>(
    set: &Span<EndVersion>,
    version: &V,
    comparisons: &mut C,
) -> bool
    requires { IsPrerelease (V.seen version.now) }
    ensures answer { IsTrue result ↔ SetAdmits set.now (V.seen version.now) }
    ensures adds { C.count comparisons.old ≤ C.count comparisons.new }
    ensures short { C.count comparisons.new ≤ C.count comparisons.old + 2 }
    ensures admitted { IsTrue result → C.count comparisons.old + 2 ≤ C.count comparisons.new }
    ensures unopened { ¬ HasOpenEnd (V.seen version.now) set.now → C.count comparisons.new ≡ C.count comparisons.old }
{
    has_open_end(set, version) && has_inside(set, version, comparisons)
}

// Returns `true` if the version lies inside the set.
#[inline(always)]
pub(crate) fn has_inside<V: AsVersion, C: Counts>(
    set: &Span<EndVersion>,
    version: &V,
    comparisons: &mut C,
) -> bool
    ensures inside { IsTrue result ↔ IsInside (V.seen version.now) set.now }
    ensures adds { C.count comparisons.old ≤ C.count comparisons.new }
    ensures short { C.count comparisons.new ≤ C.count comparisons.old + 2 }
    ensures admitted { IsTrue result → C.count comparisons.old + 2 ≤ C.count comparisons.new }
{
    is_at_or_before(set.lower(), version, comparisons)
        && !is_at_or_before(set.upper(), version, comparisons)
}

// Returns `true` if the cut is less than the one just before the version, or equal to it. This is the only function
// that compares a version with a cut, and it counts the comparison.
#[inline(always)]
pub(crate) fn is_at_or_before<V: AsVersion, C: Counts>(
    cut: &Cut<EndVersion>,
    version: &V,
    comparisons: &mut C,
) -> bool
    ensures order { IsTrue result ↔ IsCutAtMost version_cmp cut.now (Before (V.seen version.now)) }
    ensures counted { C.count comparisons.new ≡ C.count comparisons.old + 1 }
{
    comparisons.add_one();
    is_at_most(cut, version)
}

// Returns `true` if the cut is less than the one just before the version, or equal to it, without the count. Most cuts
// are at an end whose triple differs from the version's, so only triples are compared.
#[inline(always)]
fn is_at_most<V: AsVersion>(cut: &Cut<EndVersion>, version: &V) -> bool
    ensures { IsTrue result ↔ IsCutAtMost version_cmp cut.now (Before (V.seen version.now)) }
{
    match cut {
        Cut::Before(end) | Cut::After(end) => {
            match end.triple().cmp(&version.triple()) {
                Ordering::Less => true,
                Ordering::Equal => is_at_most_in_triple(cut, version),
                Ordering::Greater => false,
            }
        }
        Cut::Start | Cut::End => is_start(cut),
    }
}

// Returns `true` if a cut at an end with the version's triple is less than the one just before the version, or equal
// to it.
#[inline(always)]
fn is_at_most_in_triple<V: AsVersion>(cut: &Cut<EndVersion>, version: &V) -> bool
    requires { IsAtTriple cut.now (V.seen version.now) }
    ensures { IsTrue result ↔ IsCutAtMost version_cmp cut.now (Before (V.seen version.now)) }
{
    match cut {
        Cut::Before(end) => version.cmp_extras(end).is_le(),
        Cut::After(end) => version.cmp_extras(end).is_lt(),
        Cut::Start | Cut::End => is_start(cut),
    }
}

#[inline]
fn is_start(cut: &Cut<EndVersion>) -> bool
    ensures { IsTrue result ↔ (cut.now ≡ Start) }
{
    match cut {
        Cut::Start => true,
        Cut::Before(_) | Cut::After(_) | Cut::End => false,
    }
}

// Returns `true` if an end of the set is a prerelease of the version's triple.
#[inline(always)]
fn has_open_end<V: AsVersion>(set: &Span<EndVersion>, version: &V) -> bool
    ensures { IsTrue result ↔ HasOpenEnd (V.seen version.now) set.now }
{
    let triple = version.triple();
    opens(set.lower(), triple) || opens(set.upper(), triple)
}

/// Returns `true` if the cut is at a prerelease of the triple. Such an end opens the triple for other prereleases.
#[inline]
pub fn opens(cut: &Cut<EndVersion>, triple: Triple) -> bool
    ensures { IsTrue result ↔ Opens cut.now (release triple.major triple.minor triple.patch) }
{
    match cut {
        Cut::Before(end) | Cut::After(end) => end.triple() == triple && end.is_prerelease(),
        Cut::Start | Cut::End => false,
    }
}
