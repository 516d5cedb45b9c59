//! The greatest and the least of the versions of an array that a range admits or, with prereleases included, contains.
ghost use Rattle.std.specs.Option.{option_map};
ghost use Rattle.std.specs.Prelude.{◌≡◌, ◌↔◌, IsTrue};
ghost use Rattle.std.specs.declared.cmp.Ordering.TheVariants.{Less};
ghost use Rattle.node_semver.specs.Greatest.{IsNoneIn};
ghost use Rattle.node_semver.specs.Lemmas.GreatestViews.{order_of};
ghost use Rattle.node_semver_c.specs.Greatest.{IsBestAt, IsGreatestAt, IsLeastAt};
ghost use Rattle.node_semver_c.specs.Private.GreatestPlaces.{IsBestAtOrNone, IsBetterAt};
ghost use Rattle.node_semver_c.specs.Greatest.{values};
ghost use Rattle.semver_sets.specs.Meaning.{RangeAdmits, RangeContains};

use crate::handle::range::RangeRef;
use crate::handle::version::VersionRef;
use node_semver::{Admits, Version};

/// `max_satisfying`: returns whether the range admits one of the versions, and writes the place of the greatest.
#[unsafe(no_mangle)]
pub extern "C" fn node_semver_max_satisfying(
    versions: &[VersionRef],
    range: &RangeRef,
    place: &mut usize,
) -> bool
    ensures greatest { IsTrue result → IsGreatestAt (RangeAdmits range.now.value) (values versions.now) place.new }
    ensures none { (¬ IsTrue result) ↔ IsNoneIn (RangeAdmits range.now.value) (values versions.now) }
{
    place_of_best(versions, range.get(), place, true)
}

/// `min_satisfying`: returns whether the range admits one of the versions, and writes the place of the least.
#[unsafe(no_mangle)]
pub extern "C" fn node_semver_min_satisfying(
    versions: &[VersionRef],
    range: &RangeRef,
    place: &mut usize,
) -> bool
    ensures least { IsTrue result → IsLeastAt (RangeAdmits range.now.value) (values versions.now) place.new }
    ensures none { (¬ IsTrue result) ↔ IsNoneIn (RangeAdmits range.now.value) (values versions.now) }
{
    place_of_best(versions, range.get(), place, false)
}

/// `WithPrereleases::max_satisfying`: the greatest of the versions that the range contains, prereleases too.
#[unsafe(no_mangle)]
pub extern "C" fn node_semver_max_satisfying_with_prereleases(
    versions: &[VersionRef],
    range: &RangeRef,
    place: &mut usize,
) -> bool
    ensures greatest { IsTrue result → IsGreatestAt (RangeContains range.now.value) (values versions.now) place.new }
    ensures none { (¬ IsTrue result) ↔ IsNoneIn (RangeContains range.now.value) (values versions.now) }
{
    place_of_best(versions, &range.get().with_prereleases(), place, true)
}

/// `WithPrereleases::min_satisfying`.
#[unsafe(no_mangle)]
pub extern "C" fn node_semver_min_satisfying_with_prereleases(
    versions: &[VersionRef],
    range: &RangeRef,
    place: &mut usize,
) -> bool
    ensures least { IsTrue result → IsLeastAt (RangeContains range.now.value) (values versions.now) place.new }
    ensures none { (¬ IsTrue result) ↔ IsNoneIn (RangeContains range.now.value) (values versions.now) }
{
    place_of_best(versions, &range.get().with_prereleases(), place, false)
}

// Writes the place of the greatest version that is admitted, or of the least if `upward` is false. Inlined, so that
// the order is chosen once and not at each version.
#[inline(always)]
fn place_of_best<A: Admits>(
    versions: &[VersionRef],
    asked: &A,
    place: &mut usize,
    upward: bool,
) -> bool
    ensures best { IsTrue result
        → IsBestAt (λ v best. order_of upward best v ≡ Less) (A.admits asked.now) (values versions.now) place.new }
    ensures none { (¬ IsTrue result) ↔ IsNoneIn (A.admits asked.now) (values versions.now) }
{
    match best_of(versions, asked, upward) {
        Some((found, _)) => {
            *place = found;
            true
        }
        None => false,
    }
}

// The greatest version that is admitted, or the least, with its place. Inlined, as its caller is.
#[inline(always)]
fn best_of<'a, A: Admits>(
    versions: &'a [VersionRef],
    asked: &A,
    upward: bool,
) -> Option<(usize, &'a Version)>
    ensures { IsBestAtOrNone (order_of upward) (A.admits asked.now) (values versions.now)
        (option_map (λ b. (b.0, b.1.now)) result) }
{
    let mut best = None;
    'versions: for place in 0..versions.len() {
        best = better(best, place, versions[place].get(), asked, upward);
    }
    best
}

// Returns the version and its place if it is better than the best so far and admitted, or else the best.
// Inlined, since it is the body of the loop.
#[inline(always)]
fn better<'a, A: Admits>(
    best: Option<(usize, &'a Version)>,
    place: usize,
    version: &'a Version,
    asked: &A,
    upward: bool,
) -> Option<(usize, &'a Version)>
    ensures { IsBetterAt (order_of upward) (A.admits asked.now) (option_map (λ b. (b.0, b.1.now)) best.entry) place
        version.now (option_map (λ b. (b.0, b.1.now)) result) }
{
    let is_best = match best {
        Some((_, best)) => is_better(version, best, upward),
        None => true,
    };
    if is_best && version.satisfies(asked) {
        Some((place, version))
    } else {
        best
    }
}

// Returns whether the version is greater than the best so far, or less if `upward` is false.
#[inline(always)]
fn is_better(version: &Version, best: &Version, upward: bool) -> bool
    ensures { IsTrue result ↔ (order_of upward best.now version.now ≡ Less) }
{
    if upward {
        best.cmp(version).is_lt()
    } else {
        version.cmp(best).is_lt()
    }
}
