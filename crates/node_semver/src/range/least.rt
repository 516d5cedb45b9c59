//! The least version that satisfies a range.
//!
//! `#[inline(always)]`: the usual range has one set that begins just before a release, and its result is then a few
//! tests and a copy of three numbers. `#[inline(never)]` keeps all else, with its stack, out of that way.
ghost use Rattle.std.specs.Prelude.{◌≡◌, ◌↔◌, Bool, Some, IfOk, IfSome, IsNone};
ghost use Rattle.std.specs.List.{AllByRecursion};
ghost use Rattle.semver_texts.specs.Identifier.{values_of};
ghost use Rattle.semver_sets.specs.RangeSets.{IsRangeSet};
ghost use Rattle.semver_texts.specs.Version.{release};
ghost use Rattle.node_semver.specs.Least.{AdmitsNone, HasBuildOfFirst, IsLeastAdmitted};
ghost use Rattle.node_semver.specs.Private.LeastViews.{IsKept, IsLeastOfSet, IsLeastOfSets, IsLeastOfTriple, IsLesser};

mod beyond;
mod candidates;
mod common;
pub(crate) mod question;
pub(crate) mod search;
pub(crate) mod unbuilt;

use crate::{Identifier, Range, Version};
use semver_cuts::{Cut, Span};
use semver_sets::set::opens;
use semver_texts::Triple;
use semver_texts::end::{BorrowedIdentifiers, EndVersion};
use std::alloc::{AllocError, Global};
use unbuilt::Unbuilt;

impl Range {
    /// Returns the least version that satisfies the range, or `None` if no version does.
    ///
    /// A range can contain cuts and admit no version: `<0.0.0`, or `>1.0.0-a <1.0.0-a.0`. The result has the build of
    /// the lower end of the first set that admits it, and no build if that set has no lower end.
    ///
    /// # Errors
    ///
    /// Returns `AllocError` if an allocation fails.
    ///
    /// # Memory
    ///
    /// Allocates the identifiers of the result, and nothing else.
    ///
    /// # Examples
    ///
    /// `1.2.3` for `^1.2.3`, `1.0.1` for `>1.0.0`, `1.0.1-0` for `>1.0.0 <1.0.1-beta`, `1.1.1` for
    /// `>=2.2.2 || >=1.1.1 <2`, and `None` for `>1.0.0 <1.0.1-0`.
    ///
    /// # Source
    ///
    /// npm's `semver`, `minVersion`.
    pub fn min_version(&self, alloc: Global) -> Result<Option<Version>, AllocError>
        ensures least { IfOk result (λ found. IfSome found (IsLeastAdmitted self.now)) }
        ensures none { IfOk result (λ found. IsNone found ↔ AdmitsNone self.now) }
        ensures build { IfOk result (λ found. IfSome found (HasBuildOfFirst self.now)) }
    {
        least_version(alloc, self.sets.as_slice(), false)
    }
}

// The least version in one of the sets. With prereleases included, a set has each version inside it, else those that it
// admits.
#[inline(always)]
pub(crate) fn least_version(
    alloc: Global,
    sets: &[Span<EndVersion>],
    included: bool,
) -> Result<Option<Version>, AllocError>
    requires { AllByRecursion IsRangeSet sets.now }
    ensures { IfOk result (IsLeastOfSets included sets.now) }
{
    match plain_beginning(sets) {
        Some(end) => {
            let (major, minor, patch) = (end.major, end.minor, end.patch);
            Ok(Some(Version::new(alloc, major, minor, patch)))
        }
        None => least_built(alloc, sets, included),
    }
}

// If the range has one set, which begins just before a release without build: that release, which is the least. Most
// ranges are such.
#[inline(always)]
fn plain_beginning(sets: &[Span<EndVersion>]) -> Option<&EndVersion>
    requires { AllByRecursion IsRangeSet sets.now }
    ensures least { IfSome result (λ v. (included : Bool) → IsLeastOfSets included sets.now (Some v.now)) }
    ensures plain { IfSome result (λ v. v.now ≡ release v.now.major v.now.minor v.now.patch) }
{
    match sets {
        [set] => match set.lower() {
            Cut::Before(end) if end.has_no_extras() => Some(end),
            _ => None,
        },
        _ => None,
    }
}

// The least version of any sets.
#[inline(never)]
fn least_built(
    alloc: Global,
    sets: &[Span<EndVersion>],
    included: bool,
) -> Result<Option<Version>, AllocError>
    requires { AllByRecursion IsRangeSet sets.now }
    ensures { IfOk result (IsLeastOfSets included sets.now) }
{
    match least_of_sets(sets, included) {
        Some(least) => Ok(Some(least.built(alloc)?)),
        None => Ok(None),
    }
}

// The least version of the sets, as a candidate that is not built.
#[inline]
fn least_of_sets(sets: &[Span<EndVersion>], included: bool) -> Option<Unbuilt<'_>>
    requires { AllByRecursion IsRangeSet sets.now }
    ensures { IsLeastOfSets included sets.now result }
{
    let mut least = None;
    'sets: for set in sets {
        keep_least(&mut least, set, included);
    }
    least
}

// Keeps the least version of the set if it is less than the least so far. Most sets begin just before a version. If
// that version is not less than the least so far, one comparison is enough.
#[inline(always)]
fn keep_least<'a>(least: &mut Option<Unbuilt<'a>>, set: &'a Span<EndVersion>, included: bool)
    requires { IsRangeSet set.now }
    ensures { IsKept included set.now least.old least.new }
{
    match set.lower() {
        Cut::Before(end) => keep_lesser_end(least, end),
        Cut::Start | Cut::After(_) | Cut::End => keep_least_inside(least, set, included),
    }
}

#[inline(always)]
fn keep_lesser_end<'a>(least: &mut Option<Unbuilt<'a>>, end: &'a EndVersion)
    ensures { IsLesser least.old (Some end.now) least.new }
{
    match &*least {
        Some(found) => {
            if found.is_above(end) {
                *least = Some(Unbuilt::at_end(end));
            }
        }
        None => *least = Some(Unbuilt::at_end(end)),
    }
}

// Keeps the least version of a set that does not begin just before a version, if it is less than the least so far.
#[inline(never)]
fn keep_least_inside<'a>(least: &mut Option<Unbuilt<'a>>, set: &'a Span<EndVersion>, included: bool)
    requires { IsRangeSet set.now }
    ensures { IsKept included set.now least.old least.new }
{
    keep_lesser(least, least_of_set(set, included));
}

// Keeps the lesser of the two, and the earlier of equal ones.
#[inline(always)]
fn keep_lesser<'a>(least: &mut Option<Unbuilt<'a>>, later: Option<Unbuilt<'a>>)
    ensures { IsLesser least.old later.entry least.new }
{
    match (&later, &*least) {
        (Some(found), Some(best)) => {
            if found.is_below(best) {
                *least = later;
            }
        }
        (Some(_), None) => *least = later,
        (None, _) => {}
    }
}

// The least version in the set. If the set begins just before a version, it is that version.
#[inline]
fn least_of_set(set: &Span<EndVersion>, included: bool) -> Option<Unbuilt<'_>>
    requires { IsRangeSet set.now }
    ensures { IsLeastOfSet included set.now result }
{
    let upper = set.upper();
    match set.lower() {
        Cut::Start => {
            least_of_triple(upper, Triple::new(0, 0, 0), &[], included).if_inside(upper)
        }
        Cut::Before(end) => Some(Unbuilt::at_end(end)),
        Cut::After(end) if end.is_prerelease() => { Unbuilt::after_end(end).if_inside(upper) }
        Cut::After(end) => {
            let next = Triple::new(end.major, end.minor, end.patch + 1);
            least_of_triple(upper, next, end.build(), included).if_inside(upper)
        }
        Cut::End => None,
    }
}

// The least version in the set of a triple that its lower end does not open: a prerelease if prereleases are included or
// the upper end opens it.
#[inline]
fn least_of_triple<'a>(
    upper: &Cut<EndVersion>,
    triple: Triple,
    build: &'a [Identifier],
    included: bool,
) -> Unbuilt<'a>
    ensures { IsLeastOfTriple included upper.now triple.major triple.minor triple.patch (values_of build.now) result }
{
    Unbuilt {
        major: triple.major,
        minor: triple.minor,
        patch: triple.patch,
        identifiers: BorrowedIdentifiers::List(&[]),
        zero: included || opens(upper, triple),
        build,
    }
}
