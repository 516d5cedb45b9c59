//! Ranges that are asked with prereleases included.
ghost use Rattle.std.specs.Prelude.{◌≡◌, ◌↔◌, [], IfOk, IfSome, IsNone, IsTrue, map};
ghost use Rattle.semver_sets.specs.Meaning.{RangeContains};
ghost use Rattle.node_semver.specs.Greatest.{IsGreatestIn, IsLeastIn, IsNoneIn};
ghost use Rattle.node_semver.specs.Least.{BothContain, ContainsBeyond, ContainsNone, HasBuildOfFirstAround};
ghost use Rattle.node_semver.specs.Least.{IsContainedIn, IsLeastContained, IsLeastOf, IsNoneOf};

use crate::range::greatest::{greatest_admitted, least_admitted};
use crate::range::least::least_version;
use crate::range::least::question::{Beyond, Common, Contained};
use crate::range::least::search::least_wanted;
use crate::{Admits, AsVersion, OrderedVersion, Range, Version};
use std::alloc::{AllocError, Global};
use std::marker::Model;

/// A range that is asked with prereleases included: a version satisfies it if it lies inside one of the range's sets,
/// prerelease or not.
///
/// [`Range::with_prereleases`] makes it. It borrows the range.
///
/// # Source
///
/// npm's `semver`, the option `includePrerelease`, for the sets of this range. With that option npm also reads some texts
/// as other sets: see `Range::contains`.
#[derive(Debug, Drop)]
pub struct WithPrereleases<'a> {
    range: &'a Range,
}

impl<'a> Model for WithPrereleases<'a> {
    ghost use Rattle.std.specs.Prelude.{List};
    ghost use Rattle.semver_cuts.specs.Ends.{Ends};
    ghost use Rattle.semver_texts.specs.Version.{VersionValue};

    ghost Value = { List (Ends VersionValue) };

    ghost view = { λ w. w.range.now };
}

impl Range {
    /// Returns the range to be asked with prereleases included.
    ///
    /// # Memory
    ///
    /// Does not allocate.
    ///
    /// # Examples
    ///
    /// `1.2.4-rc.6` satisfies `^1.2.3` with prereleases included, and does not satisfy it otherwise.
    #[inline(always)]
    pub fn with_prereleases(&self) -> WithPrereleases<'_>
        ensures { result ≡ self.now }
    {
        WithPrereleases { range: self }
    }
}

impl<'a> WithPrereleases<'a> {
    /// Returns `true` if the version lies inside one of the range's sets, as [`Range::contains`] does.
    ///
    /// # Memory
    ///
    /// Does not allocate.
    ///
    /// # Examples
    ///
    /// `1.9.0` and `1.2.4-rc.6` satisfy `^1.2.3` with prereleases included. `1.2.3-rc.4` and `2.0.0-rc.1` do not.
    #[inline(always)]
    pub fn satisfies<V: AsVersion>(&self, version: &V) -> bool
        ensures { IsTrue result ↔ RangeContains self.now (V.seen version.now) }
    {
        self.range.contains(version)
    }

    /// Returns the greatest version of the list that lies inside one of the range's sets, or `None` if none does. Of
    /// equal versions it returns the first.
    ///
    /// The list is that of [`max_satisfying`](crate::max_satisfying).
    ///
    /// # Memory
    ///
    /// Does not allocate.
    ///
    /// # Examples
    ///
    /// Of `1.2.3` and `1.3.0-rc.1` it returns `1.3.0-rc.1` for `^1`, and `None` for `^2`.
    pub fn max_satisfying<'v, V: OrderedVersion>(&self, versions: &'v [V]) -> Option<&'v V>
        ensures greatest { IfSome result (λ v. IsGreatestIn (RangeContains self.now) (map V.seen versions.now)
            (V.seen v.now)) }
        ensures none { IsNone result ↔ IsNoneIn (RangeContains self.now) (map V.seen versions.now) }
    {
        greatest_admitted(versions, self)
    }

    /// Returns the least version of the list that lies inside one of the range's sets, or `None` if none does. Of equal
    /// versions it returns the first.
    ///
    /// The list is that of [`min_satisfying`](crate::min_satisfying).
    ///
    /// # Memory
    ///
    /// Does not allocate.
    ///
    /// # Examples
    ///
    /// Of `1.4.0` and `1.3.0-rc.1` it returns `1.3.0-rc.1` for `^1`, and `None` for `^2`.
    pub fn min_satisfying<'v, V: OrderedVersion>(&self, versions: &'v [V]) -> Option<&'v V>
        ensures least { IfSome result (λ v. IsLeastIn (RangeContains self.now) (map V.seen versions.now)
            (V.seen v.now)) }
        ensures none { IsNone result ↔ IsNoneIn (RangeContains self.now) (map V.seen versions.now) }
    {
        least_admitted(versions, self)
    }

    /// Returns the least version that lies inside one of the range's sets, or `None` if no version does.
    ///
    /// This can be a prerelease that no end has: the least version after the release `1.2.3` is `1.2.4-0`, and the least of
    /// all versions is `0.0.0-0`. The result has the build of the lower end of the first set that it lies inside, and no
    /// build if that set has no lower end.
    ///
    /// # Errors
    ///
    /// Returns `AllocError` if an allocation fails.
    ///
    /// # Memory
    ///
    /// Allocates the identifiers of the result, and nothing else.
    ///
    /// # Examples
    ///
    /// `1.2.3` for `>=1.2.3`, `1.2.4-0` for `>1.2.3`, `1.0.0-a.0` for `>1.0.0-a`, `0.0.0-0` for `<1.0.0`, and `None` for
    /// `>1.0.0 <1.0.1-0`.
    pub fn min_version(&self, alloc: Global) -> Result<Option<Version>, AllocError>
        ensures least { IfOk result (λ found. IfSome found (IsLeastContained self.now)) }
        ensures none { IfOk result (λ found. IsNone found ↔ ContainsNone self.now) }
        ensures build { IfOk result (λ found. IfSome found (HasBuildOfFirstAround self.now)) }
    {
        let range = self.range;
        least_version(alloc, range.sets.as_slice(), true)
    }

    /// Returns the least version that lies inside this range and not inside the other, or `None` if there is none.
    ///
    /// The other range is asked with prereleases included, too. The result has no build.
    ///
    /// # Errors
    ///
    /// Returns `AllocError` if an allocation fails.
    ///
    /// # Memory
    ///
    /// Allocates the identifiers of the result, and nothing else.
    ///
    /// # Examples
    ///
    /// `2.0.0-0` for `1 - 2` and `1 || 2`, `1.0.1-0` for `>=1.0.0` and `1.0.0`, and `None` for `^1.2.3-rc.4` and
    /// `>=1.0.0-0`.
    pub fn least_beyond(&self, alloc: Global, other: &Range) -> Result<Option<Version>, AllocError>
        ensures least { IfOk result (λ found. IfSome found (IsLeastOf (ContainsBeyond self.now other.now))) }
        ensures none { IfOk result (λ found. IsNone found ↔ IsNoneOf (ContainsBeyond self.now other.now)) }
        ensures contained { IfOk result (λ found. IsNone found ↔ IsContainedIn self.now other.now) }
        ensures build { IfOk result (λ found. IfSome found (λ v. v.build ≡ [])) }
    {
        match least_wanted::<Beyond, Contained>(self.range, other) {
            Some(least) => Ok(Some(least.built(alloc)?)),
            None => Ok(None),
        }
    }

    /// Returns the least version that lies inside both ranges, or `None` if there is none.
    ///
    /// The other range is asked with prereleases included, too. The result has no build.
    ///
    /// # Errors
    ///
    /// Returns `AllocError` if an allocation fails.
    ///
    /// # Memory
    ///
    /// Allocates the identifiers of the result, and nothing else.
    ///
    /// # Examples
    ///
    /// `2.0.0-rc.1` for `^2.0.0-rc.1` and `>=1.5`, `1.0.1-0` for `>1.0.0` and `<2`, and `None` for `1 - 2` and `3`.
    pub fn least_common(&self, alloc: Global, other: &Range) -> Result<Option<Version>, AllocError>
        ensures least { IfOk result (λ found. IfSome found (IsLeastOf (BothContain self.now other.now))) }
        ensures none { IfOk result (λ found. IsNone found ↔ IsNoneOf (BothContain self.now other.now)) }
        ensures build { IfOk result (λ found. IfSome found (λ v. v.build ≡ [])) }
    {
        match least_wanted::<Common, Contained>(self.range, other) {
            Some(least) => Ok(Some(least.built(alloc)?)),
            None => Ok(None),
        }
    }
}

/// What [`Version::satisfies`] checks: `version.satisfies(&range.with_prereleases())`.
impl<'a> Admits for WithPrereleases<'a> {
    ghost admits = { RangeContains };

    #[inline(always)]
    fn admits_version<V: AsVersion>(&self, version: &V) -> bool {
        self.satisfies(version)
    }
}
