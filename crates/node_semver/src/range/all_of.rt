//! Several ranges that are asked as one: a version satisfies them if it satisfies each.
ghost use Rattle.std.specs.Prelude.{◌≡◌, ◌↔◌, IfSome, IsNone, IsTrue, map};
ghost use Rattle.node_semver.specs.AllOf.{AllAdmit};
ghost use Rattle.node_semver.specs.Greatest.{IsGreatestIn, IsLeastIn, IsNoneIn};

use crate::range::greatest::{greatest_admitted, least_admitted};
use crate::{Admits, AsVersion, OrderedVersion};
use std::marker::Model;

/// Several ranges that are asked as one: a version satisfies them if it satisfies each.
///
/// The list can be of [`Range`](crate::Range), of [`WithPrereleases`](crate::WithPrereleases), or of any other type with
/// the trait [`Admits`]. Each version satisfies the empty list.
///
/// A range that [`Range::intersect`](crate::Range::intersect) returns can admit more: the intersection of `^2.0.0-rc.1`
/// and `>=1.5` admits `2.0.0-rc.1`, which `>=1.5` does not.
///
/// # Examples
///
/// With the ranges `^2.0.0-rc.1` and `>=1.5`, the greatest of `1.9.0`, `2.0.0-rc.4` and `2.3.0` is `2.3.0`, and the least
/// is `2.3.0` too: `>=1.5` admits no prerelease.
#[derive(Debug, Drop)]
pub struct AllOf<'a, A> {
    ranges: &'a [A],
}

impl<'a, A> Model for AllOf<'a, A> {
    ghost use Rattle.std.specs.Prelude.{List};

    ghost Value = { List A };

    ghost view = { λ all. all.ranges.now };
}

impl<'a, A: Admits> AllOf<'a, A> {
    /// Returns the ranges of the list, to be asked as one.
    ///
    /// # Memory
    ///
    /// Does not allocate.
    ///
    /// # Examples
    ///
    /// `AllOf::new(&[range, other])` asks two ranges.
    #[inline(always)]
    pub fn new(ranges: &'a [A]) -> AllOf<'a, A>
        ensures { result ≡ ranges.now }
    {
        AllOf { ranges }
    }

    /// Returns `true` if the version satisfies each of the ranges.
    ///
    /// The ranges are asked in turn, up to the first that the version does not satisfy.
    ///
    /// # Memory
    ///
    /// Does not allocate.
    ///
    /// # Examples
    ///
    /// `1.5.0` satisfies `^1` and `>=1.2`. `1.1.0` and `2.0.0` do not.
    pub fn satisfies<V: AsVersion>(&self, version: &V) -> bool
        ensures { IsTrue result ↔ AllAdmit A.admits self.now (V.seen version.now) }
    {
        let ranges = self.ranges;
        'each: for range in ranges {
            if !range.admits_version(version) {
                return false;
            }
        }
        true
    }

    /// Returns the greatest version of the list that satisfies each of the ranges, or `None` if none does. Of equal
    /// versions it returns the first.
    ///
    /// The list is that of [`max_satisfying`](crate::max_satisfying).
    ///
    /// # Memory
    ///
    /// Does not allocate.
    ///
    /// # Examples
    ///
    /// Of `1.2.0`, `1.4.0+a`, `1.4.0+b`, `1.9.0` and `2.0.0` it returns `1.4.0+a` for `^1` and `<1.5`, and `None` for `^1`
    /// and `^2`.
    pub fn max_satisfying<'v, V: OrderedVersion>(&self, versions: &'v [V]) -> Option<&'v V>
        ensures greatest { IfSome result (λ v. IsGreatestIn (AllAdmit A.admits self.now) (map V.seen versions.now)
            (V.seen v.now)) }
        ensures none { IsNone result ↔ IsNoneIn (AllAdmit A.admits self.now) (map V.seen versions.now) }
    {
        greatest_admitted(versions, self)
    }

    /// Returns the least version of the list that satisfies each of the ranges, or `None` if none does. Of equal versions
    /// it returns the first.
    ///
    /// The list is that of [`min_satisfying`](crate::min_satisfying).
    ///
    /// # Memory
    ///
    /// Does not allocate.
    ///
    /// # Examples
    ///
    /// Of `2.0.0`, `1.4.0+a`, `1.4.0+b` and `1.0.0` it returns `1.4.0+a` for `^1` and `>=1.2`, and `None` for `^1` and
    /// `^2`.
    pub fn min_satisfying<'v, V: OrderedVersion>(&self, versions: &'v [V]) -> Option<&'v V>
        ensures least { IfSome result (λ v. IsLeastIn (AllAdmit A.admits self.now) (map V.seen versions.now)
            (V.seen v.now)) }
        ensures none { IsNone result ↔ IsNoneIn (AllAdmit A.admits self.now) (map V.seen versions.now) }
    {
        least_admitted(versions, self)
    }
}

/// What [`Version::satisfies`](crate::Version::satisfies) checks: `version.satisfies(&AllOf::new(&ranges))`.
impl<'a, A: Admits> Admits for AllOf<'a, A> {
    ghost admits = { AllAdmit A.admits };

    #[inline(always)]
    fn admits_version<V: AsVersion>(&self, version: &V) -> bool {
        self.satisfies(version)
    }
}
