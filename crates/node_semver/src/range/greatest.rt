//! The greatest and the least version of a list that satisfies a range.
//!
//! One loop serves all that asks as a range does: whatever is `Admits`.
ghost use Rattle.std.specs.Option.{option_map};
ghost use Rattle.std.specs.Prelude.{◌≡◌, ◌↔◌, IfSome, IsNone, IsTrue, map};
ghost use Rattle.std.specs.declared.cmp.Ordering.TheVariants.{Less};
ghost use Rattle.node_semver.specs.Greatest.{AdmitsNoneIn, IsGreatestAdmitted, IsGreatestIn, IsLeastAdmittedIn};
ghost use Rattle.node_semver.specs.Greatest.{IsLeastIn, IsNoneIn};
ghost use Rattle.node_semver.specs.Lemmas.GreatestViews.{IsBestOrNone, IsBetterOf, order_of};

use crate::{Admits, OrderedVersion, Range};

/// Returns the greatest version of the list that satisfies the range, or `None` if none does. Of equal versions it
/// returns the first.
///
/// Equal versions can differ in the build. The returned version is borrowed from the list, which need not be sorted.
/// The versions can be of any type with the trait [`OrderedVersion`].
///
/// # Memory
///
/// Does not allocate.
///
/// # Examples
///
/// Of `1.0.0`, `1.2.3+a`, `1.2.3+b` and `2.0.0` it returns `1.2.3+a` for `^1`, and `None` for `^3`. Of `1.2.3` and
/// `1.3.0-rc.1` it returns `1.2.3` for `^1`, because `^1` admits no prerelease of 1.3.0.
///
/// # Source
///
/// npm's `semver`, `maxSatisfying`.
pub fn max_satisfying<'a, V: OrderedVersion>(versions: &'a [V], range: &Range) -> Option<&'a V>
    ensures greatest { IfSome result (λ v. IsGreatestAdmitted range.now (map V.seen versions.now) (V.seen v.now)) }
    ensures none { IsNone result ↔ AdmitsNoneIn range.now (map V.seen versions.now) }
{
    greatest_admitted(versions, range)
}

/// Returns the least version of the list that satisfies the range, or `None` if none does. Of equal versions it returns
/// the first.
///
/// Equal versions can differ in the build. The returned version is borrowed from the list, which need not be sorted.
/// The versions can be of any type with the trait [`OrderedVersion`].
///
/// # Memory
///
/// Does not allocate.
///
/// # Examples
///
/// Of `2.0.0`, `1.2.3+a`, `1.2.3+b` and `1.4.0` it returns `1.2.3+a` for `^1`, and `None` for `^3`. Of `1.3.0-rc.1` and
/// `1.4.0` it returns `1.4.0` for `^1`, because `^1` admits no prerelease of 1.3.0.
///
/// # Source
///
/// npm's `semver`, `minSatisfying`.
pub fn min_satisfying<'a, V: OrderedVersion>(versions: &'a [V], range: &Range) -> Option<&'a V>
    ensures least { IfSome result (λ v. IsLeastAdmittedIn range.now (map V.seen versions.now) (V.seen v.now)) }
    ensures none { IsNone result ↔ AdmitsNoneIn range.now (map V.seen versions.now) }
{
    least_admitted(versions, range)
}

// The greatest version of the list that is admitted: by a range, or by what asks as a range does.
#[inline(always)]
pub(crate) fn greatest_admitted<'a, V: OrderedVersion, A: Admits>(
    versions: &'a [V],
    asked: &A,
) -> Option<&'a V>
    ensures greatest { IfSome result (λ v. IsGreatestIn (A.admits asked.now) (map V.seen versions.now) (V.seen v.now)) }
    ensures none { IsNone result ↔ IsNoneIn (A.admits asked.now) (map V.seen versions.now) }
{
    best_of(versions, asked, true)
}

// The least version of the list that is admitted.
#[inline(always)]
pub(crate) fn least_admitted<'a, V: OrderedVersion, A: Admits>(
    versions: &'a [V],
    asked: &A,
) -> Option<&'a V>
    ensures least { IfSome result (λ v. IsLeastIn (A.admits asked.now) (map V.seen versions.now) (V.seen v.now)) }
    ensures none { IsNone result ↔ IsNoneIn (A.admits asked.now) (map V.seen versions.now) }
{
    best_of(versions, asked, false)
}

// Returns the greatest version of those that are admitted, or the least if `upward` is false. `inline(always)`: the order
// is then chosen once, and not at each version.
#[inline(always)]
fn best_of<'a, V: OrderedVersion, A: Admits>(
    versions: &'a [V],
    asked: &A,
    upward: bool,
) -> Option<&'a V>
    ensures { IsBestOrNone (order_of upward) (A.admits asked.now) (map V.seen versions.now)
        (option_map (λ v. V.seen v.now) result) }
{
    let mut best = None;
    'versions: for version in versions {
        best = better(best, version, asked, upward);
    }
    best
}

// The version if it is better than the best so far and admitted, else the best so far. The order is compared first,
// which is less work. `inline(always)`: the body of the loop over the list.
#[inline(always)]
fn better<'a, V: OrderedVersion, A: Admits>(
    best: Option<&'a V>,
    version: &'a V,
    asked: &A,
    upward: bool,
) -> Option<&'a V>
    ensures { IsBetterOf (order_of upward) (A.admits asked.now) (option_map (λ v. V.seen v.now) best.entry)
        (V.seen version.now) (option_map (λ v. V.seen v.now) result) }
{
    let is_best = match best {
        Some(best) => is_better(version, best, upward),
        None => true,
    };
    if is_best && asked.admits_version(version) {
        Some(version)
    } else {
        best
    }
}

// Returns whether the version is greater than the best so far, or less if `upward` is false.
#[inline(always)]
fn is_better<V: OrderedVersion>(version: &V, best: &V, upward: bool) -> bool
    ensures { IsTrue result ↔ (order_of upward (V.seen best.now) (V.seen version.now) ≡ Less) }
{
    if upward {
        best.cmp_version(version).is_lt()
    } else {
        version.cmp_version(best).is_lt()
    }
}
