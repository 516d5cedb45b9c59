//! An advisory of several ranges: whether it covers another range, and the least version that it spares.

ghost use Rattle.std.specs.Prelude.{◌≡◌, ◌≢◌, ◌↔◌, [], IfOk, IfSome, IsNone, IsTrue};
ghost use Rattle.node_semver_callers.specs.Advisory.{HasCut, IsHit, IsSpared};
ghost use Rattle.semver_cuts.specs.declared.cut.Cut.{Cut};
ghost use Rattle.semver_cuts.specs.SpanLists.{IsInSome};
ghost use Rattle.node_semver.specs.Versions.{version_cmp};
ghost use Rattle.node_semver.specs.Ranges.{RangeAdmits};
ghost use Rattle.node_semver.specs.Versions.{VersionValue};
ghost use Rattle.node_semver.specs.Least.{IsLeastOf, IsNoneOf};
ghost use Rattle.node_semver.specs.RangeAlgebra.{sets_of_answer};

use node_semver::{Range, Version};
use std::alloc::{AllocError, Global};

/// Returns the least version that the range admits and none of the advisory's ranges does, or `None` if the advisory
/// hits every version of the range.
pub fn least_spared(
    alloc: Global,
    range: &Range,
    advisory: &[Range],
) -> Result<Option<Version>, AllocError>
    ensures least { IfOk result (λ found. IfSome found (IsLeastOf (IsSpared range.now advisory.now))) }
    ensures none { IfOk result (λ found. IsNone found ↔ IsNoneOf (IsSpared range.now advisory.now)) }
{
    match union_of(alloc, advisory)? {
        Some(hit) => Ok(range.least_beyond(alloc, &hit)?),
        None => Ok(range.min_version(alloc)?),
    }
}

/// Returns `true` if the advisory has a range, and each cut of the other range lies in one of its ranges.
///
/// This counts prereleases that lie in a range and that it does not admit. [`least_spared`] does not.
pub fn is_covered(alloc: Global, range: &Range, advisory: &[Range]) -> Result<bool, AllocError>
    ensures { IfOk result (λ covered. IsTrue covered ↔ ((advisory.now ≢ [])
        × ((cut : Cut VersionValue) → IsInSome version_cmp range.now cut → HasCut advisory.now cut))) }
{
    match union_of(alloc, advisory)? {
        Some(hit) => Ok(hit.allows_all(range)),
        None => Ok(false),
    }
}

/// Returns the union of the ranges, or `None` if there are none. Each step copies the sets so far.
pub fn union_of(alloc: Global, ranges: &[Range]) -> Result<Option<Range>, AllocError>
    ensures none { IfOk result (λ union. IsNone union ↔ (ranges.now ≡ [])) }
    ensures admitted { IfOk result (λ union. (v : VersionValue) →
        RangeAdmits (sets_of_answer union) v ↔ IsHit ranges.now v) }
    ensures cuts { IfOk result (λ union. (cut : Cut VersionValue) →
        IsInSome version_cmp (sets_of_answer union) cut ↔ HasCut ranges.now cut) }
{
    let Some((first, others)) = ranges.split_first() else {
        return Ok(None);
    };
    let mut union = first.clone()?;
    for range in others {
        union = union.union(alloc, range)?;
    }
    Ok(Some(union))
}
