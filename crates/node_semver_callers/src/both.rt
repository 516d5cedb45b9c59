//! A version for two dependents.

ghost use Rattle.std.specs.Prelude.{◌↔◌, IfOk, IfSome, IsNone};
ghost use Rattle.node_semver.specs.Least.{IsLeastOf, IsNoneOf};
ghost use Rattle.node_semver_callers.specs.Both.{SuitsBoth};

use node_semver::{Range, SemverError, Version};
use std::alloc::Global;

/// Returns the least version that satisfies both range texts, or `None` if no version does.
pub fn version_for_both(
    alloc: Global,
    one: &str,
    other: &str,
) -> Result<Option<Version>, SemverError>
    ensures least { IfOk result (λ found. IfSome found (IsLeastOf (SuitsBoth one.now other.now))) }
    ensures none { IfOk result (λ found. IsNone found ↔ IsNoneOf (SuitsBoth one.now other.now)) }
{
    let range = Range::parse(alloc, one)?;
    let with = Range::parse(alloc, other)?;
    match range.least_common(alloc, &with) {
        Ok(found) => Ok(found),
        Err(_) => Err(SemverError::out_of_memory(alloc)),
    }
}
