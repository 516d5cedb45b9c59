//! One range for two dependents: the intersection of their ranges.

ghost use Rattle.std.specs.Prelude.{◌⊎◌, ◌↔◌, IfErr, IfOk, IsNone};
ghost use Rattle.node_semver_callers.specs.Failure.{IsFailureOf};
ghost use Rattle.node_semver.specs.Ranges.{RangeAdmits, TextAdmits};
ghost use Rattle.node_semver.specs.Versions.{IsPrerelease, VersionValue};
ghost use Rattle.node_semver.specs.RangeAlgebra.{sets_of_answer};

use crate::Failure;
use node_semver::Range;
use std::alloc::Global;

/// Returns the intersection of the two range texts, or `None` if it is empty.
///
/// # Errors
///
/// Returns `Failure::Refused` if [`Range::parse`] fails for a text, and `Failure::Memory` if another allocation fails.
pub fn shared_range(alloc: Global, one: &str, other: &str) -> Result<Option<Range>, Failure>
    ensures releases { IfOk result (λ shared. (v : VersionValue) → ¬ IsPrerelease v →
        RangeAdmits (sets_of_answer shared) v ↔ (TextAdmits one.now v × TextAdmits other.now v)) }
    ensures none { IfOk result (λ shared. IsNone shared →
        (v : VersionValue) → ¬ (TextAdmits one.now v × TextAdmits other.now v)) }
    ensures refused { IfErr result (λ failure. IsFailureOf one.now failure ⊎ IsFailureOf other.now failure) }
{
    let range = Range::parse(alloc, one)?;
    let with = Range::parse(alloc, other)?;
    Ok(range.intersect(alloc, &with)?)
}
