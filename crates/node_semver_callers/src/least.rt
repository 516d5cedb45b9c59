//! The least version that a manifest allows: the one to install to see whether it still works.

ghost use Rattle.std.specs.Prelude.{◌↔◌, IfErr, IfOk, IfSome, IsNone};
ghost use Rattle.node_semver_callers.specs.Failure.{IsFailureOf};
ghost use Rattle.node_semver.specs.Ranges.{TextAdmits};
ghost use Rattle.node_semver.specs.Versions.{IsBelow};
ghost use Rattle.node_semver.specs.Versions.{VersionValue};

use crate::Failure;
use node_semver::{Range, Version};
use std::alloc::Global;

/// Returns the least version that satisfies the range text, or `None` if no version does.
///
/// # Errors
///
/// Returns `Failure::Refused` if [`Range::parse`] fails, and `Failure::Memory` if another allocation fails.
pub fn least_allowed(alloc: Global, asked: &str) -> Result<Option<Version>, Failure>
    ensures admitted { IfOk result (λ found. IfSome found (λ least. TextAdmits asked.now least)) }
    ensures least { IfOk result (λ found. IfSome found (λ least.
        (v : VersionValue) → TextAdmits asked.now v → ¬ IsBelow v least)) }
    ensures none { IfOk result (λ found. IsNone found ↔ ((v : VersionValue) → ¬ TextAdmits asked.now v)) }
    ensures refused { IfErr result (IsFailureOf asked.now) }
{
    let range = Range::parse(alloc, asked)?;
    Ok(range.min_version(alloc)?)
}
