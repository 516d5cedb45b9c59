//! Which installed versions an advisory's range text admits.

ghost use Rattle.std.specs.Prelude.{IfErr, IfOk, map};
ghost use Rattle.node_semver_callers.specs.Failure.{IsFailureOf};
ghost use Rattle.node_semver_callers.specs.Hits.{AreHits};

use crate::Failure;
use node_semver::{Range, Version};
use std::alloc::Global;

/// Returns the installed versions that the advisory's range text admits, in their order.
///
/// A prerelease is admitted only if the text names a prerelease of its triple: `<4.17.21` does not hit `4.17.20-a`.
///
/// # Errors
///
/// Returns `Failure::Refused` if [`Range::parse`] fails, and `Failure::Memory` if another allocation fails.
pub fn versions_hit<'a>(
    alloc: Global,
    advisory: &str,
    installed: &'a [Version],
) -> Result<Vec<&'a Version>, Failure>
    ensures hits { IfOk result (λ hits. AreHits advisory.now installed.now (map (λ v. v.now) hits.items)) }
    ensures refused { IfErr result (IsFailureOf advisory.now) }
{
    let range = Range::parse(alloc, advisory)?;
    let mut hits = Vec::new(alloc);
    for version in installed {
        if range.satisfies(version) {
            hits.push(version)?;
        }
    }
    Ok(hits)
}
