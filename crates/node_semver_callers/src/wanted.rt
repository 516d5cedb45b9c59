//! Does a version satisfy a range text?

ghost use Rattle.std.specs.Prelude.{◌↔◌, IfOk, IsTrue};
ghost use Rattle.node_semver.specs.Ranges.{TextAdmits};

use node_semver::{Range, SemverError, Version};
use std::alloc::Global;

/// Returns `true` if the version satisfies the range text.
pub fn is_wanted(alloc: Global, text: &str, version: &Version) -> Result<bool, SemverError>
    ensures { IfOk result (λ wanted. IsTrue wanted ↔ TextAdmits text.now version.now) }
{
    let range = Range::parse(alloc, text)?;
    Ok(range.satisfies(version))
}
