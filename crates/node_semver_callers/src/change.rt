//! Does a change of a range let in anything new?

ghost use Rattle.std.specs.Prelude.{◌↔◌, IfOk, IsTrue};
ghost use Rattle.node_semver.specs.Least.{IsAdmittedBy};

use node_semver::Range;
use std::alloc::{AllocError, Global};

/// Returns `true` if each version that satisfies the new range satisfies the old one.
pub fn lets_in_nothing_new(alloc: Global, old: &Range, new: &Range) -> Result<bool, AllocError>
    ensures { IfOk result (λ nothing. IsTrue nothing ↔ IsAdmittedBy new.now old.now) }
{
    Ok(new.least_beyond(alloc, old)?.is_none())
}
