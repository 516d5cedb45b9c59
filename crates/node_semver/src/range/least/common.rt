//! The least version that satisfies two ranges.
ghost use Rattle.std.specs.Prelude.{◌≡◌, ◌↔◌, [], IfOk, IfSome, IsNone};
ghost use Rattle.node_semver.specs.Least.{AdmitNoneInCommon, IsLeastCommon};

use crate::range::least::question::{Admitted, Common};
use crate::range::least::search::least_wanted;
use crate::{Range, Version};
use std::alloc::{AllocError, Global};

impl Range {
    /// Returns the least version that satisfies both ranges, or `None` if there is none.
    ///
    /// `a.least_common(b)` and `b.least_common(a)` are equal. The least version of [`Range::intersect`] can be less, because
    /// that call compares cuts: the intersection of `^2.0.0-rc.1` and `>=1.5` is `>=2.0.0-rc.1 <3.0.0-0`. It admits
    /// `2.0.0-rc.1`, which `>=1.5` does not. The result has no build.
    ///
    /// # Errors
    ///
    /// Returns `AllocError` if an allocation fails.
    ///
    /// # Memory
    ///
    /// Allocates the identifiers of the result, and nothing else.
    ///
    /// # Examples
    ///
    /// `2.0.0` for `^2.0.0-rc.1` and `>=1.5`, `1.2.3-rc.4` for `^1.2.3-rc.4` and `>=1.2.3-rc.2 <1.2.3`, and `None` for
    /// `1 - 2` and `3`, and for `>=1.0.0-a <1.0.0` and `>=0.9`.
    pub fn least_common(&self, alloc: Global, other: &Range) -> Result<Option<Version>, AllocError>
        ensures least { IfOk result (λ found. IfSome found (IsLeastCommon self.now other.now)) }
        ensures none { IfOk result (λ found. IsNone found ↔ AdmitNoneInCommon self.now other.now) }
        ensures build { IfOk result (λ found. IfSome found (λ v. v.build ≡ [])) }
    {
        match least_wanted::<Common, Admitted>(self, other) {
            Some(least) => Ok(Some(least.built(alloc)?)),
            None => Ok(None),
        }
    }
}
