//! The least version that satisfies a range and not another.
ghost use Rattle.std.specs.Prelude.{◌≡◌, ◌↔◌, [], IfOk, IfSome, IsNone};
ghost use Rattle.node_semver.specs.Least.{AdmitsNoneBeyond, IsAdmittedBy, IsLeastBeyond};

use crate::range::least::question::{Admitted, Beyond};
use crate::range::least::search::least_wanted;
use crate::{Range, Version};
use std::alloc::{AllocError, Global};

impl Range {
    /// Returns the least version that satisfies this range and not the other, or `None` if there is none.
    ///
    /// So `a.least_beyond(b)` is `None` exactly if each version that satisfies `a` also satisfies `b`.
    /// [`Range::allows_all`] compares cuts; this compares the versions that are admitted. `1 || 2` does not contain the
    /// cuts of `1 - 2` from `2.0.0-0` up to `2.0.0`, but admits each version that `1 - 2` does. `>=1.0.0-0` contains
    /// all cuts of `^1.2.3-rc.4`, but does not admit `1.2.3-rc.4`. The result has no build.
    ///
    /// # Errors
    ///
    /// Returns `AllocError` if an allocation fails.
    ///
    /// # Memory
    ///
    /// Allocates the identifiers of the result, and nothing else.
    ///
    /// # Examples
    ///
    /// `2.0.1` for `>=1` and `1 || 2.0.0`, `1.0.1-0` for `<1.0.1-beta` and `<=1.0.0`, and `None` for `1 - 2` and
    /// `1 || 2`.
    pub fn least_beyond(&self, alloc: Global, other: &Range) -> Result<Option<Version>, AllocError>
        ensures least { IfOk result (λ found. IfSome found (IsLeastBeyond self.now other.now)) }
        ensures none { IfOk result (λ found. IsNone found ↔ AdmitsNoneBeyond self.now other.now) }
        ensures admitted { IfOk result (λ found. IsNone found ↔ IsAdmittedBy self.now other.now) }
        ensures build { IfOk result (λ found. IfSome found (λ v. v.build ≡ [])) }
    {
        match least_wanted::<Beyond, Admitted>(self, other) {
            Some(least) => Ok(Some(least.built(alloc)?)),
            None => Ok(None),
        }
    }
}
