//! The union of two lists of sets.
ghost use Rattle.std.specs.Prelude.{◌≡◌, ◌++◌, IfOk};
ghost use Rattle.semver_sets.specs.RangeSets.{sets_seen};

use crate::set_list::Sets;
use crate::set_list::copy::push_copies;
use crate::set_list::indexed::IndexedSets;
use std::alloc::{AllocError, Global};

impl Sets {
    /// Returns copies of these sets and, after them, copies of the other's.
    ///
    /// # Errors
    ///
    /// Fails with `AllocError` if an allocation fails.
    ///
    /// # Memory
    ///
    /// Allocates the list, the identifiers of the ends, and the index of the list.
    pub fn union(&self, alloc: Global, other: &Sets) -> Result<Sets, AllocError>
        ensures { IfOk result (λ union. sets_seen union ≡ sets_seen self.now ++ sets_seen other.now) }
    {
        let (ones, others) = (self.as_slice(), other.as_slice());
        let mut sets = Vec::with_capacity(alloc, ones.len() + others.len())?;
        push_copies(&mut sets, ones)?;
        push_copies(&mut sets, others)?;
        Ok(Sets::Many(IndexedSets::of(alloc, sets)?))
    }
}
