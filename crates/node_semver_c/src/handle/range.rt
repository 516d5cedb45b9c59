//! Handles of ranges.
ghost use Rattle.std.specs.Prelude.{◌≡◌, ℕ, List, IfOk, MatchOption, Option, Some, None};
ghost use Rattle.semver_cuts.specs.Ends.{Ends};
ghost use Rattle.semver_texts.specs.Version.{VersionValue};

use super::Opaque;
use crate::raw_box::RawBox;
use node_semver::Range;
use std::alloc::{AllocError, Global};
use std::marker::Model;

/// Owns a range on the heap; or is empty, and its pointer is null.
#[repr(C)]
#[derive(Drop)]
pub struct RangeHandle {
    at: *mut Opaque,
    pub ghost value: { Option (List (Ends VersionValue)) },
}

impl Model for RangeHandle {
    ghost use Rattle.node_semver.specs.contracts.range.Range.{the_row};
    ghost use Rattle.node_semver_c.specs.Handles.{owns_held};

    ghost also_owns = { λ h. owns_held the_row h.at h.value };
}

impl RangeHandle {
    pub(crate) fn on_heap(alloc: Global, range: Range) -> Result<RangeHandle, AllocError>
        ensures { IfOk result (λ h. h.value ≡ Some range) }
    {
        let range = Box::new(alloc, range)?;
        Ok(RangeHandle::of(RawBox::of(range)))
    }

    fn of(range: RawBox<Range, Global>) -> RangeHandle
        ensures { result.value ≡ Some range.value }
    {
        let RawBox { at, alloc: _ } = range;
        RangeHandle {
            at: at as *mut Opaque,
        }
    }

    pub(crate) fn free(self, alloc: Global) {
        if let Some(held) = self.into_raw_box(alloc) {
            drop(held.into_box());
        }
    }

    fn into_raw_box(self, alloc: Global) -> Option<RawBox<Range, Global>>
        ensures { MatchOption result (self.value ≡ None) (λ l. self.value ≡ Some l.value) }
    {
        if self.at.is_null() {
            return None;
        }
        let RangeHandle { at } = self;
        Some(RawBox {
            at: at as *mut Range,
            alloc,
        })
    }
}

/// Borrows a range: while the borrow lasts, nobody changes or frees it.
#[repr(C)]
#[derive(Drop)]
pub struct RangeRef {
    at: *const Opaque,
    pub ghost value: { List (Ends VersionValue) },
    ghost life: { ℕ },
}

impl Model for RangeRef {
    ghost use Rattle.node_semver.specs.contracts.range.Range.{the_row};
    ghost use Rattle.node_semver_c.specs.Handles.{borrows};

    ghost also_owns = { λ h. borrows the_row h.at h.life h.value };
}

impl RangeRef {
    // Returns the borrowed range. `inline(always)`: nothing is computed.
    #[inline(always)]
    pub(crate) fn get(&self) -> &Range
        ensures { result.now ≡ self.now.value }
    {
        unsafe { &*(self.at as *const Range) }
    }
}
