//! Handles of the intervals of ranges.
ghost use Rattle.std.specs.Prelude.{◌≡◌, ℕ, List, IfOk, MatchOption, Option, Some, None};
ghost use Rattle.semver_keys.specs.Intervals.{IntervalValue};

use super::Opaque;
use crate::intervals::Intervals;
use crate::raw_box::RawBox;
use std::alloc::{AllocError, Global};
use std::marker::Model;

/// Owns intervals on the heap; or is empty, and its pointer is null.
#[repr(C)]
#[derive(Drop)]
pub struct IntervalsHandle {
    at: *mut Opaque,
    pub ghost value: { Option (List IntervalValue) },
}

impl Model for IntervalsHandle {
    ghost use Rattle.node_semver_c.specs.contracts.intervals.Intervals.{the_row};
    ghost use Rattle.node_semver_c.specs.Handles.{owns_held};

    ghost also_owns = { λ h. owns_held the_row h.at h.value };
}

impl IntervalsHandle {
    pub(crate) fn on_heap(
        alloc: Global,
        intervals: Intervals,
    ) -> Result<IntervalsHandle, AllocError>
        ensures { IfOk result (λ h. h.value ≡ Some intervals) }
    {
        let intervals = Box::new(alloc, intervals)?;
        Ok(IntervalsHandle::of(RawBox::of(intervals)))
    }

    fn of(intervals: RawBox<Intervals, Global>) -> IntervalsHandle
        ensures { result.value ≡ Some intervals.value }
    {
        let RawBox { at, alloc: _ } = intervals;
        IntervalsHandle {
            at: at as *mut Opaque,
        }
    }

    pub(crate) fn free(self, alloc: Global) {
        if let Some(held) = self.into_raw_box(alloc) {
            drop(held.into_box());
        }
    }

    fn into_raw_box(self, alloc: Global) -> Option<RawBox<Intervals, Global>>
        ensures { MatchOption result (self.value ≡ None) (λ l. self.value ≡ Some l.value) }
    {
        if self.at.is_null() {
            return None;
        }
        let IntervalsHandle { at } = self;
        Some(RawBox {
            at: at as *mut Intervals,
            alloc,
        })
    }
}

/// Borrows intervals: while the borrow lasts, nobody changes or frees them.
#[repr(C)]
#[derive(Drop)]
pub struct IntervalsRef {
    at: *const Opaque,
    pub ghost value: { List IntervalValue },
    ghost life: { ℕ },
}

impl Model for IntervalsRef {
    ghost use Rattle.node_semver_c.specs.contracts.intervals.Intervals.{the_row};
    ghost use Rattle.node_semver_c.specs.Handles.{borrows};

    ghost also_owns = { λ h. borrows the_row h.at h.life h.value };
}

impl IntervalsRef {
    // Returns the borrowed intervals. `inline(always)`: nothing is computed.
    #[inline(always)]
    pub(crate) fn get(&self) -> &Intervals
        ensures { result.now ≡ self.now.value }
    {
        unsafe { &*(self.at as *const Intervals) }
    }
}
