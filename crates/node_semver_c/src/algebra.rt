//! Exports that return a range or a version, or none.
ghost use Rattle.std.specs.Prelude.{◌≡◌, None};
ghost use Rattle.node_semver_c.specs.Answers.{IsBeyond, IsCommonLeast, IsDifference, IsFound, IsIntersection};
ghost use Rattle.node_semver_c.specs.Answers.{IsMade, IsMinimum, IsUnion};

use crate::handle::range::{RangeHandle, RangeRef};
use crate::handle::version::VersionHandle;
use crate::status::{OUT_OF_MEMORY, keep_range, keep_range_found, keep_version_found};
use std::alloc::Global;

/// `Range::intersect`.
#[unsafe(no_mangle)]
pub extern "C" fn node_semver_range_intersect(
    alloc: Global,
    one: &RangeRef,
    other: &RangeRef,
    answer: &mut RangeHandle,
) -> u32
    requires empty { answer.old.value ≡ None }
    ensures { IsFound (IsIntersection one.now.value other.now.value) result answer.new.value }
{
    match one.get().intersect(alloc, other.get()) {
        Ok(found) => keep_range_found(alloc, found, answer),
        Err(_) => OUT_OF_MEMORY,
    }
}

/// `Range::difference`.
#[unsafe(no_mangle)]
pub extern "C" fn node_semver_range_difference(
    alloc: Global,
    one: &RangeRef,
    other: &RangeRef,
    answer: &mut RangeHandle,
) -> u32
    requires empty { answer.old.value ≡ None }
    ensures { IsFound (IsDifference one.now.value other.now.value) result answer.new.value }
{
    match one.get().difference(alloc, other.get()) {
        Ok(found) => keep_range_found(alloc, found, answer),
        Err(_) => OUT_OF_MEMORY,
    }
}

/// `Range::union`.
#[unsafe(no_mangle)]
pub extern "C" fn node_semver_range_union(
    alloc: Global,
    one: &RangeRef,
    other: &RangeRef,
    answer: &mut RangeHandle,
) -> u32
    requires empty { answer.old.value ≡ None }
    ensures { IsMade (IsUnion one.now.value other.now.value) result answer.new.value }
{
    match one.get().union(alloc, other.get()) {
        Ok(union) => keep_range(alloc, union, answer),
        Err(_) => OUT_OF_MEMORY,
    }
}

/// `Range::min_version`.
#[unsafe(no_mangle)]
pub extern "C" fn node_semver_min_version(
    alloc: Global,
    range: &RangeRef,
    answer: &mut VersionHandle,
) -> u32
    requires empty { answer.old.value ≡ None }
    ensures { IsFound (IsMinimum range.now.value) result answer.new.value }
{
    match range.get().min_version(alloc) {
        Ok(found) => keep_version_found(alloc, found, answer),
        Err(_) => OUT_OF_MEMORY,
    }
}

/// `Range::least_beyond`.
#[unsafe(no_mangle)]
pub extern "C" fn node_semver_least_beyond(
    alloc: Global,
    one: &RangeRef,
    other: &RangeRef,
    answer: &mut VersionHandle,
) -> u32
    requires empty { answer.old.value ≡ None }
    ensures { IsFound (IsBeyond one.now.value other.now.value) result answer.new.value }
{
    match one.get().least_beyond(alloc, other.get()) {
        Ok(found) => keep_version_found(alloc, found, answer),
        Err(_) => OUT_OF_MEMORY,
    }
}

/// `Range::least_common`.
#[unsafe(no_mangle)]
pub extern "C" fn node_semver_range_least_common(
    alloc: Global,
    one: &RangeRef,
    other: &RangeRef,
    answer: &mut VersionHandle,
) -> u32
    requires empty { answer.old.value ≡ None }
    ensures { IsFound (IsCommonLeast one.now.value other.now.value) result answer.new.value }
{
    match one.get().least_common(alloc, other.get()) {
        Ok(found) => keep_version_found(alloc, found, answer),
        Err(_) => OUT_OF_MEMORY,
    }
}
