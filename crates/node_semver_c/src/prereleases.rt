//! Exports that return the least version of a range with prereleases included, or none.
ghost use Rattle.std.specs.Prelude.{◌≡◌, None};
ghost use Rattle.node_semver_c.specs.Answers.{IsFound, IsLeastContainedBeyond, IsLeastContainedInBoth};
ghost use Rattle.node_semver_c.specs.Answers.{IsMinimumContained};

use crate::handle::range::RangeRef;
use crate::handle::version::VersionHandle;
use crate::status::{OUT_OF_MEMORY, keep_version_found};
use std::alloc::Global;

/// `WithPrereleases::min_version`.
#[unsafe(no_mangle)]
pub extern "C" fn node_semver_min_version_with_prereleases(
    alloc: Global,
    range: &RangeRef,
    answer: &mut VersionHandle,
) -> u32
    requires empty { answer.old.value ≡ None }
    ensures { IsFound (IsMinimumContained range.now.value) result answer.new.value }
{
    match range.get().with_prereleases().min_version(alloc) {
        Ok(found) => keep_version_found(alloc, found, answer),
        Err(_) => OUT_OF_MEMORY,
    }
}

/// `WithPrereleases::least_beyond`.
#[unsafe(no_mangle)]
pub extern "C" fn node_semver_least_beyond_with_prereleases(
    alloc: Global,
    one: &RangeRef,
    other: &RangeRef,
    answer: &mut VersionHandle,
) -> u32
    requires empty { answer.old.value ≡ None }
    ensures { IsFound (IsLeastContainedBeyond one.now.value other.now.value) result answer.new.value }
{
    match one
        .get()
        .with_prereleases()
        .least_beyond(alloc, other.get())
    {
        Ok(found) => keep_version_found(alloc, found, answer),
        Err(_) => OUT_OF_MEMORY,
    }
}

/// `WithPrereleases::least_common`.
#[unsafe(no_mangle)]
pub extern "C" fn node_semver_range_least_common_with_prereleases(
    alloc: Global,
    one: &RangeRef,
    other: &RangeRef,
    answer: &mut VersionHandle,
) -> u32
    requires empty { answer.old.value ≡ None }
    ensures { IsFound (IsLeastContainedInBoth one.now.value other.now.value) result answer.new.value }
{
    match one
        .get()
        .with_prereleases()
        .least_common(alloc, other.get())
    {
        Ok(found) => keep_version_found(alloc, found, answer),
        Err(_) => OUT_OF_MEMORY,
    }
}
