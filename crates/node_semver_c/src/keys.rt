//! Exports of the keys of versions, which are also read back, and of the intervals of keys that a range is.
ghost use Rattle.std.specs.Prelude.{◌≡◌, ◌<◌, ◌≤◌, IsTrue, None, length, slice_index_or};
ghost use Rattle.node_semver_c.specs.Answers.{IsFound, IsMade, IsReadBack};
ghost use Rattle.node_semver_c.specs.Keys.{no_interval};
ghost use Rattle.node_semver_c.specs.Printed.{IsPrinted, IsPut};
ghost use Rattle.semver_keys.specs.Intervals.{AreFew, AreInOrder, AreIntervalsOf, AreIntervalsOfBoth};
ghost use Rattle.semver_keys.specs.VersionKey as Keys;
ghost use Rattle.semver_sets.specs.Meaning.{RangeAdmits, RangeContains};

use crate::handle::intervals::{IntervalsHandle, IntervalsRef};
use crate::handle::range::RangeRef;
use crate::handle::version::{VersionHandle, VersionRef};
use crate::intervals::Intervals;
use crate::status::{OUT_OF_MEMORY, keep_intervals, keep_version_found};
use crate::text::{copy, put_bytes};
use semver_keys::{
    KeyInterval, range_intervals, range_intervals_with_prereleases, version_key, version_of_key,
};
use std::alloc::Global;

/// `semver_keys::version_key`: writes the key.
#[unsafe(no_mangle)]
pub extern "C" fn node_semver_version_key(
    alloc: Global,
    version: &VersionRef,
    room: &mut [u8],
) -> usize
    ensures key { IsPrinted (Keys.version_key version.now.value) room.old room.new result }
{
    put_bytes(version_key(alloc, version.get()), room)
}

/// `semver_keys::version_of_key`: puts the version of a key into the handle.
#[unsafe(no_mangle)]
pub extern "C" fn node_semver_version_of_key(
    alloc: Global,
    key: &[u8],
    answer: &mut VersionHandle,
) -> u32
    requires empty { answer.old.value ≡ None }
    ensures { IsFound (IsReadBack key.now) result answer.new.value }
{
    match version_of_key(alloc, key) {
        Ok(found) => keep_version_found(alloc, found, answer),
        Err(_) => OUT_OF_MEMORY,
    }
}

/// `semver_keys::range_intervals`: puts the intervals into the handle.
#[unsafe(no_mangle)]
pub extern "C" fn node_semver_range_intervals(
    alloc: Global,
    range: &RangeRef,
    answer: &mut IntervalsHandle,
) -> u32
    requires empty { answer.old.value ≡ None }
    ensures meant { IsMade (AreIntervalsOf (RangeAdmits range.now.value)) result answer.new.value }
    ensures few { IsMade (AreFew (length range.now.value)) result answer.new.value }
{
    match range_intervals(alloc, range.get()) {
        Ok(list) => keep_intervals(alloc, Intervals { list }, answer),
        Err(_) => OUT_OF_MEMORY,
    }
}

/// `semver_keys::range_intervals_with_prereleases`: puts the intervals into the handle.
#[unsafe(no_mangle)]
pub extern "C" fn node_semver_range_intervals_with_prereleases(
    alloc: Global,
    range: &RangeRef,
    answer: &mut IntervalsHandle,
) -> u32
    requires empty { answer.old.value ≡ None }
    ensures meant { IsMade (AreIntervalsOfBoth (RangeContains range.now.value)) result answer.new.value }
    ensures few { IsMade (λ intervals. AreInOrder intervals × (length intervals ≤ length range.now.value)) result
        answer.new.value }
{
    match range_intervals_with_prereleases(alloc, range.get()) {
        Ok(list) => keep_intervals(alloc, Intervals { list }, answer),
        Err(_) => OUT_OF_MEMORY,
    }
}

/// Frees intervals. Does nothing for an empty handle.
#[unsafe(no_mangle)]
pub extern "C" fn node_semver_intervals_free(alloc: Global, intervals: IntervalsHandle) {
    intervals.free(alloc);
}

/// Returns the number of intervals.
#[unsafe(no_mangle)]
pub extern "C" fn node_semver_intervals_count(intervals: &IntervalsRef) -> usize
    ensures { result ≡ length intervals.now.value }
{
    intervals.get().list.len()
}

/// Writes the lower end of the interval at a place. Past the last one this is 0 bytes.
#[unsafe(no_mangle)]
pub extern "C" fn node_semver_interval_lower(
    intervals: &IntervalsRef,
    place: usize,
    room: &mut [u8],
) -> usize
    ensures end { place < length intervals.now.value
        → IsPut (slice_index_or intervals.now.value place no_interval).lower room.old room.new result }
    ensures past { length intervals.now.value ≤ place → (result ≡ 0) × (room.new ≡ room.old) }
{
    lower(&intervals.get().list, place, room)
}

/// Writes the upper end of the interval at a place. Past the last one this is 0 bytes.
#[unsafe(no_mangle)]
pub extern "C" fn node_semver_interval_upper(
    intervals: &IntervalsRef,
    place: usize,
    room: &mut [u8],
) -> usize
    ensures end { place < length intervals.now.value
        → IsPut (slice_index_or intervals.now.value place no_interval).upper room.old room.new result }
    ensures past { length intervals.now.value ≤ place → (result ≡ 0) × (room.new ≡ room.old) }
{
    upper(&intervals.get().list, place, room)
}

/// Returns whether the interval at a place is of prereleases, and `false` past the last one.
#[unsafe(no_mangle)]
pub extern "C" fn node_semver_interval_is_of_prereleases(
    intervals: &IntervalsRef,
    place: usize,
) -> bool
    ensures kind { place < length intervals.now.value
        → result ≡ (slice_index_or intervals.now.value place no_interval).prereleases }
    ensures past { length intervals.now.value ≤ place → ¬ IsTrue result }
{
    is_of_prereleases(&intervals.get().list, place)
}

fn lower(intervals: &[KeyInterval], place: usize, room: &mut [u8]) -> usize
    ensures end { place < length intervals.now
        → IsPut (slice_index_or intervals.now place no_interval).lower room.old room.new result }
    ensures past { length intervals.now ≤ place → (result ≡ 0) × (room.new ≡ room.old) }
{
    if place < intervals.len() {
        let interval = &intervals[place];
        copy(&interval.lower, room)
    } else {
        0
    }
}

fn upper(intervals: &[KeyInterval], place: usize, room: &mut [u8]) -> usize
    ensures end { place < length intervals.now
        → IsPut (slice_index_or intervals.now place no_interval).upper room.old room.new result }
    ensures past { length intervals.now ≤ place → (result ≡ 0) × (room.new ≡ room.old) }
{
    if place < intervals.len() {
        let interval = &intervals[place];
        copy(&interval.upper, room)
    } else {
        0
    }
}

fn is_of_prereleases(intervals: &[KeyInterval], place: usize) -> bool
    ensures kind { place < length intervals.now
        → result ≡ (slice_index_or intervals.now place no_interval).prereleases }
    ensures past { length intervals.now ≤ place → ¬ IsTrue result }
{
    if place < intervals.len() {
        let interval = &intervals[place];
        interval.prereleases
    } else {
        false
    }
}
