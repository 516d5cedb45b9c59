//! What a call returns beside its value: its status, and the fault of a text that it refuses.
ghost use Rattle.std.specs.Prelude.{◌≡◌, ◌⊎◌, Some, None};
ghost use Rattle.semver_versions.specs.Error.{kind_of, refusal_of};
ghost use Rattle.node_semver_c.specs.Status.{IsFaultReported, IsKept, IsKeptAnswer, IsRefusalReported};
ghost use Rattle.node_semver_c.specs.Status.{code_of, number_in, status_of};

use crate::handle::intervals::IntervalsHandle;
use crate::handle::range::RangeHandle;
use crate::handle::version::VersionHandle;
use crate::intervals::Intervals;
use node_semver::{Range, SemverError, SemverErrorKind, Version};
use std::alloc::Global;

/// The call succeeded.
pub const OK: u32 = 0;

/// There is no such version, or no such range.
pub const NONE: u32 = 1;

/// Parsing failed, and the fault says why.
pub const REFUSED: u32 = 2;

/// The bytes are not UTF-8.
pub const NOT_UTF8: u32 = 3;

/// An allocation failed.
pub const OUT_OF_MEMORY: u32 = 4;

/// No bump or no base has this code.
pub const INVALID_BUMP: u32 = 5;

/// The text is no identifier.
pub const INVALID_IDENTIFIER: u32 = 6;

/// There is neither an identifier nor a number to begin a prerelease with.
pub const NO_IDENTIFIER: u32 = 7;

/// The prerelease is the identifier alone, and no number is to follow it.
pub const SAME_IDENTIFIER: u32 = 8;

/// A number of the bumped version would be too large.
pub const NUMBER_TOO_LARGE: u32 = 9;

/// Why parsing failed, and where.
#[repr(C)]
#[derive(Drop)]
pub struct Fault {
    /// The kind of the fault, from 1 in the order of `SemverErrorKind`.
    pub kind: u32,
    /// Its byte offset in the text.
    pub offset: usize,
    /// The number of `MaxIntError`, and 0 for any other kind.
    pub number: u64,
}

// Writes the fault of an error, and returns its status.
pub(crate) fn report(error: &SemverError, fault: &mut Fault) -> u32
    ensures reported { IsRefusalReported (refusal_of error.now) result fault.new }
    ensures failed { (result ≡ REFUSED) ⊎ (result ≡ OUT_OF_MEMORY) }
{
    report_at(error.kind(), error.offset(), fault)
}

// Writes a fault of this kind at this byte offset, and returns its status.
pub(crate) fn report_at(kind: &SemverErrorKind, offset: usize, fault: &mut Fault) -> u32
    ensures reported { IsFaultReported (kind_of kind.now) offset result fault.new }
    ensures failed { (result ≡ REFUSED) ⊎ (result ≡ OUT_OF_MEMORY) }
{
    let (status, kind, number) = kind_parts(kind);
    *fault = Fault {
        kind,
        offset,
        number,
    };
    status
}

// Returns the status, the code and the number of a kind.
fn kind_parts(kind: &SemverErrorKind) -> (u32, u32, u64)
    ensures status { result.0 ≡ status_of (kind_of kind.now) }
    ensures code { result.1 ≡ code_of (kind_of kind.now) }
    ensures number { result.2 ≡ number_in (kind_of kind.now) }
    ensures failed { (result.0 ≡ REFUSED) ⊎ (result.0 ≡ OUT_OF_MEMORY) }
{
    match kind {
        SemverErrorKind::MaxLengthError => (REFUSED, 1, 0),
        SemverErrorKind::IncompleteInput => (REFUSED, 2, 0),
        SemverErrorKind::ParseIntError(_) => (REFUSED, 3, 0),
        SemverErrorKind::MaxIntError(number) => (REFUSED, 4, *number),
        SemverErrorKind::Context(_) => (REFUSED, 5, 0),
        SemverErrorKind::NoValidRanges => (REFUSED, 6, 0),
        SemverErrorKind::Other => (REFUSED, 7, 0),
        SemverErrorKind::OutOfMemory => (OUT_OF_MEMORY, 8, 0),
    }
}

// Puts a version into a handle.
pub(crate) fn keep_version(alloc: Global, version: Version, held: &mut VersionHandle) -> u32
    requires { held.old.value ≡ None }
    ensures { IsKept version result held.new.value }
{
    match VersionHandle::on_heap(alloc, version) {
        Ok(version) => {
            *held = version;
            OK
        }
        Err(_) => OUT_OF_MEMORY,
    }
}

// Puts a range into a handle.
pub(crate) fn keep_range(alloc: Global, range: Range, held: &mut RangeHandle) -> u32
    requires { held.old.value ≡ None }
    ensures { IsKept range result held.new.value }
{
    match RangeHandle::on_heap(alloc, range) {
        Ok(range) => {
            *held = range;
            OK
        }
        Err(_) => OUT_OF_MEMORY,
    }
}

// Puts intervals into a handle.
pub(crate) fn keep_intervals(alloc: Global, intervals: Intervals, held: &mut IntervalsHandle) -> u32
    requires { held.old.value ≡ None }
    ensures { IsKept intervals result held.new.value }
{
    match IntervalsHandle::on_heap(alloc, intervals) {
        Ok(intervals) => {
            *held = intervals;
            OK
        }
        Err(_) => OUT_OF_MEMORY,
    }
}

// Puts a version into a handle, if there is one.
pub(crate) fn keep_version_found(
    alloc: Global,
    found: Option<Version>,
    held: &mut VersionHandle,
) -> u32
    requires { held.old.value ≡ None }
    ensures { IsKeptAnswer found result held.new.value }
{
    match found {
        Some(version) => keep_version(alloc, version, held),
        None => NONE,
    }
}

// Puts a range into a handle, if there is one.
pub(crate) fn keep_range_found(alloc: Global, found: Option<Range>, held: &mut RangeHandle) -> u32
    requires { held.old.value ≡ None }
    ensures { IsKeptAnswer found result held.new.value }
{
    match found {
        Some(range) => keep_range(alloc, range, held),
        None => NONE,
    }
}
