//! Exports on ranges.
ghost use Rattle.std.specs.Prelude.{◌≡◌, ◌≢◌, ◌↔◌, List, [], IsTrue, IsUtf8, None, true};
ghost use Rattle.node_semver_c.specs.Answers.{IsSomeReported};
ghost use Rattle.node_semver_c.specs.Compared.{range_hash};
ghost use Rattle.node_semver_c.specs.Printed.{IsPrinted};
ghost use Rattle.node_semver_c.specs.declared.status.TheConstants.{NOT_UTF8, OUT_OF_MEMORY, REFUSED};
ghost use Rattle.semver_cuts.specs.CommonSpans.{common_spans};
ghost use Rattle.semver_cuts.specs.Ends.{Ends};
ghost use Rattle.semver_cuts.specs.Sharing.{CoversAll, ShareCut};
ghost use Rattle.semver_texts.specs.Comparison.{version_cmp};
ghost use Rattle.semver_sets.specs.Meaning.{RangeAdmits, RangeContains};
ghost use Rattle.semver_sets.specs.RangeEquality.{AreSameCuts, are_same_cuts};
ghost use Rattle.semver_sets.specs.RangePrint.{range_text};
ghost use Rattle.semver_texts.specs.Version.{VersionValue};
ghost use Rattle.node_semver.specs.RangeAnswer.{IsRangeAnswer};

use crate::handle::range::{RangeHandle, RangeRef};
use crate::handle::version::VersionRef;
use crate::status::{Fault, NOT_UTF8, keep_range, report};
use crate::text::put;
use node_semver::Range;
use std::alloc::Global;
use std::hash::{FoldHasher, Hash, Hasher};

/// `Range::parse`: puts the range into the handle, or reports the fault of the text.
#[unsafe(no_mangle)]
pub extern "C" fn node_semver_range_parse(
    alloc: Global,
    text: &[u8],
    range: &mut RangeHandle,
    fault: &mut Fault,
) -> u32
    requires empty { range.old.value ≡ None }
    ensures parsed { IsUtf8 text.now → IsSomeReported (IsRangeAnswer text.now) result range.new.value fault.new }
    ensures not_utf8 { ¬ IsUtf8 text.now → (result ≡ NOT_UTF8) × (range.new.value ≡ None) }
    ensures fault_kept { result ≢ REFUSED → result ≢ OUT_OF_MEMORY → fault.new ≡ fault.old }
{
    match std::str::from_utf8(text) {
        Ok(text) => read(alloc, text, range, fault),
        Err(_) => NOT_UTF8,
    }
}

fn read(alloc: Global, text: &str, range: &mut RangeHandle, fault: &mut Fault) -> u32
    requires { range.old.value ≡ None }
    ensures parsed { IsSomeReported (IsRangeAnswer text.now) result range.new.value fault.new }
    ensures fault_kept { result ≢ REFUSED → result ≢ OUT_OF_MEMORY → fault.new ≡ fault.old }
{
    match Range::parse(alloc, text) {
        Ok(read) => keep_range(alloc, read, range),
        Err(error) => report(&error, fault),
    }
}

/// Frees a range. Does nothing for an empty handle.
#[unsafe(no_mangle)]
pub extern "C" fn node_semver_range_free(alloc: Global, range: RangeHandle) {
    range.free(alloc);
}

/// Prints a range.
#[unsafe(no_mangle)]
pub extern "C" fn node_semver_range_print(alloc: Global, range: &RangeRef, room: &mut [u8]) -> usize
    ensures { IsPrinted (range_text range.now.value) room.old room.new result }
{
    put(range.get().to_string(alloc), room)
}

/// `==` of ranges: set by set, by their cuts.
#[unsafe(no_mangle)]
pub extern "C" fn node_semver_range_equals(one: &RangeRef, other: &RangeRef) -> bool
    ensures { IsTrue result ↔ AreSameCuts one.now.value other.now.value }
{
    one.get().eq(other.get())
}

/// `Range::satisfies`.
#[unsafe(no_mangle)]
pub extern "C" fn node_semver_satisfies(range: &RangeRef, version: &VersionRef) -> bool
    ensures { IsTrue result ↔ RangeAdmits range.now.value version.now.value }
{
    range.get().satisfies(version.get())
}

/// `Range::contains`.
#[unsafe(no_mangle)]
pub extern "C" fn node_semver_range_contains(range: &RangeRef, version: &VersionRef) -> bool
    ensures { IsTrue result ↔ RangeContains range.now.value version.now.value }
{
    range.get().contains(version.get())
}

/// `Range::allows_any`.
#[unsafe(no_mangle)]
pub extern "C" fn node_semver_range_allows_any(one: &RangeRef, other: &RangeRef) -> bool
    ensures shared { IsTrue result ↔ ShareCut version_cmp one.now.value other.now.value }
    ensures symmetric { IsTrue result ↔ ShareCut version_cmp other.now.value one.now.value }
    ensures intersection { IsTrue result ↔ (common_spans version_cmp one.now.value other.now.value ≢ []) }
{
    one.get().allows_any(other.get())
}

/// `Range::allows_all`.
#[unsafe(no_mangle)]
pub extern "C" fn node_semver_range_allows_all(one: &RangeRef, other: &RangeRef) -> bool
    ensures { IsTrue result ↔ CoversAll version_cmp one.now.value other.now.value }
{
    one.get().allows_all(other.get())
}

/// Returns a hash. Equal ranges have the same hash.
#[unsafe(no_mangle)]
pub extern "C" fn node_semver_range_hash(range: &RangeRef) -> u64
    ensures hash { result ≡ range_hash range.now.value }
    ensures alike { (other : List (Ends VersionValue)) → are_same_cuts range.now.value other ≡ true
        → result ≡ range_hash other }
{
    hash_of(range.get())
}

fn hash_of(range: &Range) -> u64
    ensures { result ≡ range_hash range.now }
{
    let mut hasher = FoldHasher::default();
    range.hash(&mut hasher);
    hasher.finish()
}
