//! Two texts in one call, or a range and a text.
ghost use Rattle.std.specs.Prelude.{IsUtf8, ◌≡◌, ◌≢◌};
ghost use Rattle.node_semver_c.specs.Pair.{IsPairReported, IsStrictReported, IsVersionReported};
ghost use Rattle.semver_sets.specs.Meaning.{RangeAdmits, RangeContains};
ghost use Rattle.node_semver_c.specs.declared.status.TheConstants.{NOT_UTF8, OK, OUT_OF_MEMORY, REFUSED};

use crate::handle::range::RangeRef;
use crate::status::{Fault, NOT_UTF8, OK, REFUSED, report, report_at};
use node_semver::{Admits, Range, VersionRef};
use std::alloc::Global;

/// `Range::parse`, `Version::parse` and `satisfies`: whether the version of one text satisfies the range of another.
///
/// The range is parsed first. If both texts are UTF-8 and refused, the fault is that of the range. Parsing the version
/// does not allocate.
#[unsafe(no_mangle)]
pub extern "C" fn node_semver_satisfies_text(
    alloc: Global,
    range: &[u8],
    version: &[u8],
    answer: &mut bool,
    fault: &mut Fault,
) -> u32
    ensures reported { IsUtf8 range.now → IsUtf8 version.now
        → IsPairReported range.now version.now result answer.new fault.new }
    ensures range_not_utf8 { ¬ IsUtf8 range.now → result ≡ NOT_UTF8 }
    ensures version_not_utf8 { ¬ IsUtf8 version.now → result ≡ NOT_UTF8 }
    ensures answer_kept { result ≢ OK → answer.new ≡ answer.old }
    ensures fault_kept { result ≢ REFUSED → result ≢ OUT_OF_MEMORY → fault.new ≡ fault.old }
{
    match std::str::from_utf8(range) {
        Ok(range) => match std::str::from_utf8(version) {
            Ok(version) => satisfies(alloc, range, version, answer, fault),
            Err(_) => NOT_UTF8,
        },
        Err(_) => NOT_UTF8,
    }
}

fn satisfies(alloc: Global, range: &str, version: &str, answer: &mut bool, fault: &mut Fault) -> u32
    ensures reported { IsPairReported range.now version.now result answer.new fault.new }
    ensures answer_kept { result ≢ OK → answer.new ≡ answer.old }
    ensures fault_kept { result ≢ REFUSED → result ≢ OUT_OF_MEMORY → fault.new ≡ fault.old }
{
    match Range::parse(alloc, range) {
        Ok(range) => satisfies_range(&range, version, answer, fault),
        Err(error) => report(&error, fault),
    }
}

// Does not allocate.
fn satisfies_range(range: &Range, version: &str, answer: &mut bool, fault: &mut Fault) -> u32
    ensures reported { IsVersionReported range.now version.now result answer.new fault.new }
    ensures answer_kept { result ≢ OK → answer.new ≡ answer.old }
    ensures fault_kept { result ≢ REFUSED → result ≢ OUT_OF_MEMORY → fault.new ≡ fault.old }
{
    match VersionRef::parse(version) {
        Ok(version) => {
            *answer = range.satisfies(&version);
            OK
        }
        Err(error) => report_at(&error.kind(), error.offset(), fault),
    }
}

/// `npm_semver::parse_version_ref` and `satisfies`: whether the version of a text in the grammar of SemVer 2.0.0 satisfies
/// the range.
///
/// Does not allocate.
#[unsafe(no_mangle)]
pub extern "C" fn node_semver_satisfies_strict(
    range: &RangeRef,
    text: &[u8],
    answer: &mut bool,
) -> u32
    ensures reported { IsUtf8 text.now → IsStrictReported (RangeAdmits range.now.value) text.now result answer.new }
    ensures not_utf8 { ¬ IsUtf8 text.now → result ≡ NOT_UTF8 }
    ensures answer_kept { result ≢ OK → answer.new ≡ answer.old }
{
    match std::str::from_utf8(text) {
        Ok(text) => satisfies_strict(range.get(), text, answer),
        Err(_) => NOT_UTF8,
    }
}

/// Writes whether the range contains the version that the text writes strictly: prereleases are included.
#[unsafe(no_mangle)]
pub extern "C" fn node_semver_contains_strict(
    range: &RangeRef,
    text: &[u8],
    answer: &mut bool,
) -> u32
    ensures reported { IsUtf8 text.now → IsStrictReported (RangeContains range.now.value) text.now result answer.new }
    ensures not_utf8 { ¬ IsUtf8 text.now → result ≡ NOT_UTF8 }
    ensures answer_kept { result ≢ OK → answer.new ≡ answer.old }
{
    match std::str::from_utf8(text) {
        Ok(text) => satisfies_strict(&range.get().with_prereleases(), text, answer),
        Err(_) => NOT_UTF8,
    }
}

fn satisfies_strict<A: Admits>(asked: &A, text: &str, answer: &mut bool) -> u32
    ensures reported { IsStrictReported (A.admits asked.now) text.now result answer.new }
    ensures answer_kept { result ≢ OK → answer.new ≡ answer.old }
{
    match npm_semver::parse_version_ref(text) {
        Ok(version) => {
            *answer = version.satisfies(asked);
            OK
        }
        Err(_) => REFUSED,
    }
}
