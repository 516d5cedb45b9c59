//! The range of given sets.
//!
//! See docs/DECISIONS.md, "A range has only ends with small numbers and readable identifiers".
ghost use Rattle.std.specs.Prelude.{◌≡◌, ◌↔◌, ◌≤◌, ◌+◌, IfOk, IfSome, IsNone, IsSome, IsTrue};
ghost use Rattle.std.specs.List.{AllByRecursion};
ghost use Rattle.semver_sets.specs.RangeSets.{IsRangeCut, IsRangeEnd, IsRangeSet, IsRangeValue};
ghost use Rattle.semver_texts.specs.IdentifierText.{IsReadIdentifier};
ghost use Rattle.semver_texts.specs.declared.TheConstants.{MAX_SAFE_INTEGER};

use crate::identifiers::are_read;
use node_semver::{MAX_SAFE_INTEGER, Range, Version};
use semver_cuts::{Cut, Span};
use semver_sets::set_list::gathered::Gathered;
use semver_texts::end::EndVersion;
use std::alloc::{AllocError, Global};

/// Returns the range of these sets in their order. Returns `None` if the list is empty, if an end has a number
/// above 9007199254740992, or if an end has an identifier that no text writes.
///
/// [`Range::sets`] gives the same list back, builds included. The sets are only borrowed: they are copied, and the
/// caller still has them if the result is `None` or an error. 9007199254740992 is `MAX_SAFE_INTEGER + 1`: the upper
/// end of `^9007199254740991` has this number. A print with it is not read back, since no range text can write it.
/// No text writes the identifier `a b`, the empty one, or the text `1` as an identifier that is no number.
///
/// # Errors
///
/// Fails with `AllocError` if an allocation fails.
///
/// # Memory
///
/// Allocates copies of the identifiers of the ends. For several sets it also allocates a list of them, and what finds
/// a version in it, as [`Range::parse`] does for a text with `||`.
///
/// # Examples
///
/// - The range of the span from `Before(1.2.3)` to `Before(2.0.0-0)` equals `^1.2.3`.
/// - The empty list gives `None`, and so does a span that ends at `Before(18446744073709551615.0.0)`.
pub fn range_from_sets(alloc: Global, sets: &[Span<Version>]) -> Result<Option<Range>, AllocError>
    ensures sets { IfOk result (λ answer. IfSome answer (λ range. range ≡ sets.now)) }
    ensures some { IfOk result (λ answer. IsSome answer ↔ IsRangeValue sets.now) }
    ensures none { IfOk result (λ answer. IsNone answer ↔ ¬ IsRangeValue sets.now) }
{
    if !are_range_sets(sets) {
        return Ok(None);
    }
    Range::of_gathered(gathered(alloc, sets)?)
}

// Whether each of the sets can be a set of a range.
fn are_range_sets(sets: &[Span<Version>]) -> bool
    ensures { IsTrue result ↔ AllByRecursion IsRangeSet sets.now }
{
    'sets: for set in sets {
        if !is_range_set(set) {
            return false;
        }
    }
    true
}

#[inline]
fn is_range_set(set: &Span<Version>) -> bool
    ensures { IsTrue result ↔ IsRangeSet set.now }
{
    let (lower, upper) = set.ends();
    is_range_cut(lower) && is_range_cut(upper)
}

#[inline]
fn is_range_cut(cut: &Cut<Version>) -> bool
    ensures { IsTrue result ↔ IsRangeCut cut.now }
{
    match cut {
        Cut::Start | Cut::End => true,
        Cut::Before(version) | Cut::After(version) => is_range_end(version),
    }
}

#[inline]
fn is_range_end(version: &Version) -> bool
    ensures { IsTrue result ↔ IsRangeEnd version.now }
{
    are_read_numbers(version.major, version.minor, version.patch) && has_read_identifiers(version)
}

#[inline]
fn are_read_numbers(major: u64, minor: u64, patch: u64) -> bool
    ensures { IsTrue result ↔ ((major ≤ MAX_SAFE_INTEGER + 1) × (minor ≤ MAX_SAFE_INTEGER + 1)
        × (patch ≤ MAX_SAFE_INTEGER + 1)) }
{
    major <= MAX_SAFE_INTEGER + 1 && minor <= MAX_SAFE_INTEGER + 1 && patch <= MAX_SAFE_INTEGER + 1
}

#[inline]
fn has_read_identifiers(version: &Version) -> bool
    ensures { IsTrue result ↔ (AllByRecursion IsReadIdentifier version.now.pre_release
        × AllByRecursion IsReadIdentifier version.now.build) }
{
    are_read(&version.pre_release) && are_read(&version.build)
}

// The sets, with ends of their own.
fn gathered(alloc: Global, spans: &[Span<Version>]) -> Result<Gathered, AllocError>
    ensures { IfOk result (λ sets. sets ≡ spans.now) }
{
    let mut sets = Gathered::new(alloc);
    'spans: for span in spans {
        sets.add(set_of(alloc, span)?)?;
    }
    Ok(sets)
}

#[inline]
fn set_of(alloc: Global, span: &Span<Version>) -> Result<Span<EndVersion>, AllocError>
    ensures { IfOk result (λ set. set ≡ span.now) }
{
    let (lower, upper) = span.ends();
    Ok(Span::between(end_cut_of(alloc, lower)?, end_cut_of(alloc, upper)?))
}

#[inline]
fn end_cut_of(alloc: Global, cut: &Cut<Version>) -> Result<Cut<EndVersion>, AllocError>
    ensures { IfOk result (λ copy. copy ≡ cut.now) }
{
    match cut {
        Cut::Start => Ok(Cut::Start),
        Cut::Before(version) => Ok(Cut::Before(end_of(alloc, version)?)),
        Cut::After(version) => Ok(Cut::After(end_of(alloc, version)?)),
        Cut::End => Ok(Cut::End),
    }
}

#[inline]
fn end_of(alloc: Global, version: &Version) -> Result<EndVersion, AllocError>
    ensures { IfOk result (λ end. end ≡ version.now) }
{
    let triple = (version.major, version.minor, version.patch);
    EndVersion::with_copies(alloc, triple, &version.pre_release, &version.build)
}
