//! Which sets of a range have a prerelease at an end, and so *open* its triple: only they can admit other prereleases
//! of it.
ghost use Rattle.std.specs.Prelude.{◌≡◌, ◌≤◌, ◌*◌, ◌++◌, ◌↔◌, IfOk, OnOk, IsTrue, drop, false, filter, length, take};
ghost use Rattle.std.specs.Prelude.{true};
ghost use Rattle.std.specs.List.{AllByRecursion};
ghost use Rattle.std.specs.List.Sorted.{IsPartitionedBy, IsSortedByKey};
ghost use Rattle.std.specs.Ordering.{is_le};
ghost use Rattle.semver_sets.specs.Private.SearchViews.{AreOpeningsOf, opened_triple, openings_of, other_than};
ghost use Rattle.semver_sets.specs.Private.SearchViews.{same_triples, triple_at};
ghost use Rattle.semver_texts.specs.Triple.{triple_cmp};

use semver_cuts::{Cut, Span};
use semver_texts::Triple;
use semver_texts::end::EndVersion;
use std::alloc::{AllocError, Global};

// A triple, and the place of a set that has a prerelease of this triple at an end.
#[derive(Clone, Copy, Debug)]
pub(crate) struct Opening {
    pub(crate) triple: Triple,
    pub(crate) place: usize,
}

// The opened triples of all sets, each with the place of the set, sorted by triple. Does not allocate if no end is a
// prerelease.
pub(crate) fn openings(alloc: Global, sets: &[Span<EndVersion>]) -> Result<Vec<Opening>, AllocError>
    ensures { IfOk result (λ openings. AreOpeningsOf sets.now openings.items) }
{
    let count = count_of(sets);
    let mut openings = Vec::with_capacity(alloc, count)?;
    'sets: for (place, set) in sets.iter().enumerate() {
        add_openings(&mut openings, place, set)?;
    }
    openings.sort_by_key(|opening| opening.triple)?;
    Ok(openings)
}

// The number of openings.
fn count_of(sets: &[Span<EndVersion>]) -> usize {
    let mut count = 0;
    'sets: for set in sets {
        let (lower, upper) = triples_of(set);
        if lower.is_some() {
            count += 1;
        }
        if upper.is_some() {
            count += 1;
        }
    }
    count
}

// Adds the openings of the set at a place.
#[inline]
fn add_openings(
    openings: &mut Vec<Opening>,
    place: usize,
    set: &Span<EndVersion>,
) -> Result<(), AllocError>
    ensures { OnOk result (openings.new.items ≡ openings.old.items ++ openings_of place set.now) }
{
    let (lower, upper) = triples_of(set);
    if let Some(triple) = lower {
        openings.push(Opening { triple, place })?;
    }
    if let Some(triple) = upper {
        openings.push(Opening { triple, place })?;
    }
    Ok(())
}

// The triple that the set's lower end opens, and the triple that its upper end opens if it is another.
#[inline]
fn triples_of(set: &Span<EndVersion>) -> (Option<Triple>, Option<Triple>)
    ensures lower { result.0 ≡ triple_at set.now.lower }
    ensures upper { result.1 ≡ other_than (triple_at set.now.lower) (triple_at set.now.upper) }
{
    let lower = triple_at(set.lower());
    let upper = triple_at(set.upper());
    let other = match (lower, upper) {
        (Some(lower), Some(upper)) if is_same(lower, upper) => None,
        _ => upper,
    };
    (lower, other)
}

// The triple that a cut opens, if a prerelease is at it.
#[inline]
fn triple_at(cut: &Cut<EndVersion>) -> Option<Triple>
    ensures { result ≡ triple_at cut.now }
{
    match cut {
        Cut::Before(end) | Cut::After(end) => opened_triple(end),
        Cut::Start | Cut::End => None,
    }
}

// The triple that an end opens, if it is a prerelease.
#[inline]
fn opened_triple(end: &EndVersion) -> Option<Triple>
    ensures { result ≡ opened_triple end.now }
{
    if end.is_prerelease() {
        Some(end.triple())
    } else {
        None
    }
}

// `inline(always)`: one test.
#[inline(always)]
fn is_same(one: Triple, other: Triple) -> bool
    ensures { result ≡ same_triples one other }
{
    one.major == other.major && one.minor == other.minor && one.patch == other.patch
}

// The openings of a triple, found by binary search.
#[inline]
pub(crate) fn openings_at(openings: &[Opening], triple: Triple) -> &[Opening]
    requires { IsSortedByKey (λ o. o.triple) triple_cmp openings.now }
    ensures { result.now ≡ filter (λ o. same_triples o.triple triple) openings.now }
{
    let begin = openings.partition_point(|opening| opening.triple < triple);
    let others = &openings[begin..];
    let end = count_at_most(others, triple);
    &others[..end]
}

// The number of openings before the first with a greater triple. Few sets open the same triple, so a loop takes fewer
// steps than a binary search.
#[inline]
fn count_at_most(openings: &[Opening], triple: Triple) -> usize
    requires { IsPartitionedBy (λ o. is_le (triple_cmp o.triple triple)) openings.now }
    ensures bound { result ≤ length openings.now }
    ensures first { AllByRecursion (λ o. is_le (triple_cmp o.triple triple) ≡ true) (take result openings.now) }
    ensures others { AllByRecursion (λ o. is_le (triple_cmp o.triple triple) ≡ false) (drop result openings.now) }
{
    for (place, opening) in openings.iter().enumerate() {
        if !opening.triple.cmp(&triple).is_le() {
            return place;
        }
    }
    openings.len()
}
