//! Sets with an index, by which a version is found among them.
//!
//! Several sets have a binary search, over merged spans and opened triples.
ghost use Rattle.std.specs.Prelude.{◌≡◌, ◌↔◌, ℕ, ◌+◌, ◌*◌, ◌≤◌, ◌<◌, IfOk, IsTrue, length};
ghost use Rattle.std.specs.List.{AllByRecursion};
ghost use Rattle.semver_cuts.specs.declared.cut.Cut.TheVariants.{Before};
ghost use Rattle.semver_cuts.specs.SpanLists.{IsInSome};
ghost use Rattle.semver_cuts.specs.Places.{IsPlacesOf, span_at};
ghost use Rattle.semver_cuts.specs.Starts.{count_of_starts};
ghost use Rattle.semver_texts.specs.Comparison.{version_cmp};
ghost use Rattle.semver_sets.specs.Meaning.{AnyByRecursion, IsInside, RangeAdmits, RangeContains};
ghost use Rattle.semver_sets.specs.Searching.{HasDigits, IsShortSearch, IsShortSearchInside, count_of_opening};
ghost use Rattle.semver_texts.specs.Version.{IsPrerelease};
ghost use Rattle.semver_sets.specs.Private.SearchViews.{AreOpeningsOf};

use crate::Counts;
use crate::set::{admits_opened, has_inside, is_at_or_before};
use crate::set_list::copy::copies_of;
use crate::set_list::opened::{Opening, openings, openings_at};
use semver_cuts::Span;
use semver_cuts::algebra::{MergedSpans, Places};
use semver_texts::AsVersion;
use semver_texts::end::EndVersion;
use std::alloc::{AllocError, Global};
use std::marker::Model;

// The greatest number of sets that have no list of openings: a prerelease is then looked for in each of them.
const FEW_SETS: usize = 4;

/// A list of sets, with an index to find a version in it. The index has two parts: the merged spans of the sets, as
/// places in the list, and for each triple of which a prerelease is at an end, the sets that have such an end. The
/// second part is empty for up to four sets.
///
/// A contract sees the list alone.
#[derive(Debug, Drop)]
pub struct IndexedSets {
    sets: Vec<Span<EndVersion>>,
    places: Places,
    openings: Vec<Opening>,
}

impl Model for IndexedSets {
    ghost use Rattle.std.specs.Prelude.{◌<◌, List, length};
    ghost use Rattle.semver_cuts.specs.Ends.{Ends};
    ghost use Rattle.semver_cuts.specs.Places.{IsPlacesOf};
    ghost use Rattle.semver_texts.specs.Comparison.{version_cmp};
    ghost use Rattle.semver_sets.specs.Private.SearchViews.{AreOpeningsOf};
    ghost use Rattle.semver_texts.specs.Version.{VersionValue};
    ghost use Rattle.semver_sets.specs.declared.set_list.indexed.TheConstants.{FEW_SETS};

    ghost Value = { List (Ends VersionValue) };

    ghost view = { λ s. s.sets.items };

    ghost invariant = { λ s. IsPlacesOf version_cmp s.sets.items s.places
        × (FEW_SETS < length s.sets.items → AreOpeningsOf s.sets.items s.openings.items) };
}

impl IndexedSets {
    // The list with its index. The index has no places if the sets ascend and do not touch, and no triples for up to
    // four sets, or if no end is a prerelease.
    pub(crate) fn of(alloc: Global, sets: Vec<Span<EndVersion>>) -> Result<IndexedSets, AllocError>
        ensures { IfOk result (λ indexed. indexed ≡ sets.items) }
    {
        let places = Places::of(alloc, &sets)?;
        let openings = if sets.len() <= FEW_SETS {
            Vec::new(alloc)
        } else {
            openings(alloc, &sets)?
        };
        Ok(IndexedSets {
            sets,
            places,
            openings,
        })
    }

    // The list. `inline(always)`: it only passes a slice on.
    #[inline(always)]
    pub(crate) fn as_slice(&self) -> &[Span<EndVersion>]
        ensures { result.now ≡ self.now }
    {
        &self.sets
    }

    // The list with its merged spans. `inline(always)`: it only passes two slices on.
    #[inline(always)]
    pub(crate) fn merged(&self) -> MergedSpans<'_, '_, EndVersion>
        ensures { result.list ≡ self.now }
    {
        MergedSpans::with(&self.sets, &self.places)
    }

    // A copy of the list and its index.
    pub(crate) fn copy(&self) -> Result<IndexedSets, AllocError>
        ensures { IfOk result (λ copy. copy ≡ self.now) }
    {
        let sets = copies_of(&self.sets)?;
        let places = self.places.clone()?;
        let openings = Vec::from_slice(*self.openings.allocator(), &self.openings)?;
        Ok(IndexedSets {
            sets,
            places,
            openings,
        })
    }

    // Returns `true` if one of the sets admits the version. Looks for a release among the merged spans, and for a
    // prerelease in the sets with an end that is a prerelease of its triple. `inline(never)`: see `set_list.rt`.
    #[inline(never)]
    pub(crate) fn admits<V: AsVersion, C: Counts>(&self, version: &V, comparisons: &mut C) -> bool
        ensures answer { IsTrue result ↔ RangeAdmits self.now (V.seen version.now) }
        ensures short { IsShortSearch self.now (V.seen version.now) (C.count comparisons.old)
            (C.count comparisons.new) }
    {
        if !version.is_prerelease() {
            return is_in_some(&self.merged(), version, comparisons);
        }
        if self.sets.len() <= FEW_SETS {
            return is_in_few(&self.sets, version, comparisons);
        }
        let openings = openings_at(&self.openings, version.triple());
        is_in_opened(&self.sets, openings, version, comparisons)
    }

    // Returns `true` if the version lies inside one of the sets: if it lies in one of the merged spans.
    // `inline(never)`: see `set_list.rt`.
    #[inline(never)]
    pub(crate) fn contains<V: AsVersion, C: Counts>(&self, version: &V, comparisons: &mut C) -> bool
        ensures answer { IsTrue result ↔ RangeContains self.now (V.seen version.now) }
        ensures short { IsShortSearchInside self.now (V.seen version.now) (C.count comparisons.old)
            (C.count comparisons.new) }
    {
        is_in_some(&self.merged(), version, comparisons)
    }
}

// Returns `true` if one of the sets admits the prerelease.
fn is_in_few<V: AsVersion, C: Counts>(
    sets: &[Span<EndVersion>],
    version: &V,
    comparisons: &mut C,
) -> bool
    requires { IsPrerelease (V.seen version.now) }
    ensures answer { IsTrue result ↔ RangeAdmits sets.now (V.seen version.now) }
    ensures adds { C.count comparisons.old ≤ C.count comparisons.new }
    ensures short { C.count comparisons.new
        ≤ C.count comparisons.old + 2 * count_of_opening (V.seen version.now) sets.now }
    ensures admitted { IsTrue result → C.count comparisons.old + 2 ≤ C.count comparisons.new }
{
    'sets: for set in sets {
        if admits_opened(set, version, comparisons) {
            return true;
        }
    }
    false
}

// Returns `true` if the version lies in one of the spans. A binary search finds the last merged span that begins below
// the version: it lies in that one, or in none.
fn is_in_some<V: AsVersion, C: Counts>(
    spans: &MergedSpans<'_, '_, EndVersion>,
    version: &V,
    comparisons: &mut C,
) -> bool
    ensures inside { IsTrue result ↔ IsInSome version_cmp spans.now.list (Before (V.seen version.now)) }
    ensures adds { C.count comparisons.old ≤ C.count comparisons.new }
    ensures short { (digits : ℕ) → HasDigits (count_of_starts version_cmp spans.now.list) digits →
        C.count comparisons.new ≤ C.count comparisons.old + digits + 1 }
    ensures admitted { IsTrue result → C.count comparisons.old + 2 ≤ C.count comparisons.new }
{
    let mut low = 0;
    let mut high = spans.len();
    while low < high {
        let middle = low + (high - low) / 2;
        let (lower, _) = spans.ends(middle);
        if is_at_or_before(lower, version, comparisons) {
            low = middle + 1;
        } else {
            high = middle;
        }
    }
    if low == 0 {
        return false;
    }
    let (_, upper) = spans.ends(low - 1);
    !is_at_or_before(upper, version, comparisons)
}

// Returns `true` if the version lies in one of the sets at these places.
fn is_in_opened<V: AsVersion, C: Counts>(
    sets: &[Span<EndVersion>],
    openings: &[Opening],
    version: &V,
    comparisons: &mut C,
) -> bool
    requires { AllByRecursion (λ o. o.place < length sets.now) openings.now }
    ensures inside { IsTrue result
        ↔ AnyByRecursion (λ o. IsInside (V.seen version.now) (span_at sets.now o.place)) openings.now }
    ensures adds { C.count comparisons.old ≤ C.count comparisons.new }
    ensures short { C.count comparisons.new ≤ C.count comparisons.old + 2 * length openings.now }
    ensures admitted { IsTrue result → C.count comparisons.old + 2 ≤ C.count comparisons.new }
{
    'openings: for opening in openings {
        if has_inside(&sets[opening.place], version, comparisons) {
            return true;
        }
    }
    false
}
