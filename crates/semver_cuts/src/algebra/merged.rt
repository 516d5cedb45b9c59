//! A list of spans together with its merged spans, which are kept as places in the list.
//!
//! `#[inline]`: the functions copy two slices or read one element, and are in the loops of walks and searches.
ghost use Rattle.std.specs.Prelude.{◌≡◌, ◌<◌, ◌+◌, ◌∷◌, IsTrue, length, drop};
ghost use Rattle.semver_cuts.specs.Ends.{span_between};
ghost use Rattle.semver_cuts.specs.Joined.{AreJoined, AreMerged};
ghost use Rattle.semver_cuts.specs.Places.{AreWithin, IsPlacesOf, merged_spans, span_of_places};
ghost use Rattle.semver_cuts.specs.Starts.{count_of_starts};
ghost use Rattle.semver_cuts.specs.Private.FirstAbove.{IsFirstAbove};

use crate::algebra::places::Places;
use crate::{Cut, Span};
use std::marker::Model;

/// A borrowed list of spans, with the spans that it is joined to: the *merged spans*. They ascend, with a cut between
/// each and the next, and contain exactly the cuts of the list.
///
/// Both the list and the places are borrowed, and no end is copied. An end of a merged span is that of the first span
/// of the list that has an end at this cut.
///
/// # Memory
///
/// Does not allocate.
///
/// # Examples
///
/// The merged spans of 2 to 5, 0 to 1 and 4 to 7 are 0 to 1 and 2 to 7.
#[derive(Debug, Drop)]
pub struct MergedSpans<'a, 'p, T: Ord> {
    spans: &'a [Span<T>],
    places: &'p [(usize, usize)],
}

impl<'a, 'p, T: Ord> Model for MergedSpans<'a, 'p, T> {
    ghost use Rattle.semver_cuts.specs.Places.{IsPlacesOf, MergedSpansValue, merged_spans};

    ghost Value = { MergedSpansValue T };

    ghost view = { λ m. record { list = m.spans.now; merged = merged_spans m.spans.now m.places.now } };

    ghost invariant = { λ m. IsPlacesOf T.cmp m.spans.now m.places.now };
}

impl<'a, 'p, T: Ord> MergedSpans<'a, 'p, T> {
    /// Returns the list with its merged spans, given by their places.
    ///
    /// # Memory
    ///
    /// Does not allocate.
    #[inline]
    pub fn with(spans: &'a [Span<T>], places: &'p Places) -> MergedSpans<'a, 'p, T>
        requires { IsPlacesOf T.cmp spans.now places.now }
        ensures list { result.list ≡ spans.now }
        ensures merged { result.merged ≡ merged_spans spans.now places.now }
    {
        MergedSpans {
            spans,
            places: places.as_slice(),
        }
    }

    /// Returns a list that is merged as it stands: each span ends below where the next one begins.
    ///
    /// # Memory
    ///
    /// Does not allocate.
    #[inline]
    pub fn of_merged(spans: &'a [Span<T>]) -> MergedSpans<'a, 'p, T>
        requires { AreMerged T.cmp spans.now }
        ensures list { result.list ≡ spans.now }
        ensures merged { result.merged ≡ spans.now }
    {
        MergedSpans { spans, places: &[] }
    }

    /// Returns the number of merged spans. It is the number of spans in the list whose lower end no earlier span has,
    /// and that no span of the list reaches from below.
    ///
    /// # Memory
    ///
    /// Does not allocate.
    ///
    /// # Examples
    ///
    /// 2 for 2 to 5, 0 to 1 and 4 to 7. 1 for 0 to 1 and 1 to 2.
    #[inline]
    pub fn len(&self) -> usize
        ensures length { result ≡ length self.now.merged }
        ensures starts { result ≡ count_of_starts T.cmp self.now.list }
        ensures joined { AreJoined T.cmp self.now.list self.now.merged }
    {
        if self.places.is_empty() {
            self.spans.len()
        } else {
            self.places.len()
        }
    }

    /// Returns the two ends of the merged span with this number, counted from 0.
    ///
    /// # Memory
    ///
    /// Does not allocate.
    ///
    /// # Examples
    ///
    /// Number 1 of 2 to 5, 0 to 1 and 4 to 7 is 2 to 7.
    #[inline]
    pub fn ends(&self, number: usize) -> (&'a Cut<T>, &'a Cut<T>)
        requires { number < length self.now.merged }
        ensures { drop number self.now.merged
            ≡ span_between result.0.now result.1.now ∷ drop (number + 1) self.now.merged }
    {
        if self.places.is_empty() {
            ends_at(self.spans, number)
        } else {
            ends_between(self.spans, self.places[number])
        }
    }

    // Returns the number of the first merged span that ends above the cut, found by binary search.
    pub(crate) fn first_above(&self, cut: &Cut<T>) -> usize
        ensures { IsFirstAbove T.cmp self.now.merged cut.now result }
    {
        let mut low = 0;
        let mut high = self.len();
        while low < high {
            let middle = low + (high - low) / 2;
            let (_, upper) = self.ends(middle);
            if *upper <= *cut {
                low = middle + 1;
            } else {
                high = middle;
            }
        }
        low
    }

    // Returns the list itself.
    #[inline]
    pub(crate) fn spans(&self) -> &'a [Span<T>]
        ensures list { result.now ≡ self.now.list }
        ensures joined { AreJoined T.cmp self.now.list self.now.merged }
    {
        self.spans
    }

    // Returns `true` only if the list is merged as it stands.
    #[inline]
    pub(crate) fn is_list_merged(&self) -> bool
        ensures { IsTrue result → AreMerged T.cmp self.now.list }
    {
        self.places.is_empty()
    }
}

// Returns the ends of the span at a place of a list.
#[inline]
fn ends_at<'a, T: Ord>(spans: &'a [Span<T>], place: usize) -> (&'a Cut<T>, &'a Cut<T>)
    requires { place < length spans.now }
    ensures { drop place spans.now ≡ span_between result.0.now result.1.now ∷ drop (place + 1) spans.now }
{
    spans[place].ends()
}

// Returns the lower end of the span at the first place, and the upper end of the span at the second.
#[inline]
fn ends_between<'a, T: Ord>(
    spans: &'a [Span<T>],
    places: (usize, usize),
) -> (&'a Cut<T>, &'a Cut<T>)
    requires { AreWithin spans.now places }
    ensures { span_between result.0.now result.1.now ≡ span_of_places spans.now places }
{
    let (begins, ends) = places;
    (spans[begins].lower(), spans[ends].upper())
}
