//! A search for the first span that ends above a cut, in a list of spans that are apart. It begins near a place.
//!
//! `#[inline]`: it is called once for each span of a list, and the first test usually succeeds.
ghost use Rattle.std.specs.Prelude.{IsTrue};
ghost use Rattle.semver_cuts.specs.Joined.{AreMerged};
ghost use Rattle.semver_cuts.specs.Private.FirstAbove.{IsFirstAbove};

use crate::algebra::merged::MergedSpans;
use crate::{Cut, Span};

// Returns the place of the first span that ends above the cut. Tries `place`, then the next one, and then a binary
// search.
#[inline]
pub(crate) fn first_near<T: Ord>(spans: &[Span<T>], place: usize, cut: &Cut<T>) -> usize
    requires { AreMerged T.cmp spans.now }
    ensures { IsFirstAbove T.cmp spans.now cut.now result }
{
    if is_first_above(spans, place, cut) {
        return place;
    }
    let next = place.saturating_add(1);
    if is_first_above(spans, next, cut) {
        return next;
    }
    MergedSpans::of_merged(spans).first_above(cut)
}

// Returns `true` only if the span at the place is the first that ends above the cut.
#[inline]
fn is_first_above<T: Ord>(spans: &[Span<T>], place: usize, cut: &Cut<T>) -> bool
    requires { AreMerged T.cmp spans.now }
    ensures { IsTrue result → IsFirstAbove T.cmp spans.now cut.now place }
{
    if place >= spans.len() || *spans[place].upper() <= *cut {
        return false;
    }
    if place == 0 {
        return true;
    }
    *spans[place - 1].upper() <= *cut
}
