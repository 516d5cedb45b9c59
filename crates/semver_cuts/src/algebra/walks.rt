//! Whether two lists of spans share a cut, and whether one contains all cuts of the other: each is decided by one walk
//! along the merged spans of both. Cuts are compared as values.
//!
//! Steps stand in functions of their own: half of a check is the borrow checker's, and grows with a function's steps.
ghost use Rattle.std.specs.Prelude.{◌↔◌, IsTrue};
ghost use Rattle.semver_cuts.specs.Joined.{AreMerged};
ghost use Rattle.semver_cuts.specs.Sharing.{CoversAll, ShareCut};

use crate::Span;
use crate::algebra::merged::MergedSpans;

/// Returns `true` if each cut in some span of the second list lies in some span of the first. Both lists must be
/// merged.
///
/// Merged spans do not touch, so this is the case exactly if each span of the second list lies in one span of the
/// first.
///
/// # Memory
///
/// Does not allocate.
///
/// # Examples
///
/// 1 to 5 and 7 to 9 cover 2 to 5 and 8 to 9. They cover neither 2 to 6 nor 4 to 8.
pub fn covers<T: Ord>(ones: &[Span<T>], others: &[Span<T>]) -> bool
    requires ones { AreMerged T.cmp ones.now }
    requires others { AreMerged T.cmp others.now }
    ensures { IsTrue result ↔ CoversAll T.cmp ones.now others.now }
{
    MergedSpans::of_merged(ones).covers(&MergedSpans::of_merged(others))
}

impl<'a, 'p, T: Ord> MergedSpans<'a, 'p, T> {
    /// Returns `true` if each cut in some span of the other list lies in some span of this one.
    ///
    /// # Memory
    ///
    /// Does not allocate.
    ///
    /// # Examples
    ///
    /// 5 to 9 and 1 to 5 cover 2 to 8.
    pub fn covers(&self, other: &MergedSpans<'_, '_, T>) -> bool
        ensures { IsTrue result ↔ CoversAll T.cmp self.now.list other.now.list }
    {
        if let ([this], [that]) = (self.spans(), other.spans()) {
            return this.covers(that);
        }
        covers_along(self, other)
    }

    /// Returns `true` if some cut lies both in a span of this list and in a span of the other.
    ///
    /// Spans that touch share no cut. `a.shares_cut(&b)` equals `b.shares_cut(&a)`.
    ///
    /// # Memory
    ///
    /// Does not allocate.
    ///
    /// # Examples
    ///
    /// 5 to 9 and 1 to 3 share a cut with 2 to 4, and none with 3 to 5.
    pub fn shares_cut(&self, other: &MergedSpans<'_, '_, T>) -> bool
        ensures { IsTrue result ↔ ShareCut T.cmp self.now.list other.now.list }
    {
        if let ([this], [that]) = (self.spans(), other.spans()) {
            return this.shares_cut(that);
        }
        shares_along(self, other)
    }
}

// `MergedSpans::covers`, by one walk along the merged spans of both. Each step passes a span of one list.
fn covers_along<T: Ord>(ones: &MergedSpans<'_, '_, T>, others: &MergedSpans<'_, '_, T>) -> bool
    ensures { IsTrue result ↔ CoversAll T.cmp ones.now.list others.now.list }
{
    let count = ones.len();
    let other_count = others.len();
    let mut place = 0;
    let mut other_place = 0;
    while other_place < other_count {
        if place >= count {
            return false;
        }
        let (lower, upper) = ones.ends(place);
        let (low, high) = others.ends(other_place);
        if *upper <= *low {
            place += 1;
        } else if *low < *lower || *upper < *high {
            return false;
        } else {
            other_place += 1;
        }
    }
    true
}

// `MergedSpans::shares_cut`, by one walk along the merged spans of both.
fn shares_along<T: Ord>(ones: &MergedSpans<'_, '_, T>, others: &MergedSpans<'_, '_, T>) -> bool
    ensures { IsTrue result ↔ ShareCut T.cmp ones.now.list others.now.list }
{
    let count = ones.len();
    let other_count = others.len();
    let mut place = 0;
    let mut other_place = 0;
    while place < count && other_place < other_count {
        let (lower, upper) = ones.ends(place);
        let (low, high) = others.ends(other_place);
        if *high <= *lower {
            other_place += 1;
        } else if *upper <= *low {
            place += 1;
        } else {
            return true;
        }
    }
    false
}
