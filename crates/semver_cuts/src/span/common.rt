//! The intersection and the difference of two spans, as references to their ends.
//!
//! `#[inline]`: the functions have a few comparisons, and are in the inner loops of the algebra.
ghost use Rattle.std.specs.Prelude.{◌≡◌, ◌↔◌, ◌++◌, IsTrue, option_map, option_to_list};
ghost use Rattle.semver_cuts.specs.declared.cut.Cut.{Cut};
ghost use Rattle.semver_cuts.specs.Ends.{IsInSpan, span_between};
ghost use Rattle.semver_cuts.specs.SpanLists.{IsInSome, IsWithin};
ghost use Rattle.semver_cuts.specs.CommonSpans.{common_of, lesser_cut};
ghost use Rattle.semver_cuts.specs.Sharing.{HaveCommonCut};
ghost use Rattle.semver_cuts.specs.SpanDifference.{piece_above, piece_below, span_if_any};

use crate::{Cut, Span};

impl<T: Ord> Span<T> {
    /// Returns the ends of the intersection of the two spans, or `None` if they share no cut.
    ///
    /// The intersection goes from the greater of the two lower ends up to the lesser of the two upper ends. The ends
    /// are borrowed from the spans: of equal lower ends that of `other`, and of equal upper ends that of `self`.
    ///
    /// Spans that touch share no cut.
    ///
    /// # Memory
    ///
    /// Does not allocate.
    ///
    /// # Examples
    ///
    /// The intersection of `Before(1)` up to `Before(5)` and `After(3)` up to `After(9)` is `After(3)` up to
    /// `Before(5)`. `Before(1)` up to `Before(3)` and `Before(3)` up to `Before(5)` share no cut.
    #[inline]
    pub fn common<'a>(&'a self, other: &'a Span<T>) -> Option<(&'a Cut<T>, &'a Cut<T>)>
        ensures ends { option_to_list (option_map (λ lent. span_between lent.0.now lent.1.now) result)
            ≡ common_of T.cmp self.now other.now }
        ensures cuts { (cut : Cut T) →
            IsInSome T.cmp (option_to_list (option_map (λ lent. span_between lent.0.now lent.1.now) result)) cut
            ↔ IsInSpan T.cmp self.now cut × IsInSpan T.cmp other.now cut }
    {
        self.ends_in_common(other)
    }

    /// Returns the difference, which is the part of this span outside the other: the ends of the piece below the other
    /// and of the piece above it, each `None` if no cut lies there.
    ///
    /// The ends are borrowed from the spans: the outer ends from `self`, the inner ends from `other`. If the two share
    /// no cut, the first piece is the whole of `self`, even if `self` lies above `other`.
    ///
    /// # Memory
    ///
    /// Does not allocate.
    ///
    /// # Examples
    ///
    /// `Before(1)` up to `Before(9)` without `Before(3)` up to `Before(5)` is `Before(1)` up to `Before(3)` and
    /// `Before(5)` up to `Before(9)`. `Before(3)` up to `Before(5)` without `Before(1)` up to `Before(9)` is `None` and
    /// `None`.
    pub fn rest<'a>(
        &'a self,
        other: &'a Span<T>,
    ) -> (
        Option<(&'a Cut<T>, &'a Cut<T>)>,
        Option<(&'a Cut<T>, &'a Cut<T>)>,
    )
        ensures below { option_to_list (option_map (λ lent. span_between lent.0.now lent.1.now) result.0)
            ≡ piece_below T.cmp self.now other.now }
        ensures above { option_to_list (option_map (λ lent. span_between lent.0.now lent.1.now) result.1)
            ≡ piece_above T.cmp self.now other.now }
        ensures cuts { (cut : Cut T) →
            IsInSome T.cmp (option_to_list (option_map (λ lent. span_between lent.0.now lent.1.now) result.0)
            ++ option_to_list (option_map (λ lent. span_between lent.0.now lent.1.now) result.1)) cut
            ↔ IsInSpan T.cmp self.now cut × ¬ IsInSpan T.cmp other.now cut }
    {
        match self.common(other) {
            None => (Some((&self.lower, &self.upper)), None),
            Some(_) => (
                ends_if_any(&self.lower, &other.lower),
                ends_if_any(&other.upper, &self.upper),
            ),
        }
    }

    // Returns the ends of the intersection, or `None` if the two spans share no cut. `inline(always)`: it is the body
    // of the inner loops of the algebra.
    #[inline(always)]
    pub(crate) fn ends_in_common<'a>(
        &'a self,
        other: &'a Span<T>,
    ) -> Option<(&'a Cut<T>, &'a Cut<T>)>
        ensures { option_to_list (option_map (λ lent. span_between lent.0.now lent.1.now) result)
            ≡ common_of T.cmp self.now other.now }
    {
        if other.lower < self.lower {
            if self.lower < other.upper {
                Some((&self.lower, lesser(&self.upper, &other.upper)))
            } else {
                None
            }
        } else if other.lower < self.upper {
            Some((&other.lower, lesser(&self.upper, &other.upper)))
        } else {
            None
        }
    }

    /// Returns `true` if some cut lies in both spans.
    ///
    /// `a.shares_cut(&b)` equals `b.shares_cut(&a)`, and is true exactly if [`Span::common`] returns `Some`.
    ///
    /// # Memory
    ///
    /// Does not allocate.
    ///
    /// # Examples
    ///
    /// `Before(1)` up to `Before(3)` shares a cut with `After(1)` up to `Before(5)`, and none with `Before(3)` up to
    /// `Before(5)`.
    // `inline(always)`: it has two comparisons, and is in the inner loops of callers.
    #[inline(always)]
    pub fn shares_cut(&self, other: &Span<T>) -> bool
        ensures { IsTrue result ↔ HaveCommonCut T.cmp self.now other.now }
    {
        self.lower < other.upper && other.lower < self.upper
    }

    // Returns `true` if each cut of the other span lies in this one. `inline(always)`: it has two comparisons.
    #[inline(always)]
    pub(crate) fn covers(&self, other: &Span<T>) -> bool
        ensures { IsTrue result ↔ IsWithin T.cmp other.now self.now }
    {
        self.lower <= other.lower && other.upper <= self.upper
    }
}

// Returns the lesser of two cuts, and the first if they are equal.
#[inline]
fn lesser<'a, T: Ord>(one: &'a Cut<T>, other: &'a Cut<T>) -> &'a Cut<T>
    ensures { result.now ≡ lesser_cut T.cmp one.now other.now }
{
    if *other < *one { other } else { one }
}

// Returns the two cuts if the first is less than the second.
#[inline]
fn ends_if_any<'a, T: Ord>(lower: &'a Cut<T>, upper: &'a Cut<T>) -> Option<(&'a Cut<T>, &'a Cut<T>)>
    ensures { option_to_list (option_map (λ lent. span_between lent.0.now lent.1.now) result)
        ≡ span_if_any T.cmp lower.now upper.now }
{
    if *lower < *upper {
        Some((lower, upper))
    } else {
        None
    }
}
