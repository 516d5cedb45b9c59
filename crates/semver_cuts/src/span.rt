//! Spans: pairs of cuts with a cut between them.
//!
//! `#[inline]`: the functions have one or two comparisons or none, and are in the inner loops of the algebra.
ghost use Rattle.std.specs.Prelude.{◌≡◌, ◌↔◌, IfSome, IsSome, IsTrue};
ghost use Rattle.semver_cuts.specs.declared.cut.Cut.TheVariants.{Before, End, Start};
ghost use Rattle.semver_cuts.specs.Ends.{HoldsCut, IsCutAtMost, IsCutBelow, IsInSpan, span_between};

mod common;
mod equality;

use crate::Cut;
use std::marker::Model;
use std::mem;

/// The cuts from a lower one up to but not including an upper one. A span contains at least one cut: its lower end.
///
/// A value lies in a span if the cut before the value does. So 3, 5 and the values between them lie in the span from
/// `Before(3)` up to `After(5)`, and neither 3 nor 5 lies in the span from `After(3)` up to `Before(5)`. A span from
/// `Start` has no lower limit, and a span to `End` no upper one.
///
/// A span contains a cut, and may still contain no value: no whole number lies in the span from `After(3)` up to
/// `Before(4)`.
///
/// # Memory
///
/// Does not allocate. A span holds its two cuts.
///
/// # Examples
///
/// The span from `Before(3)` up to `Before(5)` contains 3 and 4, and does not contain 5.
#[derive(Debug)]
pub struct Span<T: Ord> {
    lower: Cut<T>,
    upper: Cut<T>,
}

// `Drop` is written by hand so that dropping a span is one call in a caller's proof; the derived one adds a branch for each
// form of its ends. `inline(always)`: the code is then as fast as the derived one.
impl<T: Ord + Drop> Drop for Span<T> {
    #[inline(always)]
    fn drop(self) {
        let Span { lower: _, upper: _ } = self;
    }
}

impl<T: Ord> Model for Span<T> {
    ghost use Rattle.semver_cuts.specs.Ends.{Ends, IsCutBelow, span_between};

    ghost Value = { Ends T };

    ghost view = { λ s. span_between s.lower s.upper };

    ghost invariant = { λ s. IsCutBelow T.cmp s.lower s.upper };
}

impl<T: Ord + Drop> Span<T> {
    /// Returns the span from `lower` up to `upper`, or `None` if no cut lies there: if `lower` is not less than
    /// `upper`.
    ///
    /// # Memory
    ///
    /// Does not allocate.
    ///
    /// # Examples
    ///
    /// From `Before(3)` up to `After(3)` there is a span, which contains 3. There is none from `After(3)` up to
    /// `Before(3)`, and none from a cut up to itself.
    pub fn new(lower: Cut<T>, upper: Cut<T>) -> Option<Span<T>>
        ensures cut { IsSome result ↔ HoldsCut T.cmp (span_between lower upper) }
        ensures ends { IfSome result (λ span. span ≡ span_between lower upper) }
    {
        if lower < upper {
            Some(Span { lower, upper })
        } else {
            None
        }
    }
}

impl<T: Ord> Span<T> {
    /// Returns the span from `lower` up to `upper` without comparing the two. The caller has to prove that `lower` is
    /// less than `upper`; [`Span::new`] compares them instead.
    ///
    /// # Memory
    ///
    /// Does not allocate.
    ///
    /// # Examples
    ///
    /// From `Before(3)` up to `After(3)`, it returns the span that [`Span::new`] returns.
    // `inline(always)`: nothing is computed, so a call would cost more than the body.
    #[inline(always)]
    pub fn between(lower: Cut<T>, upper: Cut<T>) -> Span<T>
        requires { IsCutBelow T.cmp lower upper }
        ensures { result ≡ span_between lower upper }
    {
        Span { lower, upper }
    }

    /// Returns the lower end, which is the least cut in the span: `Before(3)` for `Before(3)` up to `After(5)`.
    ///
    /// # Memory
    ///
    /// Does not allocate.
    pub fn lower(&self) -> &Cut<T>
        ensures { result.now ≡ self.now.lower }
    {
        &self.lower
    }

    /// Returns the upper end, which is the cut where the span ends and is not in it: `After(5)` for `Before(3)` up to
    /// `After(5)`.
    ///
    /// # Memory
    ///
    /// Does not allocate.
    pub fn upper(&self) -> &Cut<T>
        ensures { result.now ≡ self.now.upper }
    {
        &self.upper
    }

    /// Returns both ends, the lower one first. The contract adds that the lower end is less than the upper one.
    ///
    /// # Memory
    ///
    /// Does not allocate.
    #[inline]
    pub fn ends(&self) -> (&Cut<T>, &Cut<T>)
        ensures ends { self.now ≡ span_between result.0.now result.1.now }
        ensures rising { IsCutBelow T.cmp result.0.now result.1.now }
    {
        let Span { lower, upper } = self;
        (lower, upper)
    }

    // Moves the lower end out of the span, and puts `Start` in its place.
    pub(crate) fn take_lower(&mut self) -> Cut<T>
        ensures taken { result ≡ self.old.lower }
        ensures left { self.new ≡ span_between Start self.old.upper }
    {
        mem::replace(&mut self.lower, Cut::Start)
    }

    // Moves the upper end out of the span, and puts `End` in its place.
    pub(crate) fn take_upper(&mut self) -> Cut<T>
        ensures taken { result ≡ self.old.upper }
        ensures left { self.new ≡ span_between self.old.lower End }
    {
        mem::replace(&mut self.upper, Cut::End)
    }

    /// Returns `true` if the value lies in the span: if the cut before the value does.
    ///
    /// `s.contains(&v)` is true exactly if `s.lower() <= &Cut::Before(v)` and `&Cut::Before(v) < s.upper()`.
    ///
    /// # Memory
    ///
    /// Does not allocate.
    ///
    /// # Examples
    ///
    /// `After(3)` up to `After(5)` contains 4 and 5, and does not contain 3.
    pub fn contains(&self, value: &T) -> bool
        ensures { IsTrue result ↔ IsInSpan T.cmp self.now (Before value.now) }
    {
        begins_before(&self.lower, value) && ends_after(&self.upper, value)
    }
}

// Returns `true` if the cut is less than the cut before the value, or equal to it.
#[inline]
fn begins_before<T: Ord>(cut: &Cut<T>, value: &T) -> bool
    ensures { IsTrue result ↔ IsCutAtMost T.cmp cut.now (Before value.now) }
{
    match cut {
        Cut::Start => true,
        Cut::Before(low) => *low <= *value,
        Cut::After(low) => *low < *value,
        Cut::End => false,
    }
}

// Returns `true` if the cut before the value is less than this cut.
#[inline]
fn ends_after<T: Ord>(cut: &Cut<T>, value: &T) -> bool
    ensures { IsTrue result ↔ IsCutBelow T.cmp (Before value.now) cut.now }
{
    match cut {
        Cut::Start => false,
        Cut::Before(high) => *value < *high,
        Cut::After(high) => *value <= *high,
        Cut::End => true,
    }
}
