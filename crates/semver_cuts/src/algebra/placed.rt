//! The spans of a list with their places, sorted by their lower ends.
ghost use Rattle.std.specs.Prelude.{◌≡◌, ◌∷◌, [], IfOk};
ghost use Rattle.std.proofs.Common.{refl};
ghost use Rattle.std.specs.Cmp.{eq_by_cmp_equiv, nat_cmp_total, on_total, partial_equiv_from_equiv};
ghost use Rattle.std.specs.Cmp.{partial_order_from_total, then_total};
ghost use Rattle.std.specs.Ordering.{as_partial_cmp, eq_by_cmp};
ghost use Rattle.semver_cuts.specs.Ends.{IsCutBelow, span_between};
ghost use Rattle.semver_cuts.specs.Lemmas.Placed.{placed_total};
ghost use Rattle.semver_cuts.specs.Private.Placed.{AreSorted, PlacedSpan, placed_cmp};

use crate::{Cut, Span};
use std::alloc::{AllocError, Global};
use std::cmp::Ordering;
use std::marker::Model;

// A span of a list, and its place there.
#[derive(Drop)]
pub(crate) struct Placed<'a, T: Ord> {
    span: &'a Span<T>,
    place: usize,
}

impl<'a, T: Ord> Model for Placed<'a, T> {
    ghost use Rattle.semver_cuts.specs.Private.Placed.{PlacedSpan};

    ghost Value = { PlacedSpan T };

    ghost view = { λ p. record { span = p.span.now; place = p.place } };
}

impl<'a, T: Ord> Placed<'a, T> {
    // Returns the two ends of the span.
    pub(crate) fn ends(&self) -> (&'a Cut<T>, &'a Cut<T>)
        ensures ends { self.now.span ≡ span_between result.0.now result.1.now }
        ensures rising { IsCutBelow T.cmp result.0.now result.1.now }
    {
        self.span.ends()
    }

    // Returns the place of the span in its list.
    pub(crate) fn place(&self) -> usize
        ensures { result ≡ self.now.place }
    {
        self.place
    }
}

impl<'a, T: Ord> PartialEq for Placed<'a, T> {
    ghost eq = { eq_by_cmp (placed_cmp T.cmp) };

    ghost laws = { partial_equiv_from_equiv (eq_by_cmp_equiv (placed_total T.total)) };

    fn eq(&self, other: &Placed<'a, T>) -> bool {
        self.cmp(other).is_eq()
    }
}

impl<'a, T: Ord> Eq for Placed<'a, T> {
    ghost laws = { eq_by_cmp_equiv (placed_total T.total) };
}

impl<'a, T: Ord> PartialOrd for Placed<'a, T> {
    ghost partial_cmp = { as_partial_cmp (placed_cmp T.cmp) };

    ghost laws = { partial_order_from_total (placed_total T.total) };

    fn partial_cmp(&self, other: &Placed<'a, T>) -> Option<Ordering> {
        Some(self.cmp(other))
    }
}

impl<'a, T: Ord> Ord for Placed<'a, T> {
    ghost cmp = { placed_cmp T.cmp };

    ghost total = { placed_total T.total };

    ghost matches_partial_cmp = { λ c d. refl };

    ghost matches_eq = { λ c d. refl };

    fn cmp(&self, other: &Placed<'a, T>) -> Ordering {
        self.span
            .lower()
            .cmp(other.span.lower())
            .then(self.place.cmp(&other.place))
    }
}

// Returns the spans sorted by their lower ends. Spans with equal lower ends stay in the order of the list.
pub(crate) fn in_order<'a, T: Ord>(
    alloc: Global,
    spans: &'a [Span<T>],
) -> Result<Vec<Placed<'a, T>>, AllocError>
    ensures { IfOk result (λ order. AreSorted T.cmp spans.now order.items) }
{
    let mut order = Vec::with_capacity(alloc, spans.len())?;
    for (place, span) in spans.iter().enumerate() {
        let _ends = span.ends();
        order.push(Placed { span, place })?;
    }
    order.sort_unstable();
    Ok(order)
}

// Two spans, in order. Does not allocate.
#[inline]
pub(crate) fn two_in_order<'a, T: Ord>(one: &'a Span<T>, other: &'a Span<T>) -> [Placed<'a, T>; 2]
    ensures { AreSorted T.cmp (one.now ∷ other.now ∷ []) result }
{
    let _one = one.ends();
    let _other = other.ends();
    let first = Placed {
        span: one,
        place: 0,
    };
    let second = Placed {
        span: other,
        place: 1,
    };
    if second < first {
        [second, first]
    } else {
        [first, second]
    }
}
