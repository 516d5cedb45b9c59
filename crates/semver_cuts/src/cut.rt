//! Cuts and their order.
//!
//! `#[inline]`: a comparison of two cuts is in the inner loop of each search and each walk along spans.
ghost use Rattle.std.specs.Cmp.{partial_equiv_from_equiv, eq_by_cmp_equiv, partial_order_from_total};
ghost use Rattle.std.specs.Ordering.{eq_by_cmp, as_partial_cmp};
ghost use Rattle.std.proofs.Common.{refl};
ghost use Rattle.semver_cuts.specs.Cut.{cut_cmp};
ghost use Rattle.semver_cuts.specs.Lemmas.CutOrder.{cut_total};

use std::cmp::Ordering;

/// A place in the line of the values of `T`: before all of them, just before one, just after one, or after all of them.
///
/// Cuts are ordered by their places: for values `v` less than `w`, `Start`, `Before(v)`, `After(v)`, `Before(w)`,
/// `After(w)`, `End`. Two cuts are equal if they are of one kind and `T`'s `cmp` returns `Equal` for their values, even
/// if something else distinguishes the values.
///
/// # Examples
///
/// `Cut::Before(3) < Cut::After(3)` and `Cut::After(3) < Cut::Before(5)` are true. `Cut::After(3) < Cut::Before(3)` is
/// false.
#[derive(Debug, Drop)]
pub enum Cut<T: Ord> {
    /// Before every value: less than every other cut.
    Start,
    /// Just before the value: `Before(3)` is greater than `After(2)` and less than `After(3)`.
    Before(T),
    /// Just after the value: `After(3)` is greater than `Before(3)` and less than `Before(4)`.
    After(T),
    /// After every value: greater than every other cut.
    End,
}

impl<T: Ord> PartialEq for Cut<T> {
    ghost eq = { eq_by_cmp (cut_cmp T.cmp) };

    ghost laws = { partial_equiv_from_equiv (eq_by_cmp_equiv (cut_total T.total)) };

    #[inline]
    fn eq(&self, other: &Cut<T>) -> bool {
        self.cmp(other).is_eq()
    }
}

impl<T: Ord> Eq for Cut<T> {
    ghost laws = { eq_by_cmp_equiv (cut_total T.total) };
}

impl<T: Ord> PartialOrd for Cut<T> {
    ghost partial_cmp = { as_partial_cmp (cut_cmp T.cmp) };

    ghost laws = { partial_order_from_total (cut_total T.total) };

    #[inline]
    fn partial_cmp(&self, other: &Cut<T>) -> Option<Ordering> {
        Some(self.cmp(other))
    }
}

impl<T: Ord> Ord for Cut<T> {
    ghost cmp = { cut_cmp T.cmp };

    ghost total = { cut_total T.total };

    ghost matches_partial_cmp = { λ c d. refl };

    ghost matches_eq = { λ c d. refl };

    #[inline]
    fn cmp(&self, other: &Cut<T>) -> Ordering {
        match (self, other) {
            (Cut::Before(v), Cut::Before(w)) | (Cut::After(v), Cut::After(w)) => v.cmp(w),
            (Cut::Before(v), Cut::After(w)) => v.cmp(w).then(Ordering::Less),
            (Cut::After(v), Cut::Before(w)) => v.cmp(w).then(Ordering::Greater),
            (Cut::Start, Cut::Start) | (Cut::End, Cut::End) => Ordering::Equal,
            (Cut::Start, _) | (_, Cut::End) => Ordering::Less,
            (_, Cut::Start) | (Cut::End, _) => Ordering::Greater,
        }
    }
}

mod hash;
