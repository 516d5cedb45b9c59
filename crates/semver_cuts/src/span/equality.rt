//! Equality and hashing of spans.
//!
//! `#[inline]`: equality is two comparisons.

ghost use Rattle.std.specs.Prelude.{◌≡◌, ◌↔◌, IsTrue};
ghost use Rattle.std.proofs.Common.{◌∙◌};
ghost use Rattle.std.specs.Cmp.{partial_equiv_from_equiv};
ghost use Rattle.semver_cuts.specs.Ends.{AreSameEnds, are_same_ends};
ghost use Rattle.semver_cuts.specs.Hash.{span_writes};
ghost use Rattle.semver_cuts.specs.Lemmas.Ends.{are_same_ends-equiv};
ghost use Rattle.semver_cuts.specs.Lemmas.Hash.{span_alike};

use crate::Span;
use std::hash::{Hash, Hasher};

/// Two spans are equal if their lower ends are equal cuts and their upper ends are equal cuts.
///
/// Spans with other ends are not equal, even if they contain the same values: `Before(4)` to `End` and `After(3)` to
/// `End`, as spans of whole numbers, both contain 4 and all greater numbers.
///
/// # Memory
///
/// Does not allocate.
impl<T: Ord> PartialEq for Span<T> {
    ghost eq = { are_same_ends T.cmp };

    ghost laws = { partial_equiv_from_equiv (are_same_ends-equiv T.total) };

    #[inline]
    #[tactic(auto, using(crate::specs::Lemmas::Ends::span_same))]
    fn eq(&self, other: &Span<T>) -> bool
        ensures answer { result ≡ are_same_ends T.cmp self.now other.now }
        ensures same { IsTrue result ↔ AreSameEnds T.cmp self.now other.now }
    {
        self.lower == other.lower && self.upper == other.upper
    }
}

impl<T: Ord> Eq for Span<T> {
    ghost laws = { are_same_ends-equiv T.total };
}

/// Feeds the lower end to the hasher, and then the upper end. Equal spans feed it the same.
///
/// # Memory
///
/// Does not allocate.
impl<T: Ord + Hash> Hash for Span<T> {
    ghost hash_input = { span_writes T.hash_input };

    ghost respects_eq = { span_alike T.cmp (λ v w e. T.respects_eq v w (T.matches_eq v w ∙ e)) };

    fn hash<H: Hasher>(&self, state: &mut H) {
        self.lower.hash(state);
        self.upper.hash(state);
    }
}
