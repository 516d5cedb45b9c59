//! The order of identifiers that borrow their text.
ghost use Rattle.std.specs.Prelude.{◌≡◌, ◌↔◌, Some, IfSome, IsTrue, refl};
ghost use Rattle.std.specs.Cmp.{eq_by_cmp_equiv, on_equiv, on_total, partial_equiv_from_equiv, po};
ghost use Rattle.std.specs.Ordering.{eq_by_cmp, on};
ghost use Rattle.semver_texts.specs.Comparison.{identifier_cmp};
ghost use Rattle.semver_texts.specs.IdentifierRef.{borrowed_value};
ghost use Rattle.semver_texts.specs.Order.{IdentifierOrderMeans};
ghost use Rattle.semver_texts.specs.Lemmas.Order.{identifier_total};

use crate::IdentifierRef;
use crate::identifier::borrowed::cmp_identifiers;
use std::cmp::Ordering;

/// Two identifiers are equal if they are the same number or the same text, as an [`Identifier`](crate::Identifier) is.
///
/// # Memory
///
/// Does not allocate.
impl<'a> PartialEq for IdentifierRef<'a> {
    ghost eq = { on borrowed_value (eq_by_cmp identifier_cmp) };

    ghost laws = { partial_equiv_from_equiv (on_equiv borrowed_value (eq_by_cmp_equiv identifier_total)) };

    #[inline]
    #[tactic(auto, using(crate::specs::Lemmas::Order::identifier_same))]
    fn eq(&self, other: &IdentifierRef<'a>) -> bool
        ensures answer { result ≡ eq_by_cmp identifier_cmp (borrowed_value self.now) (borrowed_value other.now) }
        ensures same { IsTrue result ↔ (borrowed_value self.now ≡ borrowed_value other.now) }
    {
        self.cmp(other).is_eq()
    }
}

impl<'a> Eq for IdentifierRef<'a> {
    ghost laws = { on_equiv borrowed_value (eq_by_cmp_equiv identifier_total) };
}

/// Returns the result of `cmp` in `Some`: any two identifiers can be compared.
impl<'a> PartialOrd for IdentifierRef<'a> {
    ghost partial_cmp = { λ a b. Some (on borrowed_value identifier_cmp a b) };

    ghost laws = { po (on_total borrowed_value identifier_total) (λ a b. refl) };

    #[inline]
    fn partial_cmp(&self, other: &IdentifierRef<'a>) -> Option<Ordering>
        ensures answer { result ≡ Some (identifier_cmp (borrowed_value self.now) (borrowed_value other.now)) }
        ensures order { IfSome result (IdentifierOrderMeans (borrowed_value self.now) (borrowed_value other.now)) }
    {
        Some(self.cmp(other))
    }
}

/// Ordered as an [`Identifier`](crate::Identifier) is: numbers by size, texts by their bytes, and a number is less than
/// every text.
///
/// # Memory
///
/// Does not allocate.
///
/// # Source
///
/// SemVer 2.0.0, section 11.4.
impl<'a> Ord for IdentifierRef<'a> {
    ghost cmp = { on borrowed_value identifier_cmp };

    ghost total = { on_total borrowed_value identifier_total };

    ghost matches_partial_cmp = { λ a b. refl };

    ghost matches_eq = { λ a b. refl };

    #[inline]
    fn cmp(&self, other: &IdentifierRef<'a>) -> Ordering
        ensures answer { result ≡ identifier_cmp (borrowed_value self.now) (borrowed_value other.now) }
        ensures order { IdentifierOrderMeans (borrowed_value self.now) (borrowed_value other.now) result }
    {
        cmp_identifiers(*self, *other)
    }
}
