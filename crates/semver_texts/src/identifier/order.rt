//! The order of identifiers.

ghost use Rattle.std.specs.Prelude.{◌≡◌, ◌↔◌, Some, IfSome, IsTrue, refl};
ghost use Rattle.std.specs.Cmp.Lexicographic.{slice_cmp};
ghost use Rattle.std.specs.Cmp.{eq_by_cmp_equiv, on_equiv, on_total, partial_equiv_from_equiv, po};
ghost use Rattle.std.specs.Ordering.{eq_by_cmp, on};
ghost use Rattle.semver_texts.specs.Identifier.{value_of, values_of};
ghost use Rattle.semver_texts.specs.Order.{IdentifierOrderMeans};
ghost use Rattle.semver_texts.specs.Comparison.{identifier_cmp, prerelease_cmp};
ghost use Rattle.semver_texts.specs.Lemmas.Order.{identifier_total};

use crate::Identifier;
use crate::identifier::borrowed::{by_reference, cmp_identifiers};
use std::cmp::Ordering;

/// Two identifiers are equal if they are the same number or the same text. `Numeric(1)` and the `AlphaNumeric` of `1`
/// are not equal.
///
/// # Memory
///
/// Does not allocate.
impl PartialEq for Identifier {
    ghost eq = { on value_of (eq_by_cmp identifier_cmp) };

    ghost laws = { partial_equiv_from_equiv (on_equiv value_of (eq_by_cmp_equiv identifier_total)) };

    #[inline]
    #[tactic(auto, using(crate::specs::Lemmas::Order::identifier_same))]
    fn eq(&self, other: &Identifier) -> bool
        ensures answer { result ≡ eq_by_cmp identifier_cmp (value_of self.now) (value_of other.now) }
        ensures same { IsTrue result ↔ (value_of self.now ≡ value_of other.now) }
    {
        self.cmp(other).is_eq()
    }
}

impl Eq for Identifier {
    ghost laws = { on_equiv value_of (eq_by_cmp_equiv identifier_total) };
}

/// Returns the result of `cmp` in `Some`: any two identifiers can be compared.
impl PartialOrd for Identifier {
    ghost partial_cmp = { λ a b. Some (on value_of identifier_cmp a b) };

    ghost laws = { po (on_total value_of identifier_total) (λ a b. refl) };

    #[inline]
    fn partial_cmp(&self, other: &Identifier) -> Option<Ordering>
        ensures answer { result ≡ Some (identifier_cmp (value_of self.now) (value_of other.now)) }
        ensures order { IfSome result (IdentifierOrderMeans (value_of self.now) (value_of other.now)) }
    {
        Some(self.cmp(other))
    }
}

/// Numbers are ordered by size and texts by their bytes. A number is less than every text.
///
/// # Memory
///
/// Does not allocate.
///
/// # Examples
///
/// `2` is less than `11`, `11` is less than `alpha`, and `Beta` is less than `alpha`.
///
/// # Source
///
/// SemVer 2.0.0, section 11.4.
impl Ord for Identifier {
    ghost cmp = { on value_of identifier_cmp };

    ghost total = { on_total value_of identifier_total };

    ghost matches_partial_cmp = { λ a b. refl };

    ghost matches_eq = { λ a b. refl };

    #[inline]
    fn cmp(&self, other: &Identifier) -> Ordering
        ensures answer { result ≡ identifier_cmp (value_of self.now) (value_of other.now) }
        ensures order { IdentifierOrderMeans (value_of self.now) (value_of other.now) result }
    {
        cmp_identifiers(by_reference(self), by_reference(other))
    }
}

/// Returns the order of two prereleases of one triple. An empty list means the release, which is greater than each of
/// its prereleases.
///
/// # Memory
///
/// Does not allocate.
///
/// # Source
///
/// SemVer 2.0.0, section 11.
// `inline(always)`: two tests.
#[inline(always)]
pub fn cmp_prereleases(a: &[Identifier], b: &[Identifier]) -> Ordering
    ensures { result ≡ prerelease_cmp (values_of a.now) (values_of b.now) }
{
    match (a.is_empty(), b.is_empty()) {
        (true, true) => Ordering::Equal,
        (true, false) => Ordering::Greater,
        (false, true) => Ordering::Less,
        (false, false) => cmp_lists(a, b),
    }
}

// The order of two lists of identifiers. An empty list is less than every other. `inline(never)`: few comparisons come to
// it, and `Version::cmp` stays so small that it is inlined where a list of versions is sorted.
#[inline(never)]
pub fn cmp_lists(a: &[Identifier], b: &[Identifier]) -> Ordering
    ensures { result ≡ slice_cmp identifier_cmp (values_of a.now) (values_of b.now) }
{
    a.cmp(b)
}
