//! Equality and order of ends: those of their versions.
ghost use Rattle.std.specs.Prelude.{◌≡◌, [], Some, refl};
ghost use Rattle.std.specs.Cmp.{eq_by_cmp_equiv, partial_equiv_from_equiv, po};
ghost use Rattle.std.specs.Ordering.{eq_by_cmp};
ghost use Rattle.semver_texts.specs.Comparison.{prerelease_cmp, version_cmp};
ghost use Rattle.semver_texts.specs.Identifier.{values_of};
ghost use Rattle.semver_texts.specs.Lemmas.Order.{version_total};

use crate::end::{EndVersion, Extras, Zero};
use crate::identifier::borrowed::cmp_with_borrowed;
use crate::identifier::order::cmp_prereleases;
use crate::{Identifier, Identifiers};
use std::cmp::Ordering;

impl PartialEq for EndVersion {
    ghost eq = { eq_by_cmp version_cmp };

    ghost laws = { partial_equiv_from_equiv (eq_by_cmp_equiv version_total) };

    #[inline]
    fn eq(&self, other: &EndVersion) -> bool {
        self.cmp(other).is_eq()
    }
}

impl Eq for EndVersion {
    ghost laws = { eq_by_cmp_equiv version_total };
}

impl PartialOrd for EndVersion {
    ghost partial_cmp = { λ v w. Some (version_cmp v w) };

    ghost laws = { po version_total (λ v w. refl) };

    #[inline]
    fn partial_cmp(&self, other: &EndVersion) -> Option<Ordering> {
        Some(self.cmp(other))
    }
}

impl Ord for EndVersion {
    ghost cmp = { version_cmp };

    ghost total = { version_total };

    ghost matches_partial_cmp = { λ v w. refl };

    ghost matches_eq = { λ v w. refl };

    #[inline]
    fn cmp(&self, other: &EndVersion) -> Ordering {
        match self.triple().cmp(&other.triple()) {
            Ordering::Equal => self.cmp_extras(other),
            order => order,
        }
    }
}

impl EndVersion {
    // The order of two ends with the same triple. `inline(always)`: most ends have no lists, and those are compared
    // without a call.
    #[inline(always)]
    fn cmp_extras(&self, other: &EndVersion) -> Ordering
        ensures { result ≡ prerelease_cmp self.now.pre_release other.now.pre_release }
    {
        match (&self.extras, &other.extras) {
            (Extras::Nothing, Extras::Nothing) | (Extras::Zero, Extras::Zero) => Ordering::Equal,
            (Extras::Nothing, Extras::Zero) => Ordering::Greater,
            (Extras::Zero, Extras::Nothing) => Ordering::Less,
            _ => self.cmp_lists(other),
        }
    }

    // The order of two ends with the same triple, if one of the two has lists. `inline(never)`: few ends have.
    #[inline(never)]
    fn cmp_lists(&self, other: &EndVersion) -> Ordering
        ensures { result ≡ prerelease_cmp self.now.pre_release other.now.pre_release }
    {
        let zero = Zero::new();
        cmp_prereleases(
            self.pre_release().as_slice(&zero),
            other.pre_release().as_slice(&zero),
        )
    }

    /// Returns the order of this end and the release of its triple. `Less` if the end is a prerelease, and else
    /// `Equal`.
    // `inline(always)`: one test.
    #[inline(always)]
    pub fn cmp_release(&self) -> Ordering
        ensures { result ≡ prerelease_cmp self.now.pre_release [] }
    {
        if self.is_prerelease() {
            Ordering::Less
        } else {
            Ordering::Equal
        }
    }

    /// Returns the order of this end and the version of its triple that has this prerelease.
    // `inline(never)`: few comparisons reach the prereleases.
    #[inline(never)]
    pub fn cmp_pre_release(&self, identifiers: &[Identifier]) -> Ordering
        ensures { result ≡ prerelease_cmp self.now.pre_release (values_of identifiers.now) }
    {
        let zero = Zero::new();
        cmp_prereleases(self.pre_release().as_slice(&zero), identifiers)
    }

    /// Returns the order of this end and the version of its triple that has this prerelease, which borrows its text.
    // `inline(never)`: as above.
    #[inline(never)]
    pub fn cmp_borrowed(&self, identifiers: &Identifiers<'_>) -> Ordering
        ensures { result ≡ prerelease_cmp self.now.pre_release identifiers.now }
    {
        let zero = Zero::new();
        cmp_with_borrowed(self.pre_release().as_slice(&zero), identifiers)
    }
}
