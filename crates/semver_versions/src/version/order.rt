//! The order of versions.
//!
//! See docs/DECISIONS.md, "The order of versions is defined twice".

ghost use Rattle.std.specs.Prelude.{◌≡◌, ◌↔◌, Some, IfSome, IsTrue, refl};
ghost use Rattle.std.specs.Cmp.{eq_by_cmp_equiv, partial_equiv_from_equiv, po};
ghost use Rattle.std.specs.Ordering.{eq_by_cmp};
ghost use Rattle.semver_texts.specs.Order.{IsSame, OrderMeans};
ghost use Rattle.semver_texts.specs.Comparison.{version_cmp};
ghost use Rattle.semver_texts.specs.Lemmas.Order.{version_total};

use crate::Version;
use semver_texts::identifier::order::cmp_prereleases;
use std::cmp::Ordering;

/// Two versions are equal if their three numbers and their prereleases are equal: `v == w` is true exactly if
/// `v.cmp(w)` is `Equal`.
///
/// The build is ignored, so equal versions can print differently.
///
/// # Memory
///
/// Does not allocate.
///
/// # Examples
///
/// `1.0.0-rc.1+7` equals `1.0.0-rc.1`, and does not equal `1.0.0-rc.2+7`.
///
/// # Source
///
/// SemVer 2.0.0, section 10.
impl PartialEq for Version {
    ghost eq = { eq_by_cmp version_cmp };

    ghost laws = { partial_equiv_from_equiv (eq_by_cmp_equiv version_total) };

    #[inline]
    #[tactic(auto, using(semver_texts::specs::Lemmas::Order::version_same))]
    fn eq(&self, other: &Version) -> bool
        ensures answer { result ≡ eq_by_cmp version_cmp self.now other.now }
        ensures same { IsTrue result ↔ IsSame self.now other.now }
    {
        self.cmp(other).is_eq()
    }
}

impl Eq for Version {
    ghost laws = { eq_by_cmp_equiv version_total };
}

/// Returns the result of `cmp` in `Some`: any two versions can be compared.
impl PartialOrd for Version {
    ghost partial_cmp = { λ v w. Some (version_cmp v w) };

    ghost laws = { po version_total (λ v w. refl) };

    #[inline]
    fn partial_cmp(&self, other: &Version) -> Option<Ordering>
        ensures answer { result ≡ Some (version_cmp self.now other.now) }
        ensures order { IfSome result (OrderMeans self.now other.now) }
    {
        Some(self.cmp(other))
    }
}

/// Returns the order of precedence, a total order: by major, minor and patch, and then by the prerelease.
///
/// If the three numbers are equal, a release is greater than each prerelease. Two prereleases are compared identifier
/// by identifier from the left: numbers by size, texts by bytes, and a number is less than every text. If one list is
/// the beginning of the other, the shorter one is less. The build is ignored.
///
/// # Memory
///
/// Does not allocate.
///
/// # Examples
///
/// `1.0.0-alpha` is less than `1.0.0-alpha.1`, which is less than `1.0.0-beta`, which is less than `1.0.0`. `1.0.0+7`
/// is not greater than `1.0.0`.
///
/// # Source
///
/// SemVer 2.0.0, section 11.
impl Ord for Version {
    ghost cmp = { version_cmp };

    ghost total = { version_total };

    ghost matches_partial_cmp = { λ v w. refl };

    ghost matches_eq = { λ v w. refl };

    // `inline(always)`: mostly the three numbers decide.
    #[inline(always)]
    #[tactic(auto, using(semver_texts::specs::Lemmas::Order::version_order))]
    fn cmp(&self, other: &Version) -> Ordering
        ensures answer { result ≡ version_cmp self.now other.now }
        ensures order { OrderMeans self.now other.now result }
    {
        match self.triple().cmp(&other.triple()) {
            Ordering::Equal => cmp_prereleases(&self.pre_release, &other.pre_release),
            order => order,
        }
    }
}
