//! The order of versions that borrow their text, and their order with a `Version`.
ghost use Rattle.std.specs.Prelude.{◌≡◌, ◌↔◌, Some, IfSome, IsTrue, refl};
ghost use Rattle.std.specs.Cmp.{eq_by_cmp_equiv, partial_equiv_from_equiv, po};
ghost use Rattle.std.specs.Ordering.{eq_by_cmp};
ghost use Rattle.semver_texts.specs.Order.{IsSame, OrderMeans};
ghost use Rattle.semver_versions.specs.BuildOrder.{BuildOrderMeans, version_build_cmp};
ghost use Rattle.semver_texts.specs.Comparison.{version_cmp};
ghost use Rattle.semver_texts.specs.Lemmas.Order.{version_total};

use crate::{Version, VersionRef};
use semver_texts::identifier::borrowed::{cmp_borrowed, cmp_lists_borrowed, cmp_with_borrowed};
use std::cmp::Ordering;

/// Equal as the `Version`s of the texts are: the build is ignored.
///
/// # Memory
///
/// Does not allocate.
impl<'a> PartialEq for VersionRef<'a> {
    ghost eq = { eq_by_cmp version_cmp };

    ghost laws = { partial_equiv_from_equiv (eq_by_cmp_equiv version_total) };

    #[inline]
    #[tactic(auto, using(semver_texts::specs::Lemmas::Order::version_same))]
    fn eq(&self, other: &VersionRef<'a>) -> bool
        ensures answer { result ≡ eq_by_cmp version_cmp self.now other.now }
        ensures same { IsTrue result ↔ IsSame self.now other.now }
    {
        self.cmp(other).is_eq()
    }
}

impl<'a> Eq for VersionRef<'a> {
    ghost laws = { eq_by_cmp_equiv version_total };
}

/// Returns the result of `cmp` in `Some`: any two versions can be compared.
impl<'a> PartialOrd for VersionRef<'a> {
    ghost partial_cmp = { λ v w. Some (version_cmp v w) };

    ghost laws = { po version_total (λ v w. refl) };

    #[inline]
    fn partial_cmp(&self, other: &VersionRef<'a>) -> Option<Ordering>
        ensures answer { result ≡ Some (version_cmp self.now other.now) }
        ensures order { IfSome result (OrderMeans self.now other.now) }
    {
        Some(self.cmp(other))
    }
}

/// Ordered as the `Version`s of the texts are.
///
/// # Memory
///
/// Does not allocate.
///
/// # Source
///
/// SemVer 2.0.0, section 11.
impl<'a> Ord for VersionRef<'a> {
    ghost cmp = { version_cmp };

    ghost total = { version_total };

    ghost matches_partial_cmp = { λ v w. refl };

    ghost matches_eq = { λ v w. refl };

    #[inline]
    #[tactic(auto, using(semver_texts::specs::Lemmas::Order::version_order))]
    fn cmp(&self, other: &VersionRef<'a>) -> Ordering
        ensures answer { result ≡ version_cmp self.now other.now }
        ensures order { OrderMeans self.now other.now result }
    {
        match self.triple().cmp(&other.triple()) {
            Ordering::Equal => cmp_borrowed(&self.pre_release, &other.pre_release),
            order => order,
        }
    }
}

impl<'a> VersionRef<'a> {
    /// Returns the order with builds: that of `cmp`, and for versions that `cmp` finds equal, that of their builds.
    ///
    /// It is the order that `compare_build` of the crate `npm_semver` returns for the `Version`s of the texts.
    ///
    /// # Memory
    ///
    /// Does not allocate.
    #[inline]
    #[tactic(auto, using(crate::specs::Lemmas::BuildOrder::version_build_order))]
    pub fn compare_build(&self, other: &VersionRef<'a>) -> Ordering
        ensures answer { result ≡ version_build_cmp self.now other.now }
        ensures order { BuildOrderMeans self.now other.now result }
    {
        match self.cmp(other) {
            Ordering::Equal => cmp_lists_borrowed(&self.build, &other.build),
            order => order,
        }
    }
}

impl Version {
    /// Returns the order of this version and one that borrows its text.
    ///
    /// # Memory
    ///
    /// Does not allocate.
    ///
    /// # Examples
    ///
    /// `Less` for `1.0.0-rc.1` and `1.0.0`.
    ///
    /// # Source
    ///
    /// SemVer 2.0.0, section 11.
    #[inline]
    #[tactic(auto, using(semver_texts::specs::Lemmas::Order::version_order))]
    pub fn cmp_ref(&self, other: &VersionRef<'_>) -> Ordering
        ensures answer { result ≡ version_cmp self.now other.now }
        ensures order { OrderMeans self.now other.now result }
    {
        match self.triple().cmp(&other.triple()) {
            Ordering::Equal => cmp_with_borrowed(&self.pre_release, &other.pre_release),
            order => order,
        }
    }
}
