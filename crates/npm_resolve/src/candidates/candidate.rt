//! A version that can be chosen, and its place among others.
ghost use Rattle.std.specs.Prelude.{◌≡◌, Some, refl};
ghost use Rattle.std.specs.Cmp.{eq_by_cmp_equiv, partial_equiv_from_equiv, po};
ghost use Rattle.std.specs.Ordering.{eq_by_cmp};
ghost use Rattle.npm_resolve.specs.Preference as Preferences;
ghost use Rattle.npm_resolve.specs.Preference.{candidate_order, lowest_order, sound_first};
ghost use Rattle.npm_resolve.specs.Private.Orders.{candidate_total};

use node_semver::{OrderedVersion, VersionRef};
use serde_json::Value;
use std::cmp::Ordering;

/// A version of a document.
///
/// Of two candidates the lesser one is preferred, unless the lowest version is.
#[derive(Drop)]
pub struct Candidate<'v> {
    pub key: &'v str,
    pub manifest: &'v Value,
    pub version: VersionRef<'v>,
    /// The default tag names it, it is not deprecated, and it fits the version of Node.
    pub is_default: bool,
    pub is_deprecated: bool,
    /// The version of Node fits its `engines`.
    pub fits: bool,
}

impl<'v> Candidate<'v> {
    /// Compares two candidates where the lowest version is preferred. The one that is preferred is the lesser one.
    pub(crate) fn cmp_lowest(&self, other: &Candidate<'v>) -> Ordering
        ensures { result ≡ lowest_order self.now other.now }
    {
        other.cmp_sound(self, self.version.cmp_version(&other.version))
    }

    /// Compares two candidates by whether they are deprecated and fit, and then as is said. The one that is preferred is the greater one.
    fn cmp_sound(&self, other: &Candidate<'v>, alike: Ordering) -> Ordering
        ensures { result ≡ sound_first (λ a b. alike) self.now other.now }
    {
        let lasting = (!self.is_deprecated).cmp(&!other.is_deprecated);
        let fits = self.fits.cmp(&other.fits);
        let sound = self.is_sound().cmp(&other.is_sound());
        sound.then(fits.then(lasting.then(alike)))
    }

    fn is_sound(&self) -> bool
        ensures { result ≡ Preferences.is_sound self.now }
    {
        !self.is_deprecated && self.fits
    }
}

impl<'v> PartialEq for Candidate<'v> {
    ghost eq = { eq_by_cmp candidate_order };

    ghost laws = { partial_equiv_from_equiv (eq_by_cmp_equiv candidate_total) };

    fn eq(&self, other: &Candidate<'v>) -> bool
        ensures { result ≡ eq_by_cmp candidate_order self.now other.now }
    {
        self.cmp(other).is_eq()
    }
}

impl<'v> Eq for Candidate<'v> {
    ghost laws = { eq_by_cmp_equiv candidate_total };
}

impl<'v> PartialOrd for Candidate<'v> {
    ghost partial_cmp = { λ a b. Some (candidate_order a b) };

    ghost laws = { po candidate_total (λ a b. refl) };

    fn partial_cmp(&self, other: &Candidate<'v>) -> Option<Ordering>
        ensures { result ≡ Some (candidate_order self.now other.now) }
    {
        Some(self.cmp(other))
    }
}

impl<'v> Ord for Candidate<'v> {
    ghost cmp = { candidate_order };

    ghost total = { candidate_total };

    ghost matches_partial_cmp = { λ a b. refl };

    ghost matches_eq = { λ a b. refl };

    fn cmp(&self, other: &Candidate<'v>) -> Ordering
        ensures { result ≡ candidate_order self.now other.now }
    {
        let version = other.version.cmp_version(&self.version);
        let default = other.is_default.cmp(&self.is_default);
        default.then(other.cmp_sound(self, version))
    }
}
