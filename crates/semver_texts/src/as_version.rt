//! Versions as what ranges are asked about. `#[inline(always)]`: each function is one load, test or call in the search.
//!
//! All kinds of versions are searched alike: `==` needs one type on both sides, hence `cmp_ref`.
ghost use Rattle.std.specs.Prelude.{◌≡◌, ◌↔◌, IsTrue};
ghost use Rattle.semver_texts.specs.Comparison.{prerelease_cmp};
ghost use Rattle.semver_texts.specs.Triple.{triple_of};
ghost use Rattle.semver_texts.specs.Version.{IsPrerelease, VersionValue, release};

use crate::Triple;
use crate::end::EndVersion;
use std::cmp::Ordering;

/// A value that is seen as a version, so that ranges can be asked about it.
///
/// `Version`, `VersionRef` and the candidates of `least_beyond` have this trait. A `Triple` has it too, and is seen as its
/// release. A contract sees the value as a version value, `seen`. Values that are seen as the same version satisfy the
/// same ranges.
///
/// A type of your own that holds a version, such as a key of a registry with its text, can have the trait: `seen` is that
/// version, and each function calls the one of the version.
///
/// # Memory
///
/// No function allocates.
pub trait AsVersion {
    ghost seen: { Self → VersionValue };

    /// Returns `true` if the version has a prerelease.
    fn is_prerelease(&self) -> bool
        ensures { IsTrue result ↔ IsPrerelease (seen self.now) };

    /// Returns the major, minor and patch.
    fn triple(&self) -> Triple
        ensures { result ≡ triple_of (seen self.now) };

    /// Returns the order of what follows the triple in `end` and in the version, for an `end` with the same triple.
    fn cmp_extras(&self, end: &EndVersion) -> Ordering
        ensures { result ≡ prerelease_cmp end.now.pre_release (seen self.now).pre_release };
}

impl AsVersion for Triple {
    ghost seen = { λ triple. release triple.major triple.minor triple.patch };

    #[inline(always)]
    fn is_prerelease(&self) -> bool {
        false
    }

    #[inline(always)]
    fn triple(&self) -> Triple {
        *self
    }

    #[inline(always)]
    fn cmp_extras(&self, end: &EndVersion) -> Ordering {
        end.cmp_release()
    }
}
