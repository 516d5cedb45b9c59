//! What a version can satisfy.
ghost use Rattle.std.specs.Prelude.{◌↔◌, IsTrue};
ghost use Rattle.semver_texts.specs.Version.{VersionValue};

use crate::{Version, VersionRef};
use semver_texts::AsVersion;

/// A collection of versions that a version can satisfy, such as `node_semver::Range`.
///
/// A contract sees what it admits as a relation, `admits`.
pub trait Admits {
    ghost admits: { Self → VersionValue → Type 0 };

    /// Returns `true` if the version is admitted.
    fn admits_version<V: AsVersion>(&self, version: &V) -> bool
        ensures { IsTrue result ↔ admits self.now (V.seen version.now) };
}

impl Version {
    /// Returns `true` if the version satisfies the range.
    ///
    /// # Memory
    ///
    /// Does not allocate.
    ///
    /// # Examples
    ///
    /// `1.2.3+b` satisfies `=1.2.3+a`, because builds are ignored. `1.2.4` does not.
    // `inline(always)`: this call is that of the range.
    #[inline(always)]
    pub fn satisfies<R: Admits>(&self, range: &R) -> bool
        ensures { IsTrue result ↔ R.admits range.now self.now }
    {
        range.admits_version(self)
    }
}

impl<'a> VersionRef<'a> {
    /// Returns `true` if the version satisfies the range, as [`Version::satisfies`] does.
    ///
    /// # Memory
    ///
    /// Does not allocate.
    #[inline(always)]
    pub fn satisfies<R: Admits>(&self, range: &R) -> bool
        ensures { IsTrue result ↔ R.admits range.now self.now }
    {
        range.admits_version(self)
    }
}
