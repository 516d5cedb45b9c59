ghost use Rattle.std.specs.Prelude.{◌≡◌, ◌↔◌, IfOk, IsTrue};
ghost use Rattle.semver_texts.specs.Triple.{triple_of};
ghost use Rattle.semver_texts.specs.Version.{IsPrerelease, release, with_pre_release};

pub mod admits;
pub mod as_version;
mod copy;
pub mod display;
mod hash;
pub(crate) mod order;
mod parse;
mod stepped;

use semver_texts::{Identifier, Triple};
use std::alloc::{AllocError, Global};
use std::marker::Model;

/// A version: major, minor, patch, a prerelease and a build.
///
/// The fields are public and can hold any values. An identifier can hold any text; it is compared and printed as it is.
///
/// Equality, order and hash use the three numbers and the prerelease. The build is ignored.
///
/// # Source
///
/// SemVer 2.0.0, sections 2, 9 and 10.
#[derive(Debug, Drop)]
pub struct Version {
    pub major: u64,
    pub minor: u64,
    pub patch: u64,
    pub build: Vec<Identifier>,
    pub pre_release: Vec<Identifier>,
}

impl Model for Version {
    ghost use Rattle.semver_texts.specs.Version.{VersionValue};
    ghost use Rattle.semver_texts.specs.Identifier.{values_of};

    ghost Value = { VersionValue };

    ghost view = { λ v. record {
      major = v.major;
      minor = v.minor;
      patch = v.patch;
      pre_release = values_of v.pre_release.items;
      build = values_of v.build.items;
    } };
}

impl Version {
    /// Returns the release with these three numbers, without build.
    ///
    /// # Memory
    ///
    /// Does not allocate.
    ///
    /// # Examples
    ///
    /// `Version::new(alloc, 1, 2, 3)` is `1.2.3`.
    #[inline]
    pub fn new(alloc: Global, major: u64, minor: u64, patch: u64) -> Version
        ensures { result ≡ release major minor patch }
    {
        Version {
            major,
            minor,
            patch,
            build: Vec::new(alloc),
            pre_release: Vec::new(alloc),
        }
    }

    /// Returns the version with these three numbers and one numeric prerelease identifier, without build.
    ///
    /// # Errors
    ///
    /// Returns `AllocError` if the allocation fails.
    ///
    /// # Memory
    ///
    /// Allocates a list of one identifier.
    ///
    /// # Examples
    ///
    /// `Version::with_pre_release(alloc, 1, 2, 3, 4)` is `1.2.3-4`. With 0 as the identifier, it is the least version
    /// with these three numbers.
    ///
    /// # Source
    ///
    /// The Rust crate `node-semver` 2.2.0, `From<(u64, u64, u64, u64)>`.
    #[inline]
    pub fn with_pre_release(
        alloc: Global,
        major: u64,
        minor: u64,
        patch: u64,
        pre_release: u64,
    ) -> Result<Version, AllocError>
        ensures { IfOk result (λ v. v ≡ with_pre_release major minor patch pre_release) }
    {
        let mut identifiers = Vec::with_capacity(alloc, 1)?;
        identifiers.push(Identifier::Numeric(pre_release))?;
        Ok(Version {
            major,
            minor,
            patch,
            build: Vec::new(alloc),
            pre_release: identifiers,
        })
    }

    /// Returns the major, minor and patch. Does not allocate.
    // `inline(always)`: three loads.
    #[inline(always)]
    pub fn triple(&self) -> Triple
        ensures { result ≡ triple_of self.now }
    {
        Triple::new(self.major, self.minor, self.patch)
    }

    /// Returns `true` if the version has prerelease identifiers. Every other version is a release.
    ///
    /// # Memory
    ///
    /// Does not allocate.
    ///
    /// # Examples
    ///
    /// `true` for `1.2.3-rc.1`. `false` for `1.2.3`, and for `1.2.3+rc.1`, whose identifiers are those of the build.
    #[inline]
    pub fn is_prerelease(&self) -> bool
        ensures { IsTrue result ↔ IsPrerelease self.now }
    {
        !self.pre_release.is_empty()
    }
}
