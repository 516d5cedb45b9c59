//! A version that borrows its text.
//!
//! What the text is, is an invariant: else each clause would name the version.
ghost use Rattle.std.specs.Prelude.{◌≡◌, ◌↔◌, IsTrue};
ghost use Rattle.semver_texts.specs.Comparison.{prerelease_cmp};
ghost use Rattle.semver_texts.specs.Triple.{triple_of};
ghost use Rattle.semver_texts.specs.Version.{IsPrerelease};
ghost use Rattle.semver_texts.specs.VersionText.{IsVersionText};

mod copy;
mod display;
mod fault;
mod hash;
mod order;
pub(crate) mod read;

pub use fault::VersionFault;
use semver_texts::end::EndVersion;
use semver_texts::{Identifiers, Triple};
use std::cmp::Ordering;
use std::marker::Model;

/// A version that borrows the text that it was read from.
///
/// It has the same meaning as the [`Version`](crate::Version) of that text, and needs no memory.
///
/// # Source
///
/// SemVer 2.0.0, sections 2, 9 and 10.
// Not `Copy`: the toolchain refuses it beside a `Model` with a lifetime.
#[derive(Drop)]
pub struct VersionRef<'a> {
    text: &'a str,
    major: u64,
    minor: u64,
    patch: u64,
    pre_release: Identifiers<'a>,
    build: Identifiers<'a>,
}

impl<'a> Model for VersionRef<'a> {
    ghost use Rattle.semver_texts.specs.Version.{VersionValue};
    ghost use Rattle.semver_texts.specs.VersionText.{IsVersionText};

    ghost Value = { VersionValue };

    ghost view = { λ v. record {
      major = v.major;
      minor = v.minor;
      patch = v.patch;
      pre_release = v.pre_release;
      build = v.build;
    } };

    ghost invariant = { λ v. IsVersionText v.text.now (record {
      major = v.major;
      minor = v.minor;
      patch = v.patch;
      pre_release = v.pre_release;
      build = v.build;
    }) };
}

impl<'a> VersionRef<'a> {
    /// Returns the text that the version was read from, whole.
    ///
    /// `VersionRef::parse` reads it as this version again. It is not the print of the version: it can begin with `v` and
    /// blanks, numbers can have zeros in front, and the `-` before the prerelease can be left out.
    ///
    /// # Memory
    ///
    /// Does not allocate. The text is the one that was read, and no copy.
    ///
    /// # Examples
    ///
    /// `v 1.02.3beta` for a version that was read from that text. The version prints as `1.2.3-beta`.
    #[inline(always)]
    pub fn as_str(&self) -> &'a str
        ensures { IsVersionText result.now self.now }
    {
        self.text
    }

    /// Returns the major.
    // `inline(always)` here and below: a load.
    #[inline(always)]
    pub fn major(&self) -> u64
        ensures { result ≡ self.now.major }
    {
        self.major
    }

    /// Returns the minor.
    #[inline(always)]
    pub fn minor(&self) -> u64
        ensures { result ≡ self.now.minor }
    {
        self.minor
    }

    /// Returns the patch.
    #[inline(always)]
    pub fn patch(&self) -> u64
        ensures { result ≡ self.now.patch }
    {
        self.patch
    }

    #[inline(always)]
    pub(crate) fn triple(&self) -> Triple
        ensures { result ≡ triple_of self.now }
    {
        Triple::new(self.major, self.minor, self.patch)
    }

    /// Returns `true` if the version has prerelease identifiers. Every other version is a release.
    ///
    /// # Examples
    ///
    /// `true` for `1.2.3-rc.1`. `false` for `1.2.3` and `1.2.3+rc.1`.
    #[inline(always)]
    pub fn is_prerelease(&self) -> bool
        ensures { IsTrue result ↔ IsPrerelease self.now }
    {
        !self.pre_release.is_empty()
    }

    /// Returns the identifiers of the prerelease, from the first to the last.
    ///
    /// # Examples
    ///
    /// Those of `1.2.3-alpha.1+5` are the text `alpha` and the number 1.
    #[inline(always)]
    pub fn pre_release(&self) -> Identifiers<'a>
        ensures { result ≡ self.now.pre_release }
    {
        self.pre_release.copy()
    }

    /// Returns the identifiers of the build, from the first to the last.
    #[inline(always)]
    pub fn build(&self) -> Identifiers<'a>
        ensures { result ≡ self.now.build }
    {
        self.build.copy()
    }

    /// Returns the same version, which borrows the same text.
    #[inline(always)]
    pub fn copy(&self) -> VersionRef<'a>
        ensures { result ≡ self.now }
    {
        VersionRef {
            text: self.text,
            major: self.major,
            minor: self.minor,
            patch: self.patch,
            pre_release: self.pre_release.copy(),
            build: self.build.copy(),
        }
    }

    /// Returns the order of what follows the triple in `end` and in this version, for an `end` with the same triple.
    // `inline(always)`: a release, as most versions are, is compared without a call.
    #[inline(always)]
    pub fn cmp_extras(&self, end: &EndVersion) -> Ordering
        ensures { result ≡ prerelease_cmp end.now.pre_release self.now.pre_release }
    {
        if self.pre_release.is_empty() {
            return end.cmp_release();
        }
        end.cmp_borrowed(&self.pre_release)
    }
}
