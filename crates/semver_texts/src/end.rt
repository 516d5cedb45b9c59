//! The ends of a range's sets. An end is a version, stored so that the usual ones (no prerelease and build, or the
//! prerelease `0` alone) need no allocation.
//!
//! Most ends and most ranges need no memory: one end of ten needs a box.
ghost use Rattle.std.specs.Prelude.{◌≡◌, ◌↔◌, IfOk, IsTrue};
ghost use Rattle.semver_texts.specs.Identifier.{values_of};
ghost use Rattle.semver_texts.specs.EndViews.{borrowed_seen};
ghost use Rattle.semver_texts.specs.Triple.{triple_of};
ghost use Rattle.semver_texts.specs.Version as Versions;
ghost use Rattle.semver_texts.specs.Version.{IsPrerelease};

mod borrowed;
mod copy;
mod hash;
mod order;

use crate::{Identifier, Triple};
pub use borrowed::{BorrowedIdentifiers, Zero};
use std::alloc::{AllocError, Global};
use std::marker::Model;

/// A version at an end of a set.
///
/// A contract sees the version itself. A version without prerelease and build, or with the prerelease `0` alone, is
/// stored without an allocation.
#[derive(Debug)]
pub struct EndVersion {
    pub major: u64,
    pub minor: u64,
    pub patch: u64,
    pub(crate) extras: Extras,
}

// `Drop` is written by hand so that dropping an `EndVersion` is one call in a caller's proof; the derived one adds a
// branch for each form of its extras. `inline(always)`: the code is then as fast as the derived one.
impl Drop for EndVersion {
    #[inline(always)]
    fn drop(self) {
        let EndVersion {
            major: _,
            minor: _,
            patch: _,
            extras: _,
        } = self;
    }
}

// What follows the triple.
#[derive(Debug, Drop)]
pub(crate) enum Extras {
    // no prerelease and no build: `1.2.3`
    Nothing,
    // the prerelease `0` alone and no build: `2.0.0-0`, the least version of its triple
    Zero,
    // any two lists: `1.2.3-rc.4+5`
    Lists(Box<Lists>),
}

// A prerelease and a build. Either can be empty.
#[derive(Debug, Drop)]
pub(crate) struct Lists {
    pub(crate) pre_release: Vec<Identifier>,
    pub(crate) build: Vec<Identifier>,
}

impl Model for EndVersion {
    ghost use Rattle.semver_texts.specs.Version.{VersionValue};
    ghost use Rattle.semver_texts.specs.EndViews.{build_seen, prerelease_seen};

    ghost Value = { VersionValue };

    ghost view = { λ e. record {
      major = e.major;
      minor = e.minor;
      patch = e.patch;
      pre_release = prerelease_seen e.extras;
      build = build_seen e.extras;
    } };
}

impl EndVersion {
    /// Returns the release with this triple: `1.2.3`. Does not allocate.
    // `inline(always)` here and below: a few stores, or one test of the extras.
    #[inline(always)]
    pub fn release(major: u64, minor: u64, patch: u64) -> EndVersion
        ensures { result ≡ Versions.release major minor patch }
    {
        EndVersion {
            major,
            minor,
            patch,
            extras: Extras::Nothing,
        }
    }

    /// Returns the least version with this triple: `1.2.3-0`. Does not allocate.
    #[inline(always)]
    pub fn least(major: u64, minor: u64, patch: u64) -> EndVersion
        ensures { result ≡ Versions.least_of major minor patch }
    {
        EndVersion {
            major,
            minor,
            patch,
            extras: Extras::Zero,
        }
    }

    // The version with these lists. Does not allocate a box if both are empty.
    pub fn with_extras(
        alloc: Global,
        triple: (u64, u64, u64),
        pre_release: Vec<Identifier>,
        build: Vec<Identifier>,
    ) -> Result<EndVersion, AllocError>
        ensures { IfOk result (λ e. e ≡ record {
          major = triple.0;
          minor = triple.1;
          patch = triple.2;
          pre_release = values_of pre_release.items;
          build = values_of build.items;
        }) }
    {
        if pre_release.is_empty() && build.is_empty() {
            return Ok(EndVersion::release(triple.0, triple.1, triple.2));
        }
        let lists = Box::new(alloc, Lists { pre_release, build })?;
        Ok(EndVersion {
            major: triple.0,
            minor: triple.1,
            patch: triple.2,
            extras: Extras::Lists(lists),
        })
    }

    /// Returns `true` if it has a prerelease.
    #[inline]
    pub fn is_prerelease(&self) -> bool
        ensures { IsTrue result ↔ IsPrerelease self.now }
    {
        match &self.extras {
            Extras::Nothing => false,
            Extras::Zero => true,
            Extras::Lists(lists) => !lists.pre_release.is_empty(),
        }
    }

    /// Returns `true` if it has neither prerelease nor build.
    #[inline(always)]
    pub fn has_no_extras(&self) -> bool
        ensures { IsTrue result → self.now ≡ Versions.release self.now.major self.now.minor self.now.patch }
    {
        match &self.extras {
            Extras::Nothing => true,
            Extras::Zero | Extras::Lists(_) => false,
        }
    }

    /// Returns `true` if it stores no lists: it is a release without build, or the least version of its triple.
    #[inline(always)]
    pub fn has_no_lists(&self) -> bool
        ensures { IsTrue result → IsPrerelease self.now
            → self.now ≡ Versions.least_of self.now.major self.now.minor self.now.patch }
    {
        match &self.extras {
            Extras::Nothing | Extras::Zero => true,
            Extras::Lists(_) => false,
        }
    }

    /// Returns the identifiers of the prerelease, without allocating.
    #[inline]
    pub fn pre_release(&self) -> BorrowedIdentifiers<'_>
        ensures { borrowed_seen result ≡ self.now.pre_release }
    {
        match &self.extras {
            Extras::Nothing => BorrowedIdentifiers::List(&[]),
            Extras::Zero => BorrowedIdentifiers::Zero,
            Extras::Lists(lists) => BorrowedIdentifiers::List(&lists.pre_release),
        }
    }

    /// Returns the identifiers of the build.
    #[inline]
    pub fn build(&self) -> &[Identifier]
        ensures { values_of result.now ≡ self.now.build }
    {
        match &self.extras {
            Extras::Nothing | Extras::Zero => &[],
            Extras::Lists(lists) => &lists.build,
        }
    }

    /// Returns the major, minor and patch.
    #[inline(always)]
    pub fn triple(&self) -> Triple
        ensures { result ≡ triple_of self.now }
    {
        Triple::new(self.major, self.minor, self.patch)
    }
}
