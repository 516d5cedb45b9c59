//! The two types of versions as what ranges are asked about, and what can be compared with others of its type.
//! `#[inline(always)]`: each function is one load, test or call in the search.
//!
//! All kinds of versions are searched alike: `==` needs one type on both sides, hence `cmp_ref`.
ghost use Rattle.std.specs.Prelude.{◌≡◌};
ghost use Rattle.semver_texts.specs.Comparison.{version_cmp};

use crate::{Version, VersionRef};
use semver_texts::end::EndVersion;
use semver_texts::{AsVersion, Triple};
use std::cmp::Ordering;

/// A version that can be compared with others of its type by precedence.
///
/// `max_satisfying` and `min_satisfying` take any type with this trait. The order is that of the versions that the values
/// are seen as.
///
/// # Memory
///
/// Does not allocate.
pub trait OrderedVersion: AsVersion {
    /// Returns the order of precedence of the two versions. The build is ignored.
    fn cmp_version(&self, other: &Self) -> Ordering
        ensures { result ≡ version_cmp (Self.seen self.now) (Self.seen other.now) };
}

impl AsVersion for Version {
    ghost seen = { λ version. version };

    #[inline(always)]
    fn is_prerelease(&self) -> bool {
        !self.pre_release.is_empty()
    }

    #[inline(always)]
    fn triple(&self) -> Triple {
        Version::triple(self)
    }

    #[inline(always)]
    fn cmp_extras(&self, end: &EndVersion) -> Ordering {
        if self.pre_release.is_empty() {
            return end.cmp_release();
        }
        end.cmp_pre_release(&self.pre_release)
    }
}

impl<'a> AsVersion for VersionRef<'a> {
    ghost seen = { λ version. version };

    #[inline(always)]
    fn is_prerelease(&self) -> bool {
        VersionRef::is_prerelease(self)
    }

    #[inline(always)]
    fn triple(&self) -> Triple {
        VersionRef::triple(self)
    }

    #[inline(always)]
    fn cmp_extras(&self, end: &EndVersion) -> Ordering {
        VersionRef::cmp_extras(self, end)
    }
}

impl<'a> OrderedVersion for VersionRef<'a> {
    #[inline(always)]
    fn cmp_version(&self, other: &VersionRef<'a>) -> Ordering {
        self.cmp(other)
    }
}

impl OrderedVersion for Version {
    #[inline(always)]
    fn cmp_version(&self, other: &Version) -> Ordering {
        self.cmp(other)
    }
}
