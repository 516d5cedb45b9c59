//! Copies of a version that borrows its text: with lists of its own, and one that borrows the same text.
ghost use Rattle.std.specs.Prelude.{◌≡◌, ⊤, IfOk, IsOk};
ghost use Rattle.semver_texts.specs.Version.{IsPlain};

use crate::{Version, VersionRef};
use semver_texts::identifier::copy::to_vec_inline;
use std::alloc::{AllocError, Global};

/// Returns the same version, which borrows the same text, as `copy` does. Always returns `Ok`.
impl<'a> Clone for VersionRef<'a> {
    ghost is_clone = { λ v copy. copy ≡ v };

    ghost is_infallible = { λ v. ⊤ };

    #[inline]
    fn clone(&self) -> Result<VersionRef<'a>, AllocError> {
        Ok(self.copy())
    }
}

impl<'a> VersionRef<'a> {
    /// Returns the same version with lists of its own, which borrows nothing.
    ///
    /// # Errors
    ///
    /// Returns `AllocError` if an allocation fails.
    ///
    /// # Memory
    ///
    /// Does not allocate for a version without prerelease and build. Otherwise allocates lists of identifiers, and the
    /// text of each identifier that is no number.
    ///
    /// # Examples
    ///
    /// That of `v1.2.3` is `Version::new(alloc, 1, 2, 3)`.
    // `inline(always)`: so `Version::parse` has the copy in its place, whoever else copies.
    #[inline(always)]
    pub fn to_version(&self, alloc: Global) -> Result<Version, AllocError>
        ensures copy { IfOk result (λ v. v ≡ self.now) }
        ensures plain { IsPlain self.now → IsOk result }
    {
        // In place of two `?`: the lists then stay in registers, which saves 20 instructions.
        match (
            to_vec_inline(alloc, &self.pre_release),
            self.build.to_vec(alloc),
        ) {
            (Ok(pre_release), Ok(build)) => Ok(Version {
                major: self.major,
                minor: self.minor,
                patch: self.patch,
                build,
                pre_release,
            }),
            _ => Err(AllocError),
        }
    }
}
