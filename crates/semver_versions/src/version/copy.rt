//! Copies of versions.

ghost use Rattle.std.specs.Prelude.{◌≡◌, [], IfOk, IsOk, MatchResult};
ghost use Rattle.semver_texts.specs.Version.{IsPlain};

use crate::Version;
use semver_texts::identifier::copy::copies_of;
use std::alloc::AllocError;

/// Returns a copy of all five fields, including the build.
///
/// # Errors
///
/// Returns `AllocError` if an allocation fails.
///
/// # Memory
///
/// Allocates a list for the prerelease and one for the build, and the texts of their identifiers. Does not allocate for
/// a version with neither.
impl Clone for Version {
    ghost is_clone = { λ v copy. copy ≡ v };

    ghost is_infallible = { IsPlain };

    #[inline]
    fn clone(&self) -> Result<Version, AllocError>
        ensures cases { MatchResult result (λ copy. copy ≡ self.now) (λ _. ¬ IsPlain self.now) }
        ensures copy { IfOk result (λ copy. copy ≡ self.now) }
        ensures plain { IsPlain self.now → IsOk result }
    {
        let build = copies_of(*self.build.allocator(), &self.build)?;
        let pre_release = copies_of(*self.pre_release.allocator(), &self.pre_release)?;
        Ok(Version {
            major: self.major,
            minor: self.minor,
            patch: self.patch,
            build,
            pre_release,
        })
    }
}
