//! Copies of ends, and ends with copies of lists.
ghost use Rattle.std.specs.Prelude.{◌≡◌, IfOk};
ghost use Rattle.semver_texts.specs.Identifier.{values_of};

use crate::Identifier;
use crate::end::{EndVersion, Extras};
use crate::identifier::copy::copies_of;
use std::alloc::{AllocError, Global};

impl EndVersion {
    // A copy. Allocates only for lists.
    #[inline]
    pub fn copy(&self) -> Result<EndVersion, AllocError>
        ensures { IfOk result (λ copy. copy ≡ self.now) }
    {
        match &self.extras {
            Extras::Nothing => Ok(EndVersion::release(self.major, self.minor, self.patch)),
            Extras::Zero => Ok(EndVersion::least(self.major, self.minor, self.patch)),
            Extras::Lists(lists) => EndVersion::with_list_copies(
                *lists.build.allocator(),
                (self.major, self.minor, self.patch),
                &lists.pre_release,
                &lists.build,
            ),
        }
    }

    /// Returns the version with this triple and copies of these lists.
    ///
    /// # Errors
    ///
    /// Fails with `AllocError` if an allocation fails.
    ///
    /// # Memory
    ///
    /// Allocates the lists. With no build, and no prerelease or the prerelease `0`, it does not allocate.
    #[inline]
    pub fn with_copies(
        alloc: Global,
        triple: (u64, u64, u64),
        pre_release: &[Identifier],
        build: &[Identifier],
    ) -> Result<EndVersion, AllocError>
        ensures { IfOk result (λ e. e ≡ record {
          major = triple.0;
          minor = triple.1;
          patch = triple.2;
          pre_release = values_of pre_release.now;
          build = values_of build.now;
        }) }
    {
        match (pre_release, build) {
            ([], []) => Ok(EndVersion::release(triple.0, triple.1, triple.2)),
            ([Identifier::Numeric(0)], []) => {
                Ok(EndVersion::least(triple.0, triple.1, triple.2))
            }
            _ => EndVersion::with_list_copies(alloc, triple, pre_release, build),
        }
    }

    // The version with this triple and copies of these lists, which are usually not both empty. `inline(always)`: part
    // of the two functions above.
    #[inline(always)]
    fn with_list_copies(
        alloc: Global,
        triple: (u64, u64, u64),
        pre_release: &[Identifier],
        build: &[Identifier],
    ) -> Result<EndVersion, AllocError>
        ensures { IfOk result (λ e. e ≡ record {
          major = triple.0;
          minor = triple.1;
          patch = triple.2;
          pre_release = values_of pre_release.now;
          build = values_of build.now;
        }) }
    {
        let pre_release = copies_of(alloc, pre_release)?;
        let build = copies_of(alloc, build)?;
        EndVersion::with_extras(alloc, triple, pre_release, build)
    }
}
