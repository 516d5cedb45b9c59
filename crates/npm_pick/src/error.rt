//! Why no version is picked.
ghost use Rattle.std.specs.Prelude.{◌≡◌};
ghost use Rattle.npm_pick.specs.declared.error.PickError.TheVariants as Errors;

use std::alloc::AllocError;
use thiserror::Error;

/// Why no version is picked.
#[derive(Clone, Copy, Debug, PartialEq, Eq, Drop, Error)]
pub enum PickError {
    /// The text is no version, no range and no tag. npm: `EINVALIDTAGNAME`.
    #[error("the text is no version, no range and no tag")]
    Wanted,
    /// The document has no such tag. npm: `ETARGET`.
    #[error("there is no such tag")]
    NoTag,
    /// The document does not have this version, or it was published after `before`. npm: `ETARGET`.
    #[error("there is no such version")]
    NoVersion,
    /// The document has no versions, or all were published after `before`. npm: `ENOVERSIONS`.
    #[error("there are no versions")]
    NoVersions,
    /// None of the versions is in the range. npm: `ETARGET`.
    #[error("there is no version in the range")]
    NoneInRange,
    /// A policy of the registry forbids the version that would be picked. npm: `E403`.
    #[error("a policy forbids the version")]
    Forbidden,
    /// With `avoid_strict`: each version that could be picked is one to avoid. npm: `ETARGET`.
    #[error("there are only versions to avoid")]
    Avoided,
    /// An allocation failed.
    #[error("out of memory")]
    Memory,
}

impl From<AllocError> for PickError {
    ghost from_gives = { λ _ error. error ≡ Errors.Memory };

    fn from(_error: AllocError) -> PickError {
        PickError::Memory
    }
}
