//! Why a call has no result: a text is refused, or memory is out.

ghost use Rattle.std.specs.Prelude.{◌≡◌};
ghost use Rattle.node_semver_callers.specs.declared.failure.Failure.TheVariants.{Memory, Refused};

use node_semver::SemverError;
use std::alloc::{AllocError, AllocFailed};
use thiserror::Error;

/// Why a call has no result.
#[derive(Debug, Drop, Error)]
pub enum Failure {
    /// Parsing a text failed. Holds the library's error, whose kind is `OutOfMemory` if an allocation failed.
    #[error("{0}")]
    Refused(SemverError),
    /// An allocation failed after parsing.
    #[error("out of memory")]
    Memory,
}

impl From<SemverError> for Failure {
    ghost from_gives = { λ error failure. failure ≡ Refused error };

    fn from(error: SemverError) -> Failure {
        Failure::Refused(error)
    }
}

impl From<AllocError> for Failure {
    ghost from_gives = { λ _ failure. failure ≡ Memory };

    fn from(_error: AllocError) -> Failure {
        Failure::Memory
    }
}

impl<T: Drop> From<AllocFailed<T>> for Failure {
    ghost from_gives = { λ _ failure. failure ≡ Memory };

    fn from(_error: AllocFailed<T>) -> Failure {
        Failure::Memory
    }
}
