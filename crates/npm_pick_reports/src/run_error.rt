//! Why the program stopped.
ghost use Rattle.std.specs.Prelude.{◌≡◌};
ghost use Rattle.npm_pick_reports.specs.declared.run_error.RunError.TheVariants.{Memory};

use crate::load_error::LoadError;
use npm_packages::Fault;
use std::alloc::AllocError;
use thiserror::Error;

/// Why the program stopped.
#[derive(Debug, PartialEq, Eq, Drop, Error)]
pub enum RunError {
    /// A write failed.
    #[error("write failed")]
    Write,
    /// An allocation failed.
    #[error("out of memory")]
    Memory,
    /// The lock file has a fault.
    #[error("the lock file is not read: {0}")]
    NoLock(Fault),
    /// The document of a package was not read.
    #[error("{0}")]
    Load(LoadError),
}

impl From<AllocError> for RunError {
    ghost from_gives = { λ _ error. error ≡ Memory };

    fn from(_error: AllocError) -> RunError {
        RunError::Memory
    }
}
