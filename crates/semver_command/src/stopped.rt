//! Why nothing more could be read or written.
ghost use Rattle.std.specs.Prelude.{◌≡◌};
ghost use Rattle.semver_command.specs.declared.stopped.Stopped.TheVariants.{Memory};

use std::alloc::AllocError;
use thiserror::Error;

/// Why nothing more could be read or written.
#[derive(Debug, Drop, Error)]
pub enum Stopped {
    /// Reading from standard input failed.
    #[error("read failed")]
    Read,
    /// A write failed.
    #[error("write failed")]
    Write,
    /// An allocation failed.
    #[error("out of memory")]
    Memory,
}

impl From<AllocError> for Stopped {
    ghost from_gives = { λ _ error. error ≡ Memory };

    fn from(_error: AllocError) -> Stopped {
        Stopped::Memory
    }
}
