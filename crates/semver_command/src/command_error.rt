//! Why the program did not do what it was asked for.
ghost use Rattle.std.specs.Prelude.{◌≡◌};
ghost use Rattle.semver_command.specs.declared.command_error.CommandError.TheVariants as Errors;
ghost use Rattle.semver_command.specs.declared.stopped.Stopped.TheVariants.{Memory};

use crate::stopped::Stopped;
use std::alloc::AllocError;
use thiserror::Error;

/// Why the program did not do what it was asked for.
#[derive(Debug, Drop, Error)]
pub enum CommandError {
    /// The argument at this place, from 1, is not in UTF-8.
    #[error("argument {0} is not in UTF-8")]
    NoUtf8(usize),
    /// The text after `--preid` is no identifier.
    #[error("--preid takes one identifier of a prerelease, as beta; --help lists the options")]
    Identifier,
    /// A read, a write or an allocation failed.
    #[error("{0}")]
    Stopped(Stopped),
}

impl From<AllocError> for CommandError {
    ghost from_gives = { λ _ error. error ≡ Errors.Stopped Memory };

    fn from(_error: AllocError) -> CommandError {
        CommandError::Stopped(Stopped::Memory)
    }
}

impl From<Stopped> for CommandError {
    ghost from_gives = { λ stopped error. error ≡ Errors.Stopped stopped };

    fn from(stopped: Stopped) -> CommandError {
        CommandError::Stopped(stopped)
    }
}
