//! Why the program ends with status 2.
use crate::argument_error::ArgumentError;
use command_lines::WordsError;
use npm_pick_reports::{ReadError, RunError};
use std::alloc::AllocError;
use thiserror::Error;

/// Why the program ends with status 2.
#[derive(Debug, Drop, Error)]
pub enum ProgramError<'a> {
    /// The arguments were not read.
    #[error("{0}")]
    Words(&'a WordsError),
    /// The arguments have an error.
    #[error("{0}")]
    Argument(ArgumentError<'a>),
    /// What an argument names was not read.
    #[error("{0}")]
    Read(ReadError<'a>),
    /// The program stopped.
    #[error("{0}")]
    Run(RunError),
}

impl<'a> From<ArgumentError<'a>> for ProgramError<'a> {
    fn from(error: ArgumentError<'a>) -> ProgramError<'a> {
        ProgramError::Argument(error)
    }
}

impl<'a> From<ReadError<'a>> for ProgramError<'a> {
    fn from(error: ReadError<'a>) -> ProgramError<'a> {
        ProgramError::Read(error)
    }
}

impl<'a> From<RunError> for ProgramError<'a> {
    fn from(error: RunError) -> ProgramError<'a> {
        ProgramError::Run(error)
    }
}

impl<'a> From<AllocError> for ProgramError<'a> {
    fn from(_error: AllocError) -> ProgramError<'a> {
        ProgramError::Run(RunError::Memory)
    }
}
