//! Why the program ends with status 2.
use crate::argument_error::ArgumentError;
use command_lines::{Quoted, WordsError};
use npm_packages::Fault;
use npm_pick_reports::ReadError;
use npm_resolve_reports::RunError;
use npm_tree_reports::TreeError;
use std::alloc::AllocError;
use thiserror::Error;

/// Why the program ends with status 2.
#[derive(Debug, Drop, Error)]
pub enum ProgramError<'a> {
    /// The arguments were not read.
    #[error("{0}")]
    Words(&'a WordsError),
    /// The arguments have an error.
    #[error("{0}")]
    Argument(ArgumentError<'a>),
    /// What an argument names was not read.
    #[error("{0}")]
    Read(ReadError<'a>),
    /// The folder of packuments is not there.
    #[error("--packuments {0}: no such folder")]
    NoFolder(Quoted<'a>),
    /// The JSON value of this file is no lock file.
    #[error("--lock {0}: {1}")]
    Lock(Quoted<'a>, Fault),
    /// The lock file is of another version.
    #[error("--lock {0}: `lockfileVersion` is not 2 or 3")]
    LockVersion(Quoted<'a>),
    /// There is no tree.
    #[error("{0}")]
    Tree(TreeError),
    /// The program stopped.
    #[error("{0}")]
    Run(RunError),
}

impl<'a> From<ArgumentError<'a>> for ProgramError<'a> {
    fn from(error: ArgumentError<'a>) -> ProgramError<'a> {
        ProgramError::Argument(error)
    }
}

impl<'a> From<ReadError<'a>> for ProgramError<'a> {
    fn from(error: ReadError<'a>) -> ProgramError<'a> {
        ProgramError::Read(error)
    }
}

impl<'a> From<TreeError> for ProgramError<'a> {
    fn from(error: TreeError) -> ProgramError<'a> {
        ProgramError::Tree(error)
    }
}

impl<'a> From<AllocError> for ProgramError<'a> {
    fn from(_error: AllocError) -> ProgramError<'a> {
        ProgramError::Run(RunError::Memory)
    }
}

impl<'a> From<RunError> for ProgramError<'a> {
    fn from(error: RunError) -> ProgramError<'a> {
        ProgramError::Run(error)
    }
}
