//! Why the program ends with status 2.
use crate::arguments::{ArgumentError, Usage};
use crate::checks::StopError;
use crate::runs::Subject;
use command_lines::WordsError;
use thiserror::Error;

/// Why the program ends with status 2.
#[derive(Debug, Drop, Error)]
pub enum ProgramError<'a> {
    /// The arguments were not read.
    #[error("{0}")]
    Words(&'a WordsError),
    /// `clap` does not read the arguments.
    #[error("{0}")]
    Usage(Usage),
    /// The arguments have an error.
    #[error("{0}")]
    Argument(ArgumentError<'a>),
    /// Something went wrong, with this input if it is about one.
    #[error("{0}{1}")]
    Stopped(Subject<'a>, StopError),
}
