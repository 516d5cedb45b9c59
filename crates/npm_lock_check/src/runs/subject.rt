//! The input that an error is about.

use crate::{Paths, RunError, StopError};
use command_lines::{InputError, Quoted};
use npm_lock_reports::ExceptionsError;
use std::fmt;

/// An input of the program.
#[derive(Clone, Copy, Drop)]
pub enum Source {
    Lock,
    Manifest,
    Advisories,
    Exceptions,
}

/// What the line of an error begins with.
#[derive(Clone, Copy, Debug, Drop)]
pub enum Subject<'a> {
    /// The error is about no input, or names it.
    Nothing,
    StandardInput,
    File(Quoted<'a>),
    /// The value of `--manifest`.
    Manifest(Quoted<'a>),
    /// The value of `--advisories`.
    Advisories(Quoted<'a>),
    /// The value of `--exceptions`.
    Exceptions(Quoted<'a>),
}

/// Prints `"package-lock.json": `, or nothing. Format options such as a width are ignored.
impl<'a> fmt::Display for Subject<'a> {
    fn fmt<W: fmt::Write>(&self, f: &mut fmt::Formatter<W>) -> fmt::Result {
        match self {
            Subject::Nothing => Ok(()),
            Subject::StandardInput => f.write_str("standard input: "),
            Subject::File(file) => write!(f, "{file}: "),
            Subject::Manifest(file) => write!(f, "--manifest {file}: "),
            Subject::Advisories(file) => write!(f, "--advisories {file}: "),
            Subject::Exceptions(file) => write!(f, "--exceptions {file}: "),
        }
    }
}

/// Returns what the line of this error begins with, if it is about a check of this lock file.
///
/// # Memory
///
/// Does not allocate.
pub fn subject_of<'a>(asked: Paths<'a>, file: &'a str, error: &StopError) -> Subject<'a> {
    match input_of(error) {
        None => Subject::Nothing,
        Some(Source::Lock) => lock_subject(file),
        Some(Source::Manifest) => match asked.manifest {
            Some(text) => Subject::Manifest(Quoted { text }),
            None => Subject::Nothing,
        },
        Some(Source::Advisories) => match asked.advisories {
            Some(text) => Subject::Advisories(Quoted { text }),
            None => Subject::Nothing,
        },
        Some(Source::Exceptions) => match asked.exceptions {
            Some(text) => Subject::Exceptions(Quoted { text }),
            None => Subject::Nothing,
        },
    }
}

/// Returns a lock file as what a line begins with.
///
/// # Memory
///
/// Does not allocate.
pub fn lock_subject<'a>(file: &'a str) -> Subject<'a> {
    if file == "-" {
        Subject::StandardInput
    } else {
        Subject::File(Quoted { text: file })
    }
}

/// Returns the input that an error is about.
pub(crate) fn input_of(error: &StopError) -> Option<Source> {
    match error {
        StopError::Check(error) => checked_input(error),
        StopError::Manifest(_) => Some(Source::Manifest),
        StopError::Advisories(_) => Some(Source::Advisories),
        StopError::Exceptions(error) => excepting_input(error),
        StopError::Load(_) => None,
    }
}

/// The input that an error of exceptions is about.
fn excepting_input(error: &ExceptionsError) -> Option<Source> {
    match error {
        ExceptionsError::Memory
        | ExceptionsError::Clock
        | ExceptionsError::Input(InputError::Memory) => None,
        _ => Some(Source::Exceptions),
    }
}

/// The input that an error of a check is about.
fn checked_input(error: &RunError) -> Option<Source> {
    match error {
        RunError::Write | RunError::Memory | RunError::NoLinked(_, _) => None,
        RunError::Input(InputError::Memory) => None,
        RunError::NoManifest(_) => Some(Source::Manifest),
        RunError::NoAdvisories(_, _, _, _) | RunError::NoneRead => Some(Source::Advisories),
        _ => Some(Source::Lock),
    }
}
