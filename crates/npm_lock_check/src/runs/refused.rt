//! The files that were refused: which file each is, the message, and where in the file it belongs.

use crate::runs::subject::{Source, input_of};
use crate::{Paths, RunError, StopError};
use command_lines::InputError;
use npm_lock_findings::{FaultPlace, Finding, ShownPlace, refused_finding};
use npm_lock_reports::{ExceptionsError, FolderName, Report};
use npm_manifest_files::{LoadError, ManifestError, path_of};
use std::alloc::{AllocError, Global};

/// A line and a column of a file, counted from 1.
#[derive(Clone, Copy, Debug, PartialEq, Eq, Drop)]
pub struct Spot {
    pub line: usize,
    pub column: usize,
}

/// A file that was refused.
#[derive(Debug, Drop)]
pub struct Refusal {
    /// The path of the file, as the command line names it: `-` is standard input.
    pub file: String,
    pub spot: Spot,
    /// A text in UTF-8.
    pub message: Vec<u8>,
}

/// Returns a refusal for each lock file that was not checked, in their order, if the error is about a file. `outer` is the folder of
/// the root's manifest.
///
/// # Memory
///
/// Allocates the refusals, with their paths and messages.
pub(crate) fn refusals_of(
    alloc: Global,
    asked: Paths<'_>,
    outer: &str,
    files: &[&str],
    outcomes: &[Result<Report, StopError>],
) -> Result<Vec<Refusal>, AllocError> {
    let mut refusals = Vec::new(alloc);
    for index in 0..files.len().min(outcomes.len()) {
        if let Err(error) = &outcomes[index] {
            push_refusal(alloc, &mut refusals, asked, outer, files[index], error)?;
        }
    }
    Ok(refusals)
}

/// Adds the refusal that an error of the check of a lock file is, if the error is about a file.
pub(crate) fn push_refusal(
    alloc: Global,
    refusals: &mut Vec<Refusal>,
    asked: Paths<'_>,
    outer: &str,
    file: &str,
    error: &StopError,
) -> Result<(), AllocError> {
    let Some(path) = refused_file(alloc, asked, outer, file, error)? else {
        return Ok(());
    };
    let message = format!(in alloc; "{error}")?;
    refusals.push(Refusal {
        file: path,
        spot: spot_of(error),
        message: message.into_bytes(),
    })?;
    Ok(())
}

/// Returns a finding for each refusal.
///
/// # Memory
///
/// Allocates the findings, with copies of the messages.
pub(crate) fn push_findings_of<'f>(
    alloc: Global,
    findings: &mut Vec<Finding<'f>>,
    refusals: &'f [Refusal],
) -> Result<(), AllocError> {
    for refusal in refusals {
        findings.push(finding_of(alloc, refusal)?)?;
    }
    Ok(())
}

/// The finding of a refusal.
fn finding_of<'f>(alloc: Global, refusal: &'f Refusal) -> Result<Finding<'f>, AllocError> {
    let message = Vec::from_slice(alloc, &refusal.message)?;
    let spot = refusal.spot;
    Ok(refused_finding(message, refusal.file.as_str(), spot.line, spot.column))
}

/// The path of the file that an error is about, if it is about one.
fn refused_file(
    alloc: Global,
    asked: Paths<'_>,
    outer: &str,
    file: &str,
    error: &StopError,
) -> Result<Option<String>, AllocError> {
    if let Some(folder) = folder_in(error) {
        let path = path_of(alloc, outer, folder.text.as_str())?;
        return Ok(Some(path));
    }
    let Some(file) = file_of(asked, file, error) else {
        return Ok(None);
    };
    let path = String::from_str(alloc, file)?;
    Ok(Some(path))
}

/// The folder of the manifest that an error is about, if it is about one that a link names.
fn folder_in(error: &StopError) -> Option<&FolderName> {
    match error {
        StopError::Load(LoadError::Open(folder) | LoadError::Read(folder, _)) => Some(folder),
        _ => None,
    }
}

/// The file that the error is about, as the command line names it: `-` is standard input.
fn file_of<'a>(asked: Paths<'a>, lock_file: &'a str, error: &StopError) -> Option<&'a str> {
    match input_of(error)? {
        Source::Lock => Some(lock_file),
        Source::Manifest => asked.manifest,
        Source::Advisories => asked.advisories,
        Source::Exceptions => asked.exceptions,
    }
}

/// The place in the file, or the beginning if it has none.
fn spot_of(error: &StopError) -> Spot {
    match error {
        StopError::Check(error) | StopError::Advisories(error) => run_spot(error),
        StopError::Manifest(error) | StopError::Load(LoadError::Read(_, error)) => {
            manifest_spot(error)
        }
        StopError::Exceptions(error) => exceptions_spot(error),
        StopError::Load(_) => Spot { line: 1, column: 1 },
    }
}

/// The same of an error of a check.
fn run_spot(error: &RunError) -> Spot {
    match error {
        RunError::Input(error) => input_spot(error),
        RunError::NoLockFile(found) => fault_spot(found),
        RunError::NoAdvisories(_, _, _, shown) => spot_at(shown),
        _ => Spot { line: 1, column: 1 },
    }
}

/// The same of an error of a manifest.
fn manifest_spot(error: &ManifestError) -> Spot {
    match error {
        ManifestError::Input(error) => input_spot(error),
        ManifestError::Faulty(found) => fault_spot(found),
        ManifestError::Memory => Spot { line: 1, column: 1 },
    }
}

/// The same of an error of exceptions.
fn exceptions_spot(error: &ExceptionsError) -> Spot {
    match error {
        ExceptionsError::NoToml(line, column, _) => shown_spot(*line, *column),
        ExceptionsError::Faulty(_, line, column) => shown_spot(*line, *column),
        _ => Spot { line: 1, column: 1 },
    }
}

/// This line and this column.
fn shown_spot(line: usize, column: usize) -> Spot {
    Spot { line, column }
}

/// The same of an input that was not read.
fn input_spot(error: &InputError) -> Spot {
    match error {
        InputError::NoJson(line, column) => Spot {
            line: *line,
            column: (*column).max(1),
        },
        _ => Spot { line: 1, column: 1 },
    }
}

/// The place of a fault.
fn fault_spot(found: &FaultPlace) -> Spot {
    spot_at(&found.place)
}

/// The line and the column of a place.
fn spot_at(shown: &ShownPlace) -> Spot {
    Spot {
        line: shown.line,
        column: shown.column,
    }
}
