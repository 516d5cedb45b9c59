//! Why a lock file was not checked. In front of each text the program writes what `subject` says.
use crate::checks::list_name::{ListName, PlacedFault};
use command_lines::InputError;
use npm_advisories::FaultKind;
use npm_lock::Fault;
use npm_lock_findings::{FaultPlace, ShownPlace};
use npm_lock_reports::{ExceptionsError, FolderName};
use npm_manifest_files::{LoadError, ManifestError};
use thiserror::Error;

/// Why a lock file was not checked.
#[derive(Debug, PartialEq, Eq, Drop, Error)]
pub enum RunError {
    /// An input was not read.
    #[error("{0}")]
    Input(InputError),
    /// A write failed.
    #[error("write failed")]
    Write,
    /// An allocation failed.
    #[error("out of memory")]
    Memory,
    /// What was read is no lock file.
    #[error("the input is no lock file that is read here: {0}")]
    NoLockFile(FaultPlace),
    /// The manifest has a fault.
    #[error("the manifest is not read: {0}")]
    NoManifest(Fault),
    /// The manifest of the package in this folder has a fault.
    #[error("{0}/package.json: the manifest is not read: {1}")]
    NoLinked(FolderName, Fault),
    /// The advisories have a fault: its kind, the name that the advisory stands under, its place in the list there, and where in the text
    /// of the file the fault is.
    #[error("the advisories are not read: {}{}", PlacedFault {kind: *.0, name: .1, place: *.2}, .3)]
    NoAdvisories(FaultKind, ListName, usize, ShownPlace),
    /// The file of advisories has none, which is not allowed.
    #[error("the file has no advisory; --allow-no-advisories reads such a file")]
    NoneRead,
}

/// Why the program stopped.
#[derive(Debug, PartialEq, Eq, Drop, Error)]
pub enum StopError {
    /// An argument or the lock file has an error, or a write failed.
    #[error("{0}")]
    Check(RunError),
    /// The file after `--manifest` was not read.
    #[error("{0}")]
    Manifest(ManifestError),
    /// The file after `--advisories` was not read.
    #[error("{0}")]
    Advisories(RunError),
    /// The file after `--exceptions` was not read.
    #[error("{0}")]
    Exceptions(ExceptionsError),
    /// The manifest of a workspace, or of another package that a link names, was not read.
    #[error("{0}")]
    Load(LoadError),
}
