//! Why a manifest was not read.
use command_lines::InputError;
use npm_lock_findings::FaultPlace;
use npm_lock_reports::FolderName;
use thiserror::Error;

/// Why a manifest was not read.
#[derive(Debug, PartialEq, Eq, Drop, Error)]
pub enum ManifestError {
    /// The input was not read.
    #[error("{0}")]
    Input(InputError),
    /// The manifest has a fault at this place.
    #[error("the manifest is not read: {0}")]
    Faulty(FaultPlace),
    /// An allocation failed.
    #[error("out of memory")]
    Memory,
}

/// Why the manifest of a workspace, or of another package that a link names, was not read.
#[derive(Debug, PartialEq, Eq, Drop, Error)]
pub enum LoadError {
    /// The manifest in this folder cannot be opened.
    #[error("{0}/package.json cannot be opened")]
    Open(FolderName),
    /// The manifest in this folder was not read.
    #[error("{0}/package.json: {1}")]
    Read(FolderName, ManifestError),
    /// An allocation failed.
    #[error("out of memory")]
    Memory,
}
