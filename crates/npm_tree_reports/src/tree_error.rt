//! Why there is no reply.

use npm_pick_reports::PackageName;
use npm_resolve_reports::RunError;
use std::alloc::AllocError;
use thiserror::Error;

/// Why there is no reply.
#[derive(Debug, Drop, Error)]
pub enum TreeError {
    /// An override changes what the root asks for by this name.
    #[error("EOVERRIDE: `overrides` change the root's own dependency {0}")]
    Overridden(PackageName),
    /// Two workspaces have this name.
    #[error("two workspaces have the name {0}")]
    SameName(PackageName),
    /// The program stopped.
    #[error("{0}")]
    Run(RunError),
}

impl From<RunError> for TreeError {
    fn from(error: RunError) -> TreeError {
        TreeError::Run(error)
    }
}

impl From<AllocError> for TreeError {
    fn from(_error: AllocError) -> TreeError {
        TreeError::Run(RunError::Memory)
    }
}
