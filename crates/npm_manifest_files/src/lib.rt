//! Manifests on disk, beside a lock file: those of workspaces and of other packages that links name.
//!
//! [`manifests_of`] reads the manifests in the folders that links of the lock file name, each by [`manifest_in`], and
//! [`with_workspaces`] finds the folders on disk that the patterns of the root's manifest match. See docs/DECISIONS.md, "The manifests
//! of workspaces are read where npm reads them".
#![tactic(auto)]

mod below;
mod linked;
mod load_error;
mod manifest_file;
mod walk;
mod workspace_name;
mod workspaces;

pub use linked::{Found, Linked, Loaded, Workspace, manifests_of};
pub use load_error::{LoadError, ManifestError};
pub use manifest_file::{folder_of, manifest_in, path_of, read_faultless};
pub use workspaces::with_workspaces;
