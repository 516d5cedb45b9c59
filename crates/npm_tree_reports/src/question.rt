//! What is asked for.

use npm_tree_building::Manifest;
use serde_json::Value;

/// Which tree of packages manifests have.
#[derive(Clone, Copy, Drop)]
pub struct Question<'q> {
    /// The manifest of the root, and those of its workspaces.
    pub manifests: &'q [Manifest<'q>],
    /// An older lock file.
    pub lock: Option<&'q Value>,
    /// The version of this tag is preferred.
    pub default_tag: &'q str,
    /// Versions that were published after this time are left out. It is in nanoseconds since 1970-01-01T00:00:00Z.
    pub before: Option<i128>,
    /// The version of Node, for `engines`.
    pub node: Option<&'q str>,
    /// So many packages are placed at most, those that are taken back too.
    pub steps: u64,
}
