//! What a caller can ask beside the manifests.

/// How a tree is built.
#[derive(Clone, Copy, Drop)]
pub struct Options<'o> {
    /// The version of this tag is preferred: `latest` in npm.
    pub default_tag: &'o str,
    /// Versions that were published after this time are left out. It is in nanoseconds since 1970-01-01T00:00:00Z.
    pub before: Option<i128>,
    /// The version of Node, for `engines`. If it is `None`, any version of Node is fine.
    pub node: Option<&'o str>,
    /// No package gives way to a higher version.
    pub keeps: bool,
    /// How many packages a search for one dependency may place.
    pub steps: u64,
    /// How many packages all searches together may place.
    pub total_steps: u64,
}
