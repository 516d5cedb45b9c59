//! What a caller can ask beside the manifest.

use node_semver::VersionRef;
use npm_packages::Lock;

/// Groups of dependencies that are left out.
#[derive(Clone, Copy, Debug, PartialEq, Eq, Drop)]
pub struct Omits {
    pub dev: bool,
    pub optional: bool,
    /// The peers of the manifest, and of the candidates.
    pub peer: bool,
}

/// Which versions of a document can be chosen, and which of them comes first.
#[derive(Clone, Copy, Drop)]
pub struct Options<'o> {
    /// The version of this tag is preferred: `latest` in npm.
    pub default_tag: &'o str,
    /// Versions that were published after this time are left out. It is in nanoseconds since 1970-01-01T00:00:00Z.
    pub before: Option<i128>,
    /// The version of Node, for `engines`. If it is `None`, any version of Node is fine.
    pub node: Option<&'o VersionRef<'o>>,
    /// The lowest version is preferred, and the tag does not count.
    pub is_lowest: bool,
    /// The version of a name in this lock file comes before the others.
    pub lock: Option<Lock<'o>>,
}
