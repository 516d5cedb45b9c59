//! What a caller can ask beside the version.

use node_semver::VersionRef;

/// The options of a pick.
#[derive(Drop)]
pub struct Options<'o> {
    /// The version of this tag is preferred: `latest` in npm.
    pub default_tag: &'o str,
    /// Versions that were published after this time are left out. It is in nanoseconds since 1970-01-01T00:00:00Z, as
    /// [`parse_time`](crate::parse_time) returns it.
    pub before: Option<i128>,
    /// A range. Its versions are picked only if no other version is left.
    pub avoid: Option<&'o str>,
    /// A version to avoid is never picked: a version outside the range is picked instead.
    pub avoid_strict: bool,
    /// The versions of the member `stagedVersions` can be picked too.
    pub include_staged: bool,
    /// The version of Node, for `engines`. If it is `None`, any version of Node is fine.
    pub node: Option<VersionRef<'o>>,
    /// The version of npm, for `engines`. If it is `None`, any version of npm is fine.
    pub npm: Option<VersionRef<'o>>,
}
