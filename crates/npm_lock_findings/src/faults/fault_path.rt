//! A fault, and the path of the member that it is about.

use npm_packages::Fault;

/// A fault of a lock file or of a manifest, and the path of the member that it is about.
#[derive(Debug, PartialEq, Eq, Drop)]
pub struct FaultPath<'v> {
    pub fault: Fault,
    /// The names of members, from the outermost object inwards: `packages`, `node_modules/a`, `dependencies` and `b`. If a member
    /// is missing, this is the path of the object that has to have it. The value itself has no name.
    pub names: Vec<&'v str>,
}
