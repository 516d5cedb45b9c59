//! A tree of packages, and what its places ask for.

use serde_json::Value;

/// A document of a registry, by the name of its package.
#[derive(Clone, Copy, Drop)]
pub struct Document<'d> {
    pub name: &'d str,
    pub value: &'d Value,
}

/// What stands in a place.
#[derive(Clone, Copy, Drop)]
pub enum Stands<'d> {
    /// The root, whose path is empty, or the workspace at this path.
    Top { at: &'d str, manifest: &'d Value },
    /// A version of the document with this number.
    Package { document: usize, version: &'d str },
    /// A link to the package of a place above.
    Link { to: usize },
}

/// A folder of a package. Places have numbers, from 0, the root.
#[derive(Clone, Copy, Drop)]
pub struct Place<'d> {
    /// The name of the folder, as `a` of `node_modules/a`. That of a workspace is the name of its link in the root's folder.
    pub name: &'d str,
    /// The place in whose `node_modules` the folder is, which comes before it. The root alone has none.
    pub up: Option<usize>,
    pub stands: Stands<'d>,
    /// Which rules of `overrides` count for the package and for what it depends on.
    pub rules: usize,
}

/// What a dependency is.
#[derive(Clone, Copy, Debug, PartialEq, Eq, Drop)]
pub enum Kind {
    Needed,
    Dev,
    Optional,
    Peer,
    /// A peer that `peerDependenciesMeta` calls optional.
    OptionalPeer,
}

/// A dependency of what stands in a place.
#[derive(Clone, Copy, Drop)]
pub struct Ask<'d> {
    /// The place that asks.
    pub from: usize,
    pub name: &'d str,
    pub kind: Kind,
    /// The spec, as `overrides` change it.
    pub spec: &'d str,
    /// Which rules of `overrides` must count for what meets it, if it is no peer.
    pub rules: usize,
    /// It comes in the tarball of the package that asks.
    pub bundled: bool,
    /// The root asks for the workspace in this place.
    pub workspace: Option<usize>,
}

/// A tree of packages.
#[derive(Drop)]
pub struct Tree<'d> {
    pub places: Vec<Place<'d>>,
    /// What all places ask for.
    pub asks: Vec<Ask<'d>>,
    /// The numbers of the optional dependencies that are left out.
    pub left_out: Vec<usize>,
}
