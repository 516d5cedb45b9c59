//! What is given, and what is answered.

use npm_trees::{Kind, Tree};
use serde_json::Value;

/// The manifest of the root, whose path is empty, or of the workspace at this path.
#[derive(Clone, Copy, Drop)]
pub struct Manifest<'d> {
    pub at: &'d str,
    pub value: &'d Value,
}

/// A dependency that cannot be met.
#[derive(Clone, Copy, Drop)]
pub struct Unmet<'d> {
    pub name: &'d str,
    pub kind: Kind,
    /// The spec, as `overrides` change it.
    pub spec: &'d str,
    /// npm's pick for it, if there is one.
    pub pick: Option<&'d str>,
}

/// Dependencies of a package that cannot be met together.
#[derive(Drop)]
pub struct Conflict<'d> {
    /// The folder of the package. That of the root is empty.
    pub at: String,
    pub asks: Vec<Unmet<'d>>,
}

/// What is answered.
#[derive(Drop)]
pub enum Answer<'d> {
    Tree(Tree<'d>),
    Conflict(Conflict<'d>),
    /// An override changes what the root asks for by this name: npm stops with `EOVERRIDE`.
    Overridden(&'d str),
    /// Two workspaces have this name.
    SameName(&'d str),
    /// The steps were used up.
    Undecided,
}
