//! What a resolver answers.

use crate::conflict::Conflict;
use version_solving::Ask;

/// A version that is selected.
#[derive(Clone, Copy, Debug, PartialEq, Eq, Drop)]
pub struct Chosen<'v> {
    /// The name that is asked for.
    pub name: &'v str,
    /// The name of the package in the registry. It is another one for an alias.
    pub package: &'v str,
    /// The version, as it is written in the document.
    pub key: &'v str,
}

/// Which versions fit together.
#[derive(Drop)]
pub enum Resolution<'v> {
    /// The versions that are selected, in the order in which they are first needed.
    Selected(Vec<Chosen<'v>>),
    /// No selection fits. What cannot be met together, and why; `None` if it takes more steps than it may to find that.
    NoSelection(Option<Conflict<'v>>),
    /// The steps were used up before either was known.
    Undecided,
}

/// Which versions fit together, what the manifests ask no registry for, which rules are not read, and what is missing.
#[derive(Drop)]
pub struct Answer<'v> {
    pub resolution: Resolution<'v>,
    /// A folder, a repository, a URL, or an alias that npm refuses.
    pub left_out: Vec<Ask<'v>>,
    /// Names that are asked for as they are written, since their rule in `overrides` is not read.
    pub unread: Vec<&'v str>,
    /// Optional dependencies of the root that no version meets. They only limit.
    pub unmet: Vec<&'v str>,
    /// Names without a document that a version needs. Such a version is never selected.
    pub missing: Vec<&'v str>,
}
