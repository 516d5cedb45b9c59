//! A package in a folder.

/// A package in a folder, and why it stands there.
#[derive(Clone, Copy, Drop)]
pub(crate) struct Place {
    /// The number of the name that it stands under.
    pub(crate) name: usize,
    /// The number of its version.
    pub(crate) version: usize,
    /// The place in whose `node_modules` it stands.
    pub(crate) up: Option<usize>,
    /// The dependency that it was placed for.
    pub(crate) by: Option<usize>,
    /// The rules of overrides that count below it.
    pub(crate) context: usize,
    /// The place that it links to.
    pub(crate) link: Option<usize>,
    /// The place that gave way to it.
    pub(crate) old: Option<usize>,
    /// It is the root or a workspace.
    pub(crate) is_top: bool,
    pub(crate) is_gone: bool,
    pub(crate) is_settled: bool,
    /// Its dependencies, by number.
    pub(crate) from: usize,
    pub(crate) to: usize,
    pub(crate) depth: usize,
}

/// The place of a number that is none.
pub(crate) const NOWHERE: Place = Place {
    name: 0,
    version: 0,
    up: None,
    by: None,
    context: 0,
    link: None,
    old: None,
    is_top: false,
    is_gone: true,
    is_settled: true,
    from: 0,
    to: 0,
    depth: 0,
};

/// A name in a folder.
#[derive(Clone, Copy, PartialEq, Eq, PartialOrd, Ord, Drop)]
pub(crate) struct Spot {
    pub(crate) folder: usize,
    pub(crate) name: usize,
}

/// What a dependency looks at in a package that it sees.
#[derive(Clone, Copy, Drop)]
pub(crate) struct Seen {
    pub(crate) version: usize,
    pub(crate) context: usize,
    pub(crate) is_top: bool,
    pub(crate) is_link: bool,
}

impl Place {
    pub(crate) fn seen(&self) -> Seen {
        Seen {
            version: self.version,
            context: self.context,
            is_top: self.is_top,
            is_link: self.link.is_some(),
        }
    }
}
