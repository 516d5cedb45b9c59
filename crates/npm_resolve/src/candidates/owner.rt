//! Whose manifest it is.
ghost use Rattle.std.specs.Prelude.{◌≡◌};
ghost use Rattle.npm_resolve.specs.Asks as Asking;

/// What counts of a version that is selected. Its `devDependencies` never do.
#[derive(Clone, Copy, Debug, PartialEq, Eq, Drop)]
pub enum Reach {
    /// Its peers.
    Peers,
    /// Its peers, `dependencies` and `optionalDependencies`.
    Dependencies,
}

/// Whose manifest it is.
#[derive(Clone, Copy, Debug, PartialEq, Eq, Drop)]
pub enum Owner {
    /// A root: the dependencies of all groups count.
    Root,
    /// A version of a package.
    Version(Reach),
}

impl Owner {
    /// Returns `true` for a root.
    pub(crate) fn is_root(self) -> bool
        ensures { result ≡ Asking.is_root self }
    {
        match self {
            Owner::Root => true,
            Owner::Version(_) => false,
        }
    }

    /// Returns `true` if dependencies count, and not only peers.
    pub(crate) fn has_dependencies(self) -> bool
        ensures { result ≡ Asking.has_dependencies self }
    {
        match self {
            Owner::Root | Owner::Version(Reach::Dependencies) => true,
            Owner::Version(Reach::Peers) => false,
        }
    }
}
