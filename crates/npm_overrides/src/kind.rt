//! Whose manifest it is, and which kind of dependency.
ghost use Rattle.std.specs.Prelude.{◌≡◌};
ghost use Rattle.npm_packages.specs.PackageValue.{asked_value};
ghost use Rattle.npm_overrides.specs.Asks as Asks;

use npm_packages::Asked;

/// Which group of a manifest a dependency comes from.
#[derive(Clone, Copy, Drop)]
pub enum Kind {
    /// `dependencies`.
    Needed,
    /// `devDependencies`.
    Dev,
    /// `optionalDependencies`.
    Optional,
    /// `peerDependencies`.
    Peer,
    /// `peerDependencies`, and `peerDependenciesMeta` calls it optional.
    OptionalPeer,
}

/// Whose manifest it is.
#[derive(Clone, Copy, Drop)]
pub enum Owner {
    /// The root of a project.
    Root,
    /// A workspace of it. Rules change nothing that it asks for itself.
    Workspace,
    /// A package that is installed: its `devDependencies` do not count.
    Package,
}

impl Owner {
    /// Returns `true` for a root and for a workspace: their `devDependencies` count, and their peers are as their other dependencies.
    pub fn is_top(self) -> bool
        ensures { result ≡ Asks.is_top self }
    {
        match self {
            Owner::Root | Owner::Workspace => true,
            Owner::Package => false,
        }
    }
}

/// The kind of a dependency.
pub(crate) fn kind_of(asked: Asked<'_>) -> Kind
    ensures { result ≡ Asks.kind_by asked.entry.is_dev asked.entry.is_peer asked.entry.is_needed }
{
    match (asked.is_dev, asked.is_peer, asked.is_needed) {
        (true, _, _) => Kind::Dev,
        (false, true, true) => Kind::Peer,
        (false, true, false) => Kind::OptionalPeer,
        (false, false, true) => Kind::Needed,
        (false, false, false) => Kind::Optional,
    }
}
