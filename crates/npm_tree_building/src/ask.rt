//! A dependency of a package.

use npm_overrides::Kind;

/// A dependency of a package on a name.
#[derive(Clone, Copy, Drop)]
pub(crate) struct Ask {
    /// The place that asks.
    pub(crate) from: usize,
    /// The number of the name.
    pub(crate) name: usize,
    /// The number of the spec, after overrides.
    pub(crate) spec: usize,
    pub(crate) want: usize,
    pub(crate) kind: Kind,
    /// It is a peer of a package in a `node_modules`.
    pub(crate) is_peer: bool,
    /// The package is in the tarball.
    pub(crate) is_bundled: bool,
    /// It is optional and left out.
    pub(crate) is_left: bool,
    pub(crate) is_done: bool,
    /// The rules of overrides that count below it.
    pub(crate) context: usize,
    /// The workspace that it asks for.
    pub(crate) workspace: Option<usize>,
    /// Wants that must be met too, by number.
    pub(crate) more_from: usize,
    pub(crate) more_to: usize,
}

/// The dependency of a number that is none.
pub(crate) const NOTHING: Ask = Ask {
    from: 0,
    name: 0,
    spec: 0,
    want: 0,
    kind: Kind::Optional,
    is_peer: false,
    is_bundled: true,
    is_left: true,
    is_done: true,
    context: 0,
    workspace: None,
    more_from: 0,
    more_to: 0,
};

impl Ask {
    /// It need not be met.
    pub(crate) fn is_optional(&self) -> bool {
        match self.kind {
            Kind::Optional | Kind::OptionalPeer => true,
            _ => false,
        }
    }

    /// It is in `optionalDependencies`.
    pub(crate) fn can_be_left(&self) -> bool {
        match self.kind {
            Kind::Optional => true,
            _ => false,
        }
    }

    /// It is a peer that need not be there.
    pub(crate) fn is_optional_peer(&self) -> bool {
        match self.kind {
            Kind::OptionalPeer => true,
            _ => false,
        }
    }

    /// It is a dependency that its own package places.
    pub(crate) fn is_own(&self) -> bool {
        !self.is_peer && !self.is_bundled
    }

    /// It is a peer that is placed with its package.
    pub(crate) fn is_placed_peer(&self) -> bool {
        self.is_peer && !self.is_bundled
    }
}
