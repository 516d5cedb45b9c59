//! What a dependency asks a registry for.

use node_semver::Range;
use npm_texts::{installed_version, is_tag};

/// What npm reads the text of a dependency as.
#[derive(Clone, Copy, Debug, PartialEq, Eq, Drop)]
pub(crate) enum WantKind {
    Range,
    Version,
    Tag,
    /// It is in no registry.
    Other,
}

/// A package, and which versions of it a dependency wants.
#[derive(Drop)]
pub(crate) struct Want {
    pub(crate) kind: WantKind,
    /// The number of the package's name in the registry.
    pub(crate) package: usize,
    /// The number of the text.
    pub(crate) text: usize,
    pub(crate) is_any: bool,
    pub(crate) range: Option<Range>,
    /// The versions that can be chosen, in npm's order, once they were asked for.
    pub(crate) versions: Option<Vec<usize>>,
}

/// The package and the text of a want.
#[derive(Clone, Copy, PartialEq, Eq, PartialOrd, Ord, Drop)]
pub(crate) struct WantKey {
    pub(crate) package: usize,
    pub(crate) text: usize,
}

impl Want {
    /// Returns `true` if a registry has it.
    pub(crate) fn is_registered(&self) -> bool {
        match self.kind {
            WantKind::Other => false,
            _ => true,
        }
    }

    /// Returns `true` if a version meets it. Each version from a registry meets a tag.
    pub(crate) fn is_met_by(&self, version: &str, is_from_registry: bool) -> bool {
        match self.kind {
            WantKind::Range if self.is_any => true,
            WantKind::Range | WantKind::Version => self.admits(version),
            WantKind::Tag => is_from_registry,
            WantKind::Other => false,
        }
    }

    /// Returns `true` if a version is in the range.
    pub(crate) fn admits(&self, version: &str) -> bool {
        let Some(range) = &self.range else {
            return false;
        };
        match installed_version(version) {
            Some(version) => range.satisfies(&version),
            None => false,
        }
    }
}

/// What npm reads a text as.
pub(crate) fn kind_of(text: &str, is_registered: bool, is_range: bool) -> WantKind {
    if !is_registered {
        WantKind::Other
    } else if installed_version(text).is_some() {
        WantKind::Version
    } else if is_range {
        WantKind::Range
    } else if is_tag(text) {
        WantKind::Tag
    } else {
        WantKind::Other
    }
}
