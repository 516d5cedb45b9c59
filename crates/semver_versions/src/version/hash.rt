//! How versions are hashed.

ghost use Rattle.semver_texts.specs.Hash.{version_writes};
ghost use Rattle.semver_texts.specs.Lemmas.Hash.{version_alike};

use crate::Version;
use std::hash::{Hash, Hasher};

/// Feeds major, minor, patch and the prerelease to the hasher, and not the build. Equal versions feed it the same.
///
/// # Memory
///
/// Does not allocate.
impl Hash for Version {
    ghost hash_input = { version_writes };

    ghost respects_eq = { version_alike };

    fn hash<H: Hasher>(&self, state: &mut H) {
        self.major.hash(state);
        self.minor.hash(state);
        self.patch.hash(state);
        self.pre_release.hash(state);
    }
}
