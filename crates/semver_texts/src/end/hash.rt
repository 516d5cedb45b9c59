//! An end feeds a hasher as its version does.
ghost use Rattle.semver_texts.specs.Hash.{version_writes};
ghost use Rattle.semver_texts.specs.Lemmas.Hash.{version_alike};

use crate::end::{EndVersion, Zero};
use std::hash::{Hash, Hasher};

impl Hash for EndVersion {
    ghost hash_input = { version_writes };

    ghost respects_eq = { version_alike };

    fn hash<H: Hasher>(&self, state: &mut H) {
        let zero = Zero::new();
        self.major.hash(state);
        self.minor.hash(state);
        self.patch.hash(state);
        self.pre_release().as_slice(&zero).hash(state);
    }
}
