//! How versions that borrow their text are hashed.
ghost use Rattle.std.specs.Prelude.{◌≡◌, flat_map, fold};
ghost use Rattle.semver_texts.specs.Hash.{identifier_writes, version_writes};
ghost use Rattle.semver_texts.specs.IdentifierText.{IsListed, identifiers_of};
ghost use Rattle.semver_texts.specs.Lemmas.Hash.{version_alike};

use crate::VersionRef;
use semver_texts::identifier::borrowed::{borrowed_of, text_of};
use semver_texts::identifier::hash::hash_identifier;
use semver_texts::parse::listed::split_first;
use std::hash::{Hash, Hasher};

/// Feeds the hasher what the [`Version`](crate::Version) of the text feeds it.
///
/// # Memory
///
/// Does not allocate.
impl<'a> Hash for VersionRef<'a> {
    ghost hash_input = { version_writes };

    ghost respects_eq = { version_alike };

    fn hash<H: Hasher>(&self, state: &mut H) {
        self.major.hash(state);
        self.minor.hash(state);
        self.patch.hash(state);
        state.write_usize(self.pre_release.len());
        hash_list(text_of(&self.pre_release), state);
    }
}

// Feeds each identifier. It calls itself at most 128 times, since a version has at most 256 bytes.
fn hash_list<H: Hasher>(text: &[u8], state: &mut H)
    requires { IsListed text.now }
    ensures { state.new ≡ fold H.write state.old (flat_map identifier_writes (identifiers_of text.now)) }
{
    if text.is_empty() {
        return;
    }
    let (first, rest) = split_first(text);
    hash_identifier(borrowed_of(first), state);
    hash_list(rest, state);
}
