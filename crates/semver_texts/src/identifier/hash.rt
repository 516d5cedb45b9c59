//! How identifiers are hashed.

ghost use Rattle.std.specs.Prelude.{◌≡◌, fold};
ghost use Rattle.semver_texts.specs.Hash.{identifier_writes};
ghost use Rattle.semver_texts.specs.IdentifierRef.{borrowed_value};
ghost use Rattle.semver_texts.specs.Lemmas.Hash.{identifier_alike};
ghost use Rattle.semver_texts.specs.Identifier.{value_of};

use crate::identifier::borrowed::by_reference;
use crate::{Identifier, IdentifierRef};
use std::hash::{Hash, Hasher};

/// Feeds a mark for the kind to the hasher, and then the number or the text. Equal identifiers feed it the same.
///
/// # Memory
///
/// Does not allocate.
impl Hash for Identifier {
    ghost hash_input = { λ a. identifier_writes (value_of a) };

    ghost respects_eq = { λ a b. identifier_alike (value_of a) (value_of b) };

    fn hash<H: Hasher>(&self, state: &mut H) {
        hash_identifier(by_reference(self), state);
    }
}

// Feeds the mark, and then the number or the text.
#[inline]
pub fn hash_identifier<H: Hasher>(identifier: IdentifierRef<'_>, state: &mut H)
    ensures { state.new ≡ fold H.write state.old (identifier_writes (borrowed_value identifier.entry)) }
{
    match identifier {
        IdentifierRef::Numeric(n) => {
            state.write_u8(0);
            state.write_u64(n);
        }
        IdentifierRef::AlphaNumeric(text) => {
            state.write_u8(1);
            text.hash(state);
        }
    }
}
