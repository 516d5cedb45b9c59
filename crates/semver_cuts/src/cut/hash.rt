//! How cuts are hashed.

ghost use Rattle.std.proofs.Common.{◌∙◌};
ghost use Rattle.semver_cuts.specs.Hash.{cut_writes};
ghost use Rattle.semver_cuts.specs.Lemmas.Hash.{cut_alike};

use crate::Cut;
use std::hash::{Hash, Hasher};

/// Feeds a number for the kind of cut to the hasher, and then the value, if there is one. Equal cuts feed it the same.
///
/// # Memory
///
/// Does not allocate.
impl<T: Ord + Hash> Hash for Cut<T> {
    ghost hash_input = { cut_writes T.hash_input };

    ghost respects_eq = { cut_alike T.cmp (λ v w e. T.respects_eq v w (T.matches_eq v w ∙ e)) };

    fn hash<H: Hasher>(&self, state: &mut H) {
        match self {
            Cut::Start => state.write_u8(0),
            Cut::Before(value) => {
                state.write_u8(1);
                value.hash(state);
            }
            Cut::After(value) => {
                state.write_u8(2);
                value.hash(state);
            }
            Cut::End => state.write_u8(3),
        }
    }
}
