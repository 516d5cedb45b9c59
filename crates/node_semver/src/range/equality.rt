//! Equality and hashing of ranges.
//!
//! See docs/DECISIONS.md, "Ranges are equal set by set".

ghost use Rattle.std.specs.Prelude.{◌≡◌, ◌↔◌, IsTrue, List};
ghost use Rattle.std.specs.Cmp.{partial_equiv_from_equiv};
ghost use Rattle.semver_cuts.specs.Ends.{Ends};
ghost use Rattle.semver_sets.specs.RangeHash.{range_writes};
ghost use Rattle.semver_sets.specs.Lemmas.RangeHash.{range_alike};
ghost use Rattle.semver_sets.specs.Meaning.{RangeAdmits};
ghost use Rattle.semver_sets.specs.RangeEquality.{AreSameCuts, are_same_cuts};
ghost use Rattle.semver_texts.specs.Version.{VersionValue};
ghost use Rattle.node_semver.specs.Lemmas.RangeEquality.{are_same_cuts-equiv};

use crate::Range;
use std::hash::{Hash, Hasher};

/// Two ranges are equal if they have the same number of sets, and the sets at each place begin at equal cuts and end at
/// equal cuts.
///
/// Builds are ignored, so equal ranges can print differently. Equal ranges admit the same versions. Ranges that admit
/// the same versions need not be equal: `1||2` and `2||1`.
///
/// # Memory
///
/// Does not allocate.
///
/// # Examples
///
/// `^1.2.3` equals `>=1.2.3 <2.0.0-0`, and does not equal `>=1.2.3 <2.0.0`.
impl PartialEq for Range {
    ghost eq = { are_same_cuts };

    ghost laws = { partial_equiv_from_equiv are_same_cuts-equiv };

    #[inline]
    #[tactic(auto, using(crate::specs::Lemmas::RangeEquality::ranges_same))]
    fn eq(&self, other: &Range) -> bool
        ensures answer { result ≡ are_same_cuts self.now other.now }
        ensures same { IsTrue result ↔ AreSameCuts self.now other.now }
    {
        self.sets.as_slice() == other.sets.as_slice()
    }
}

impl Eq for Range {
    ghost laws = { are_same_cuts-equiv };
}

/// Feeds the number of sets to the hasher, and then the two ends of each set without their builds. Equal ranges feed it
/// the same.
///
/// # Memory
///
/// Does not allocate.
impl Hash for Range {
    ghost hash_input = { range_writes };

    ghost respects_eq = { range_alike };

    fn hash<H: Hasher>(&self, state: &mut H) {
        self.sets.as_slice().hash(state);
    }
}

/// Ranges are equal if they have the same number of sets with the same two ends. Then they feed a hasher the same, and
/// admit the same versions.
///
/// This function does nothing: its contract is the law.
pub fn ranges_are_equal_where_their_cuts_are()
    ensures same { (one other : List (Ends VersionValue)) → IsTrue (are_same_cuts one other) ↔ AreSameCuts one other }
    ensures alike { (one other : List (Ends VersionValue)) → AreSameCuts one other →
        range_writes one ≡ range_writes other }
    ensures admit { (one other : List (Ends VersionValue)) → AreSameCuts one other → (v : VersionValue) →
        RangeAdmits one v ↔ RangeAdmits other v }
{}
