//! The union of two ranges.

ghost use Rattle.std.specs.Prelude.{◌≡◌, ◌⊎◌, ◌↔◌, ◌++◌, ℕ, IfOk, List};
ghost use Rattle.semver_cuts.specs.declared.cut.Cut.{Cut};
ghost use Rattle.semver_cuts.specs.SpanLists.{IsInSome};
ghost use Rattle.semver_texts.specs.Comparison.{version_cmp};
ghost use Rattle.semver_sets.specs.Meaning.{RangeAdmits};
ghost use Rattle.semver_sets.specs.Merging.{AreSetsOfText};
ghost use Rattle.semver_sets.specs.RangeSets.{IsRangeValue};
ghost use Rattle.semver_sets.specs.Union.{AreJoinable, joined_text};
ghost use Rattle.semver_texts.specs.Version.{VersionValue};

use crate::Range;
use semver_sets::laws::joined_texts_write_all_sets;
use std::alloc::{AllocError, Global};

impl Range {
    /// Returns the union of two ranges: the sets of `self` in order, and then those of `other`.
    ///
    /// A version satisfies the union exactly where it satisfies one of the two ranges, prereleases included. Sets are
    /// not joined: the union of `1` and `1` has two.
    ///
    /// `Range::parse` reads the union from the text of `self`, `||` and the text of `other`. This does not hold if the
    /// first text ends in `|` (`1 |||2` is `1 ` and `|2`), or if the second begins with a blank (` - 10` alone is a
    /// hyphen range, and after `||` it is not).
    ///
    /// # Errors
    ///
    /// Fails with `AllocError` if an allocation fails.
    ///
    /// # Memory
    ///
    /// Allocates a list of the sets, the identifiers of their ends, and for more than four sets a list of the triples
    /// that they open. If a set does not end below the next one, it allocates the order of the sets too.
    ///
    /// # Examples
    ///
    /// - The union of `^1.2.3` and `>=3` is `>=1.2.3 <2.0.0-0||>=3.0.0`.
    /// - The union of `>=3` and `^1.2.3` is `>=3.0.0||>=1.2.3 <2.0.0-0`.
    /// - The union of `<1.0.1-beta` and `>=1.0.1` admits `1.0.1-0`, as `<1.0.1-beta` does. It does not admit
    ///   `1.0.1-beta`, as neither does.
    pub fn union(&self, alloc: Global, other: &Range) -> Result<Range, AllocError>
        ensures sets { IfOk result (λ union. union ≡ self.now ++ other.now) }
        ensures cuts { IfOk result (λ union. (cut : Cut VersionValue) →
            IsInSome version_cmp union cut ↔ (IsInSome version_cmp self.now cut ⊎ IsInSome version_cmp other.now cut)) }
        ensures admitted { IfOk result (λ union. (v : VersionValue) →
            RangeAdmits union v ↔ (RangeAdmits self.now v ⊎ RangeAdmits other.now v)) }
        ensures text { IfOk result (λ union. (one another : List ℕ) → AreJoinable one another →
            AreSetsOfText one self.now → AreSetsOfText another other.now →
            AreSetsOfText (joined_text one another) union) }
        ensures holds { IfOk result IsRangeValue }
    {
        joined_texts_write_all_sets();
        Ok(Range {
            sets: self.sets.union(alloc, &other.sets)?,
        })
    }
}
