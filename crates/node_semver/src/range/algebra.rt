//! The intersection of two ranges, and questions about two ranges.

ghost use Rattle.std.specs.Prelude.{◌≡◌, ◌≢◌, ◌⊎◌, ◌↔◌, List, [], IfOk, IfSome, IsNone, IsSome, IsTrue};
ghost use Rattle.semver_cuts.specs.declared.cut.Cut.{Cut};
ghost use Rattle.semver_cuts.specs.SpanLists.{IsInSome};
ghost use Rattle.semver_cuts.specs.CommonSpans.{common_spans};
ghost use Rattle.semver_cuts.specs.Ends.{Ends};
ghost use Rattle.semver_cuts.specs.Difference.{AreDifference};
ghost use Rattle.semver_cuts.specs.Sharing.{CoversAll, ShareCut};
ghost use Rattle.semver_texts.specs.Comparison.{version_cmp};
ghost use Rattle.semver_sets.specs.Meaning.{RangeAdmits};
ghost use Rattle.semver_sets.specs.RangeSets.{IsRangeValue};
ghost use Rattle.semver_texts.specs.Version.{IsPrerelease, VersionValue};
ghost use Rattle.node_semver.specs.RangeAlgebra.{PairAdmits, sets_of_answer};

mod difference;
mod union;

use crate::Range;
use semver_sets::set_list::gathered::Gathered;
use std::alloc::{AllocError, Global};

impl Range {
    /// Returns the intersection: the range of the cuts that both ranges contain, or `None` if they share no cut.
    ///
    /// Each set of `self`, in order, is intersected with each set of `other`, in order. Two sets give the set from the
    /// greater of their lower ends to the lesser of their upper ends, if a cut lies there. Equal ends can differ in the
    /// build: of equal lower ends, that of `other` is kept, and of equal upper ends, that of `self`.
    ///
    /// A release satisfies the intersection exactly if it satisfies both ranges. A prerelease satisfies it exactly if a
    /// set of each range contains it, and an end of one of these two sets is a prerelease of its triple. So `1.0.0-b`
    /// satisfies the intersection of `>=1.0.0-a` and `<2.0.0`, though it does not satisfy `<2.0.0`.
    ///
    /// `a.intersect(b)` and `a.difference(b)` share no cut, and together contain exactly the cuts of `a`.
    ///
    /// # Errors
    ///
    /// Returns `AllocError` if an allocation fails.
    ///
    /// # Memory
    ///
    /// Allocates the identifiers of the ends, and a list if the result has several sets.
    ///
    /// # Examples
    ///
    /// - `<1 || 3 - 4` with `0.5 - 3.5.0` is `>=0.5.0 <1.0.0||>=3.0.0 <=3.5.0`.
    /// - `>1.2.3` with `<=1.2.3` is `None`.
    /// - `>1.0.0-a` with `<1.0.0-a.0` is `>1.0.0-a <1.0.0-a.0`, which contains a cut and no version.
    pub fn intersect(&self, alloc: Global, other: &Range) -> Result<Option<Range>, AllocError>
        ensures sets { IfOk result (λ answer. sets_of_answer answer ≡ common_spans version_cmp self.now other.now) }
        ensures cuts { IfOk result (λ answer. (cut : Cut VersionValue)
            → IsInSome version_cmp (sets_of_answer answer) cut
            ↔ (IsInSome version_cmp self.now cut × IsInSome version_cmp other.now cut)) }
        ensures none { IfOk result (λ answer. IsNone answer ↔ ¬ ShareCut version_cmp self.now other.now) }
        ensures some { IfOk result (λ answer. IsSome answer ↔ ShareCut version_cmp self.now other.now) }
        ensures releases { IfOk result (λ answer. (v : VersionValue) → ¬ IsPrerelease v →
            RangeAdmits (sets_of_answer answer) v ↔ (RangeAdmits self.now v × RangeAdmits other.now v)) }
        ensures prereleases { IfOk result (λ answer. (v : VersionValue) → IsPrerelease v →
            RangeAdmits (sets_of_answer answer) v ↔ PairAdmits self.now other.now v) }
        ensures disjoint { IfOk result (λ answer. (spans : List (Ends VersionValue)) →
            AreDifference version_cmp self.now other.now spans → (cut : Cut VersionValue) →
            ¬ (IsInSome version_cmp (sets_of_answer answer) cut × IsInSome version_cmp spans cut)) }
        ensures together { IfOk result (λ answer. (spans : List (Ends VersionValue)) →
            AreDifference version_cmp self.now other.now spans → (cut : Cut VersionValue) →
            IsInSome version_cmp self.now cut
            ↔ (IsInSome version_cmp (sets_of_answer answer) cut ⊎ IsInSome version_cmp spans cut)) }
        ensures holds { IfOk result (λ answer. IfSome answer IsRangeValue) }
    {
        let mut sets = Gathered::new(alloc);
        other
            .sets
            .merged()
            .common_with(self.sets.as_slice(), &mut sets)?;
        Ok(Range::of_gathered(sets)?)
    }

    /// Returns `true` if the two ranges share a cut.
    ///
    /// `a.allows_any(b)` equals `b.allows_any(a)`, and is true exactly if `a.intersect(b)` is not `None`.
    ///
    /// No version needs to lie at the common cut: no version satisfies `>1.0.0-a <1.0.0-a.0`, and it shares its cuts
    /// with `*`.
    ///
    /// # Memory
    ///
    /// Does not allocate.
    ///
    /// # Examples
    ///
    /// `true` for `2 - 8` and `<=4.0.0`. `false` for `<1.2.3` and `>1.2.3`, and for `1.2.3` and `<1.2.3`.
    pub fn allows_any(&self, other: &Range) -> bool
        ensures shared { IsTrue result ↔ ShareCut version_cmp self.now other.now }
        ensures symmetric { IsTrue result ↔ ShareCut version_cmp other.now self.now }
        ensures intersection { IsTrue result ↔ (common_spans version_cmp self.now other.now ≢ []) }
    {
        self.sets.shares_cut(&other.sets)
    }

    /// Returns `true` if `self` contains every cut of `other`.
    ///
    /// `a.allows_all(b)` is true exactly if `b.difference(a)` is `None`. The cuts of one set of `other` can lie in
    /// several sets of `self`, if these touch or overlap.
    ///
    /// This compares cuts, not versions. A prerelease that `other` admits may not satisfy `self`: `>=1.0.0-0` contains
    /// all cuts of `^1.2.3-rc.4`, and does not admit `1.2.3-rc.4`, because no end of it is a prerelease of that triple.
    /// And `1 || 2` does not contain all cuts of `1 - 2`, but admits all its versions. [`Range::least_beyond`] compares
    /// the versions that are admitted.
    ///
    /// # Memory
    ///
    /// Does not allocate.
    ///
    /// # Examples
    ///
    /// - `2 - 8` allows `4 - 5`, and not `5 - 9`.
    /// - `1 || >=2.0.0-0` allows `>=1.5.0`, whose cuts lie in its two sets together.
    /// - `>=1.2.3` does not allow `0.1 || 1.4`, because it does not contain the cuts of `0.1`.
    /// - `<1.2.3` does not allow `<=1.2.3`.
    pub fn allows_all(&self, other: &Range) -> bool
        ensures covered { IsTrue result ↔ CoversAll version_cmp self.now other.now }
        ensures difference { (spans : List (Ends VersionValue)) → AreDifference version_cmp other.now self.now spans →
            IsTrue result ↔ (spans ≡ []) }
    {
        self.sets.merged().covers(&other.sets.merged())
    }
}
