//! The part of one range outside another.
//!
//! See docs/DECISIONS.md, "Difference is defined by its result".

ghost use Rattle.std.specs.Prelude.{◌≡◌, ◌⊎◌, ◌↔◌, IfOk, IfSome, IsNone};
ghost use Rattle.semver_cuts.specs.declared.cut.Cut.{Cut};
ghost use Rattle.semver_cuts.specs.SpanLists.{IsInSome};
ghost use Rattle.semver_cuts.specs.CommonSpans.{common_spans};
ghost use Rattle.semver_cuts.specs.Difference.{AreDifference};
ghost use Rattle.semver_cuts.specs.Sharing.{CoversAll};
ghost use Rattle.semver_texts.specs.Comparison.{version_cmp};
ghost use Rattle.semver_sets.specs.Meaning.{RangeAdmits};
ghost use Rattle.semver_sets.specs.RangeSets.{IsRangeValue};
ghost use Rattle.semver_texts.specs.Version.{IsPrerelease, VersionValue};
ghost use Rattle.node_semver.specs.RangeAlgebra.{sets_of_answer};

use crate::Range;
use semver_sets::set_list::gathered::Gathered;
use std::alloc::{AllocError, Global};

impl Range {
    /// Returns the part of `self` outside `other`: the range of the cuts that `self` contains and `other` does not, or
    /// `None` if there are none.
    ///
    /// The result has, for each set of `self` in order, the greatest pieces that lie in no set of `other`, in ascending
    /// order. If a piece begins or ends in the middle of a set of `self`, that end has the version of the set of
    /// `other` that ends or begins there, with its build. If several sets of `other` do, it is that of the first.
    ///
    /// A release satisfies the result exactly if it satisfies `self` and not `other`. `a.intersect(b)` and
    /// `a.difference(b)` share no cut, and together contain exactly the cuts of `a`.
    ///
    /// Which prereleases satisfy the result depends on its own ends. The difference of `>=1.0.0` and `>=2.0.0-a` is
    /// `>=1.0.0 <2.0.0-a`. It admits `2.0.0-0`, which `>=1.0.0` does not.
    ///
    /// # Errors
    ///
    /// Returns `AllocError` if an allocation fails.
    ///
    /// # Memory
    ///
    /// Allocates the identifiers of the ends, and a list if the result has several sets.
    ///
    /// # Examples
    ///
    /// - `>=1.2.3` without `2.0.0 || >3.0.0` is `>=1.2.3 <2.0.0||>2.0.0 <=3.0.0`.
    /// - `>=1` without `5 || 2` is `>=1.0.0 <2.0.0||>=3.0.0-0 <5.0.0||>=6.0.0-0`.
    /// - `>=1.2.3` without `>1.0.0` is `None`.
    pub fn difference(&self, alloc: Global, other: &Range) -> Result<Option<Range>, AllocError>
        ensures sets { IfOk result (λ answer. AreDifference version_cmp self.now other.now (sets_of_answer answer)) }
        ensures cuts { IfOk result (λ answer. (cut : Cut VersionValue)
            → IsInSome version_cmp (sets_of_answer answer) cut
            ↔ (IsInSome version_cmp self.now cut × ¬ IsInSome version_cmp other.now cut)) }
        ensures none { IfOk result (λ answer. IsNone answer ↔ ((cut : Cut VersionValue) →
            ¬ (IsInSome version_cmp self.now cut × ¬ IsInSome version_cmp other.now cut))) }
        ensures releases { IfOk result (λ answer. (v : VersionValue) → ¬ IsPrerelease v →
            RangeAdmits (sets_of_answer answer) v ↔ (RangeAdmits self.now v × ¬ RangeAdmits other.now v)) }
        ensures disjoint { IfOk result (λ answer. (cut : Cut VersionValue) →
            ¬ (IsInSome version_cmp (common_spans version_cmp self.now other.now) cut
            × IsInSome version_cmp (sets_of_answer answer) cut)) }
        ensures together { IfOk result (λ answer. (cut : Cut VersionValue) → IsInSome version_cmp self.now cut
            ↔ (IsInSome version_cmp (common_spans version_cmp self.now other.now) cut
            ⊎ IsInSome version_cmp (sets_of_answer answer) cut)) }
        ensures holds { IfOk result (λ answer. IfSome answer IsRangeValue) }
        ensures covered { IfOk result (λ answer. IsNone answer ↔ CoversAll version_cmp other.now self.now) }
    {
        let mut sets = Gathered::new(alloc);
        other
            .sets
            .merged()
            .subtract_from(self.sets.as_slice(), &mut sets)?;
        Ok(Range::of_gathered(sets)?)
    }
}
