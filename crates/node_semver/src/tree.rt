//! Trees of range texts, with intersections and differences.
ghost use Rattle.std.specs.Prelude.{◌≡◌, ◌↔◌, IfOk, IfSome, IsNone};
ghost use Rattle.semver_cuts.specs.declared.cut.Cut.{Cut};
ghost use Rattle.semver_cuts.specs.declared.cut.Cut.TheVariants.{Before};
ghost use Rattle.semver_cuts.specs.SpanLists.{IsInSome};
ghost use Rattle.semver_cuts.specs.CommonSpans.{common_spans};
ghost use Rattle.semver_cuts.specs.Difference.{AreDifference};
ghost use Rattle.semver_texts.specs.Comparison.{version_cmp};
ghost use Rattle.semver_sets.specs.Meaning.{RangeAdmits};
ghost use Rattle.semver_sets.specs.Merging.{AreSetsOfText};
ghost use Rattle.semver_sets.specs.RangeSets.{IsRangeValue};
ghost use Rattle.semver_texts.specs.Version.{IsPrerelease, VersionValue};
ghost use Rattle.node_semver.specs.RangeAlgebra.{sets_of_answer};
ghost use Rattle.node_semver.specs.SetTree.{AreSetsOfTree, InFormula, formula_of};

use crate::Range;
use semver_sets::laws::every_range_text_is_written_one_way;
use std::alloc::{AllocError, Global};

/// Range texts joined by intersection and difference.
///
/// A tree is a formula on cuts, the places between versions. A text contains a cut if the cut lies in all comparators
/// of one of its alternatives that has any. A text for which [`Range::parse`] fails contains no cut: its intersection
/// with another text is empty, and the difference of another text and it is that other text.
///
/// # Memory
///
/// A tree holds its texts, and a box for each side.
///
/// # Examples
///
/// `Without` of (`Both` of `>=1` and `<3`) and `2` has the range `>=1.0.0 <2.0.0||>=3.0.0-0 <3.0.0`: `2` ends at
/// `3.0.0-0`, and `<3` at `3.0.0`.
#[derive(Drop)]
pub enum SetTree {
    /// A range text.
    Text(String),
    /// The intersection of both sides.
    Both(Box<SetTree>, Box<SetTree>),
    /// The part of the left side outside the right side.
    Without(Box<SetTree>, Box<SetTree>),
}

impl SetTree {
    /// Returns the range of all cuts of the tree, or `None` if there are none.
    ///
    /// A release satisfies the range exactly if the formula is true for it: it satisfies the text, or both sides, or
    /// the left side and not the right side.
    ///
    /// The sets are those that [`Range::parse`] reads from a text, [`Range::intersect`] returns for `Both`, and
    /// [`Range::difference`] returns for `Without`. So `1 || 1` has two sets, and `Both` of it with itself has four.
    ///
    /// Which prereleases satisfy the range depends on its own sets. So `>=1` without `>=2.0.0-a` admits `2.0.0-0`, and
    /// `>=1` does not.
    ///
    /// # Errors
    ///
    /// Returns `AllocError` if an allocation fails. If parsing a text fails for this reason, the text does not count as
    /// one that contains no cut.
    ///
    /// # Memory
    ///
    /// Allocates the ranges of the texts, and those of the sides that are joined. Each is dropped as soon as it is
    /// used. The right side is not evaluated if the left side has no cut. The stack grows with the depth of the tree.
    ///
    /// # Examples
    ///
    /// - `Both` of `1 || 3` and `>=1.5` is `>=1.5.0 <2.0.0-0||>=3.0.0 <4.0.0-0`.
    /// - `Without` of `1` and `foo` is `>=1.0.0 <2.0.0-0`. `Both` of the two is `None`, and so is `Without` of `foo`
    ///   and `1`.
    /// - `Without` of `1` and `>=0.0.0-0` is `None`.
    pub fn evaluate(&self, alloc: Global) -> Result<Option<Range>, AllocError>
        ensures sets { IfOk result (λ answer. AreSetsOfTree (formula_of self.now) (sets_of_answer answer)) }
        ensures cuts { IfOk result (λ answer. (cut : Cut VersionValue) →
            IsInSome version_cmp (sets_of_answer answer) cut ↔ InFormula (formula_of self.now) cut) }
        ensures none { IfOk result (λ answer.
            IsNone answer ↔ ((cut : Cut VersionValue) → ¬ InFormula (formula_of self.now) cut)) }
        ensures releases { IfOk result (λ answer. (v : VersionValue) → ¬ IsPrerelease v →
            RangeAdmits (sets_of_answer answer) v ↔ InFormula (formula_of self.now) (Before v)) }
        ensures holds { IfOk result (λ answer. IfSome answer IsRangeValue) }
    {
        every_range_text_is_written_one_way();
        match self {
            SetTree::Text(text) => range_of(alloc, text.as_str()),
            SetTree::Both(one, other) => match one.evaluate(alloc)? {
                Some(one) => common(alloc, one, other.evaluate(alloc)?),
                None => Ok(None),
            },
            SetTree::Without(one, other) => match one.evaluate(alloc)? {
                Some(one) => difference(alloc, one, other.evaluate(alloc)?),
                None => Ok(None),
            },
        }
    }
}

// The range of a text, or `None` if the text is not a range.
fn range_of(alloc: Global, text: &str) -> Result<Option<Range>, AllocError>
    ensures sets { IfOk result (λ answer. AreSetsOfText text.now (sets_of_answer answer)) }
    ensures holds { IfOk result (λ answer. IfSome answer IsRangeValue) }
{
    match Range::parse(alloc, text) {
        Ok(range) => Ok(Some(range)),
        Err(error) if error.is_out_of_memory() => Err(AllocError),
        Err(_) => Ok(None),
    }
}

// The intersection of a range with another, or with none.
fn common(alloc: Global, one: Range, other: Option<Range>) -> Result<Option<Range>, AllocError>
    ensures sets { IfOk result (λ answer.
        sets_of_answer answer ≡ common_spans version_cmp one (sets_of_answer other)) }
    ensures holds { IfOk result (λ answer. IfSome answer IsRangeValue) }
{
    match other {
        Some(other) => one.intersect(alloc, &other),
        None => Ok(None),
    }
}

// The part of a range outside another, or outside none.
fn difference(alloc: Global, one: Range, other: Option<Range>) -> Result<Option<Range>, AllocError>
    ensures sets { IfOk result (λ answer.
        AreDifference version_cmp one (sets_of_answer other) (sets_of_answer answer)) }
    ensures holds { IfOk result (λ answer. IfSome answer IsRangeValue) }
{
    match other {
        Some(other) => one.difference(alloc, &other),
        None => Ok(Some(one)),
    }
}
