//! The list of the sets of a range.
//!
//! `#[inline(always)]`: most ranges have one set, and each call is then one test and the code for that set.
//! `#[inline(never)]` keeps the code for several sets, with its stack, out of that way.
//!
//! Most ends and most ranges need no memory: one end of ten needs a box.
ghost use Rattle.std.specs.Prelude.{◌≡◌, ◌↔◌, IsTrue};
ghost use Rattle.semver_cuts.specs.Sharing.{ShareCut};
ghost use Rattle.semver_texts.specs.Comparison.{version_cmp};
ghost use Rattle.semver_sets.specs.Meaning.{RangeAdmits, RangeContains};
ghost use Rattle.semver_sets.specs.RangeSets.{sets_seen};
ghost use Rattle.semver_sets.specs.Searching.{IsShortSearch, IsShortSearchInside};

pub(crate) mod copy;
pub mod gathered;
pub mod indexed;
mod opened;
mod union;

use crate::Counts;
use crate::set::{admits, has_inside};
use crate::set_list::indexed::IndexedSets;
use semver_cuts::Span;
use semver_cuts::algebra::MergedSpans;
use semver_texts::AsVersion;
use semver_texts::end::EndVersion;

/// The sets of a range: at least one. A contract sees them as a list, `sets_seen`.
///
/// Most ranges have one set, which is stored without a list.
#[derive(Debug, Drop)]
pub enum Sets {
    /// One set.
    One(Span<EndVersion>),
    /// A list of sets.
    Many(IndexedSets),
}

impl Sets {
    /// Returns the sets as a slice.
    #[inline(always)]
    pub fn as_slice(&self) -> &[Span<EndVersion>]
        ensures { result.now ≡ sets_seen self.now }
    {
        match self {
            Sets::One(set) => std::slice::from_ref(set),
            Sets::Many(sets) => sets.as_slice(),
        }
    }

    /// Returns the sets with their merged spans.
    #[inline(always)]
    pub fn merged(&self) -> MergedSpans<'_, '_, EndVersion>
        ensures { result.list ≡ sets_seen self.now }
    {
        match self {
            Sets::One(set) => {
                let _ends = set.ends();
                MergedSpans::of_merged(std::slice::from_ref(set))
            }
            Sets::Many(sets) => sets.merged(),
        }
    }

    /// Returns `true` if some cut lies both in a set of this list and in a set of the other.
    #[inline(always)]
    pub fn shares_cut(&self, other: &Sets) -> bool
        ensures { IsTrue result ↔ ShareCut version_cmp (sets_seen self.now) (sets_seen other.now) }
    {
        match (self, other) {
            (Sets::One(set), Sets::One(other)) => set.shares_cut(other),
            _ => self.share_merged_cut(other),
        }
    }

    // Returns `true` if some cut lies both in a set of this list and in a set of the other, by one walk along the merged
    // spans of both.
    #[inline(never)]
    fn share_merged_cut(&self, other: &Sets) -> bool
        ensures { IsTrue result ↔ ShareCut version_cmp (sets_seen self.now) (sets_seen other.now) }
    {
        self.merged().shares_cut(&other.merged())
    }

    /// Returns `true` if one of the sets admits the version, and adds the comparisons that this takes to `comparisons`.
    #[inline(always)]
    pub fn admits<V: AsVersion, C: Counts>(&self, version: &V, comparisons: &mut C) -> bool
        ensures answer { IsTrue result ↔ RangeAdmits (sets_seen self.now) (V.seen version.now) }
        ensures short { IsShortSearch (sets_seen self.now) (V.seen version.now) (C.count comparisons.old)
            (C.count comparisons.new) }
    {
        match self {
            Sets::One(set) => admits(set, version, comparisons),
            Sets::Many(sets) => sets.admits(version, comparisons),
        }
    }

    /// Returns `true` if the version lies inside one of the sets, and adds the comparisons that this takes to
    /// `comparisons`.
    ///
    /// A prerelease is treated as a release is: no end has to be a prerelease of its triple.
    #[inline(always)]
    pub fn contains<V: AsVersion, C: Counts>(&self, version: &V, comparisons: &mut C) -> bool
        ensures answer { IsTrue result ↔ RangeContains (sets_seen self.now) (V.seen version.now) }
        ensures short { IsShortSearchInside (sets_seen self.now) (V.seen version.now) (C.count comparisons.old)
            (C.count comparisons.new) }
    {
        match self {
            Sets::One(set) => has_inside(set, version, comparisons),
            Sets::Many(sets) => sets.contains(version, comparisons),
        }
    }
}
