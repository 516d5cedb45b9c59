//! The laws of versions and ranges. The functions here do nothing: the contract of each is a law. Those of versions are
//! in `semver_versions`, those of range texts in `semver_sets`, and that of npm's refusals in `npm_sets`.
//!
//! See docs/DECISIONS.md, "The limits are pinned by a law".
ghost use Rattle.std.specs.Prelude.{◌≡◌, ℕ, List};
ghost use Rattle.semver_cuts.specs.Ends.{Ends};
ghost use Rattle.semver_texts.specs.Version.{VersionValue};
ghost use Rattle.semver_sets.specs.Meaning.{RangeAdmits, RangeContains};
ghost use Rattle.node_semver.specs.Least.{AdmitNoneInCommon, IsLeastCommon};
ghost use Rattle.node_semver.specs.SetTree.{AdmitInPairs, Formula, HasOneListOfSets};

pub use crate::range::ranges_are_equal_where_their_cuts_are;
pub use semver_sets::laws::{
    a_text_is_at_most_one_partial, a_text_means_its_sets, a_text_writes_one_list_of_sets,
    comparators_have_one_set, every_range_text_is_written_one_way, joined_texts_write_all_sets,
    merging_loses_nothing, prints_are_read_back,
};
pub use semver_versions::laws::{
    a_kind_is_always_copied, a_text_has_one_fault, a_version_text_has_one_reading,
    errors_are_equal_where_their_parts_are, every_text_is_read_or_faulty,
    json_errors_are_equal_where_their_parts_are, limits, the_order_with_builds_is_total,
};

/// A tree of texts has at most one list of sets, including the versions and builds of their ends.
pub fn a_tree_has_one_list_of_sets()
    ensures { (tree : Formula) → HasOneListOfSets tree }
{
    a_text_writes_one_list_of_sets();
}

/// When a `Both` tree admits a version: a set of the one side and a set of the other both contain it and, if it is a
/// prerelease, an end of one of these two sets is a prerelease of its triple.
///
/// So `Both` admits exactly the prereleases that [`Range::intersect`](crate::Range::intersect) of its sides admits.
pub fn both_sides_admit_in_pairs()
    ensures { (one other : Formula) (v : VersionValue) → AdmitInPairs one other v }
{
    a_text_writes_one_list_of_sets();
}

/// A range contains each version that satisfies it.
pub fn what_satisfies_a_range_is_contained()
    ensures { (sets : List (Ends VersionValue)) (v : VersionValue) → RangeAdmits sets v → RangeContains sets v }
{}

/// What [`Range::least_common`](crate::Range::least_common) returns is the same for two ranges in either order.
pub fn a_least_common_version_is_that_of_both_orders()
    ensures least { (sets others : List (Ends VersionValue)) (v : VersionValue) → IsLeastCommon sets others v
        → IsLeastCommon others sets v }
    ensures none { (sets others : List (Ends VersionValue)) → AdmitNoneInCommon sets others
        → AdmitNoneInCommon others sets }
{}
