//! The laws of versions. The functions here do nothing: the contract of each is a law.
//!
//! See docs/DECISIONS.md, "The limits are pinned by a law".
ghost use Rattle.std.specs.Prelude.{◌≡◌, ℕ, List};
ghost use Rattle.std.specs.Cmp.{IsTotalOrder};
ghost use Rattle.semver_versions.specs.BuildOrder.{version_build_cmp};
ghost use Rattle.semver_texts.specs.declared.TheConstants.{MAX_LENGTH, MAX_SAFE_INTEGER};
ghost use Rattle.semver_versions.specs.VersionLaws.{HasOneFault, HasOneReading, IsNeverBoth, IsReadOrFaulty};

pub use crate::error::{a_kind_is_always_copied, errors_are_equal_where_their_parts_are};
pub use crate::json::json_errors_are_equal_where_their_parts_are;

/// The limits of numbers and of lengths.
pub fn limits()
    ensures greatest_number { MAX_SAFE_INTEGER ≡ 9007199254740991 }
    ensures greatest_length { MAX_LENGTH ≡ 256 }
{}

/// A text is the text of at most one version.
pub fn a_version_text_has_one_reading()
    ensures only { (text : List ℕ) → HasOneReading text }
{}

/// Each text is a version text or has a fault, for which [`Version::parse`](crate::Version::parse) returns an error. It
/// never is both.
pub fn every_text_is_read_or_faulty()
    ensures one { (text : List ℕ) → IsReadOrFaulty text }
    ensures never_both { (text : List ℕ) → IsNeverBoth text }
{}

/// A text has at most one fault: one kind at one byte offset.
pub fn a_text_has_one_fault()
    ensures only { (text : List ℕ) → HasOneFault text }
{}

/// The order with builds, which [`VersionRef::compare_build`](crate::VersionRef::compare_build) returns, is total.
#[tactic(auto, using(crate::specs::Lemmas::BuildOrder::version_build_total))]
pub fn the_order_with_builds_is_total()
    ensures { IsTotalOrder version_build_cmp }
{}
