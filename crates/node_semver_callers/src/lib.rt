//! Callers of `node_semver`, a task a file. Each is proved from the contracts of the calls that it makes. Take what you
//! need: copy the file, its files in `specs/` and `proofs/`, and [`Failure`] if the file names it. `node_semver_tests` has a
//! test of each.
//!
//! | task | caller |
//! |---|---|
//! | does a version satisfy a range text | [`wanted::is_wanted`] |
//! | does a change of a range let in anything new | [`change::lets_in_nothing_new`] |
//! | does a lock file's version still fit its manifest | [`lock_file::still_fits`] |
//! | the least version that a manifest allows | [`least::least_allowed`] |
//! | one range for two dependents | [`common::shared_range`] |
//! | a version for two dependents | [`both::version_for_both`] |
//! | the newest version of a list of texts | [`newest::newest`] |
//! | which installed versions an advisory's range hits | [`advisory::versions_hit`] |
//! | the least version that a range admits and an advisory of several ranges spares | [`spared::least_spared`] |
//! | does an advisory of several ranges cover a range | [`spared::is_covered`] |
//! | which texts are versions that a mirror copies, without allocating | [`mirror::keep_mirrored`] |
//! | a range from JSON, with the line and column of its error | [`package::range_of_member`] |
//! | a tree of ranges: the versions that two dependents accept and an advisory does not hit | [`tree::unhit_range`] |
#![tactic(auto)]

pub mod advisory;
pub mod both;
pub mod change;
pub mod common;
mod failure;
pub mod least;
pub mod lock_file;
pub mod mirror;
pub mod newest;
pub mod package;
pub mod signatures;
pub mod spared;
pub mod tree;
pub mod wanted;

pub use failure::Failure;
