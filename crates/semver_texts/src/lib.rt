//! What texts of versions and of ranges have in common: identifiers, numbers and their readers, the three numbers of a
//! version, and the version at an end of a set.
//!
//! The module [`parse`] has the readers, [`identifier`] the identifiers, [`end`] the compact version at an end of a set,
//! and [`line`] prints that are written into one array. [`AsVersion`] is the trait of what ranges can be asked about.
//!
//! What a version is as a value, its order, its text and its print are defined in `specs/` of this crate. The types of
//! versions that users call are in `semver_versions`; users call the crate `node_semver`.
#![tactic(auto)]

mod as_version;
pub mod end;
pub mod identifier;
pub mod line;
pub mod parse;
mod triple;

pub use as_version::AsVersion;
pub use identifier::Identifier;
pub use identifier::borrowed::{IdentifierRef, Identifiers};
pub use triple::Triple;

/// The greatest major, minor or patch that is read from a text: 2 to the power 53, minus 1.
///
/// In the Rust crate `node-semver` 2.2.0 this constant lacks its last digit.
///
/// # Source
///
/// JavaScript's `Number.MAX_SAFE_INTEGER`.
pub const MAX_SAFE_INTEGER: u64 = 9007199254740991;

/// The greatest length of a version text, in bytes. A range text can have any length.
///
/// # Source
///
/// The Rust crate `node-semver` 2.2.0.
pub const MAX_LENGTH: usize = 256;
