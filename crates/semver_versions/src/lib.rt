//! npm's versions: how a text is read as a version, how versions are compared, hashed, printed and stepped through, and
//! what is wrong with a text that is no version.
//!
//! Users call the crate `node_semver`, which passes on [`Version`], [`VersionRef`] and the errors. Identifiers, readers of
//! numbers and the order of triples are in `semver_texts`.
//!
//! What contracts say about version texts, their order and their faults is defined in `specs/` of this crate.
#![tactic(auto)]

mod error;
mod json;
pub mod laws;
pub mod parse;
pub mod version;
pub mod version_ref;

pub use error::{SemverError, SemverErrorKind, SourceSpan};
pub use json::JsonError;
pub use version::Version;
pub use version::admits::Admits;
pub use version::as_version::OrderedVersion;
pub use version_ref::{VersionFault, VersionRef};
