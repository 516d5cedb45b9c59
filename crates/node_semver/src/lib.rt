//! npm's versions and version ranges, in loose mode, with the behaviour of the Rust crate `node-semver` 2.2.0.
//! `docs/DIFFERENCES.md` lists where it differs.
//!
//! [`Version::parse`] and [`Range::parse`] read texts. A [`Range`] decides which versions satisfy it and finds the
//! least of them. Two ranges have an intersection and a difference, and a [`SetTree`] nests these operations.
//!
//! Each public call has a contract, and the checker proves that its result meets the contract. The definitions in the
//! contracts are in `specs/`, here and in the crates below, and a caller names all of them from here. `./check --clauses
//! CALL` prints them. [`laws`] has what follows from the definitions alone. A call that can allocate takes the allocator as
//! an argument, or uses the one that a value holds. If an allocation fails, the call returns an error.
//!
//! # Examples
//!
//! <!-- crates/node_semver_tests/src/readme.rt -->
//!
//! ```rust
//! use node_semver::{Range, SemverErrorKind, Version};
//! use std::test::Fail;
//!
//! fn reads_a_range_and_asks_it(rt: HostRuntime) -> Result<(), Fail> {
//!     let alloc = rt.alloc();
//!     let range = Range::parse(alloc, "^1.2.3-rc.4 || >=3")?;
//!     assert!(rt; range.satisfies(&Version::parse(alloc, "1.2.3-rc.5")?));
//!     assert!(rt; range.satisfies(&Version::parse(alloc, "3.0.0")?));
//!     assert!(rt; !range.satisfies(&Version::parse(alloc, "2.0.0")?));
//!     // A prerelease of a triple at no end.
//!     assert!(rt; !range.satisfies(&Version::parse(alloc, "1.2.4-rc.6")?));
//!     let print = format!(in alloc; "{range}")?;
//!     assert_eq!(rt; print.as_str(), ">=1.2.3-rc.4 <2.0.0-0||>=3.0.0");
//!     // A fault has a kind and a byte offset.
//!     let error = Version::parse(alloc, "1.2").err().ok_or("1.2 was read")?;
//!     assert_eq!(rt; error.kind(), &SemverErrorKind::Context("version"));
//!     assert_eq!(rt; error.offset(), 3);
//!     Ok(())
//! }
//! ```
//!
//! `node_semver_callers` has a proved caller for each of several tasks.
#![tactic(auto)]

mod comparisons;
mod json;
pub mod laws;
mod range;
mod tree;

pub use comparisons::Comparisons;
pub use range::{AllOf, Range, WithPrereleases, max_satisfying, min_satisfying};
pub use semver_texts::end::EndVersion;
pub use semver_texts::{
    AsVersion, Identifier, IdentifierRef, Identifiers, MAX_LENGTH, MAX_SAFE_INTEGER, Triple,
};
pub use semver_versions::{
    Admits, JsonError, OrderedVersion, SemverError, SemverErrorKind, SourceSpan, Version,
    VersionFault, VersionRef,
};
pub use tree::SetTree;
