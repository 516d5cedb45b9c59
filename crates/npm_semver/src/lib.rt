//! What npm's `semver` has and the Rust crate `node-semver` lacks, under npm's names: npm's own reading of ranges, strict
//! versions, `inc`, `diff`, `coerce` and the order with builds. It stands on `node_semver`, which has versions and ranges.
//!
//! [`parse_range`] reads a range as npm does, in strict or loose form. [`parse_version`] reads a strict version, and
//! [`parse_version_ref`] one that borrows its text. [`inc`] raises a version, [`diff`] says by which bump two versions differ,
//! [`coerce`] finds a version in any text, and [`compare_build`] compares versions with their builds. What a range is asked is
//! in `node_semver`: a [`Range`] that was read here is one.
//!
//! [`range_from_sets`] and [`read_identifier`] are here too, since no call of the port needs them.
//!
//! What contracts say is defined in `specs/`, here and in the crates below.
//!
//! [`Range`]: node_semver::Range
#![tactic(auto)]

mod build_order;
mod bump;
mod coercion;
mod difference;
mod given_sets;
mod identifiers;
pub mod laws;
mod range;
mod strict;

pub use build_order::compare_build;
pub use bump::{Bump, BumpError, IdentifierBase, inc};
pub use coercion::with_prerelease::coerce_with_prerelease;
pub use coercion::{CoerceOptions, coerce};
pub use difference::diff;
pub use given_sets::range_from_sets;
pub use identifiers::read_identifier;
pub use npm_sets::NpmOptions;
pub use range::parse_range;
pub use strict::{parse_version, parse_version_ref};
