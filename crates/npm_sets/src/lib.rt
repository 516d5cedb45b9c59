//! npm's own reading of range texts, as the npm package `semver` reads them.
//!
//! `semver_sets` reads a text as the Rust crate `node-semver` does. This crate reads it as npm does, in strict or in loose
//! form, and with prereleases included or not. Both use the same comparators and sets, and merge them in the same way.
//!
//! Users call the crate `node_semver`, which is built on this one. What its contracts say about npm's reading is defined
//! in `specs/` of this crate.
//!
//! See docs/DECISIONS.md, "npm's reading stands beside the crate's, and shares what lies below the words".
//! npm's reading is defined by functions over whole texts, so each text has one meaning.
#![tactic(auto)]

pub mod laws;
mod options;
mod partial;
mod piece;
pub mod read;
pub mod refused;
mod rows;
pub mod spaces;
mod words;

pub use options::NpmOptions;
