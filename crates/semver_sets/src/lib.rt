//! The sets of versions that npm's range texts describe: how a text is read as sets, and which versions a set admits.
//!
//! A range text consists of alternatives, and an alternative of words. Each word gives a comparator. The comparators of
//! an alternative are merged into one set: a span of cuts with a version at each of its ends. The module [`read`] reads
//! texts, [`word::ends`] has the ends of one comparator, [`set`] decides which versions a set admits, and [`set_list`] finds a version among several sets.
//!
//! Users call the crate `node_semver`, which is built on this one and has ranges, their algebra and least versions. What
//! its contracts say about range texts, words and sets is defined in `specs/` of this crate; versions are in
//! `semver_texts`.
#![tactic(auto)]

mod comparisons;
pub mod laws;
pub mod line;
pub mod partial;
pub mod read;
pub mod set;
pub mod set_list;
pub mod word;

pub use comparisons::Counts;
