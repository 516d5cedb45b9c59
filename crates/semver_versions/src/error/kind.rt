//! Why parsing a text failed.

use std::num::ParseIntError;
use thiserror::Error;

/// Why parsing a text failed.
///
/// Two kinds are equal exactly if they are the same variant with equal fields. Words are compared as texts.
///
/// # Memory
///
/// `clone` does not allocate and always returns `Ok`. `==` does not allocate.
///
/// # Examples
///
/// - `MaxIntError(7)` equals `MaxIntError(7)`, and not `MaxIntError(8)` or `Other`.
/// - `Context("version")` prints `Failed to parse version.`, and does not equal `Context("range")`.
#[derive(Debug, Clone, Drop, PartialEq, Eq, Error)]
pub enum SemverErrorKind {
    /// A version text has more than 256 bytes. The offset is that of its last byte.
    MaxLengthError,
    /// Never returned. The Rust crate of this name has this kind.
    IncompleteInput,
    /// A major, minor or patch of a version text is greater than the greatest `u64`. The offset is that of its first
    /// digit.
    ParseIntError(ParseIntError),
    /// A major, minor or patch fits `u64`, and is greater than `MAX_SAFE_INTEGER`. The offset is that of its first
    /// digit.
    MaxIntError(u64),
    /// A number or a dot is missing from a version text at the offset. The word is `version`.
    Context(&'static str),
    /// No alternative of a range text gives a set: the offset is 0. Or a word is no comparator in npm's strict form: the
    /// offset is that of the first such word.
    NoValidRanges,
    /// A version text goes on after the version: the offset is that of the first byte after it. Or `npm_semver` read a
    /// version text as a strict version, which it is not: the offset is that of the first number or identifier that is not
    /// strictly written.
    Other,
    /// An allocation failed.
    OutOfMemory,
}
