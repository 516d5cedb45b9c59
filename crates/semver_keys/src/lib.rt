//! Keys of versions: byte strings whose order as bytes is the order of versions. So every store that sorts bytes finds
//! the versions of a range by its index.
//!
//! [`version_key`] returns the key of a version, [`add_version_key`] appends it to a buffer, and [`version_of_key`] returns
//! the version of a key. [`range_intervals`] returns the intervals of a range: a version satisfies the range exactly if its key lies in an interval of its kind.
//!
//! # Examples
//!
//! The key of `1.2.3` is the bytes 1, 2, 3 and 255. That of `1.2.3-rc.4` is 1, 2, 3, 2, 114, 99, 0, 1, 4 and 0.
#![tactic(auto)]

mod cut;
mod identifier;
mod interval;
pub mod laws;
mod number;
mod read;
mod version;

/// The most bytes of the key of a version that a text writes. A text has at most 256, and that of `0.0.0a.a.a` and so on, as
/// long as it may be, has a key of so many.
pub const MAX_KEY_LENGTH: usize = 382;

pub use cut::cut_key;
pub use interval::{KeyInterval, range_intervals, range_intervals_with_prereleases};
pub use read::version_of_key;
pub use version::{HasKey, add_version_key, version_key};
