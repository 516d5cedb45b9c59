//! What a manifest asks for, and which versions of a document can be chosen for it.
//!
//! [`asks_of`] returns what a manifest asks for, [`candidates_of`] the versions of a document in the order in which npm prefers them,
//! [`offered_of`] the same with the version of a lock file first, and [`meaning_of`] which of them a version, a range or a tag allows.

mod asks;
mod candidate;
mod listed;
mod locked;
mod meaning;
mod options;
mod owner;

pub use asks::{Asks, asks_of};
pub use candidate::Candidate;
pub use listed::candidates_of;
pub use locked::offered_of;
pub use meaning::{Meaning, meaning_of};
pub use options::{Omits, Options};
pub use owner::{Owner, Reach};
