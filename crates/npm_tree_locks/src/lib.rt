//! The lock file of a tree of packages: the text of a `package-lock.json` of version 3; and the folders of its places.
#![tactic(auto)]

mod collation;
mod entries;
mod marks;
mod members;
mod reach;
mod seen;
mod specs;
mod text;
mod writer;

pub use entries::{Entry, entries_of, folder_at, folders_of};
pub use text::tree_lock;

/// The result of what fails by memory alone.
type Result<T, E = std::alloc::AllocError> = std::result::Result<T, E>;
