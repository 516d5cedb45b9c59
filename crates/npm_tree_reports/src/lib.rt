//! What the program says of npm's tree of folders: its packages, or what cannot be met.
//!
//! [`run`] writes the lines of the reply to a [`Question`], in a `Format`, and returns how the program ends. [`checked_tree`] returns the
//! tree, which is checked before.
#![tactic(auto)]

mod blame;
mod checked;
mod conflict;
mod documents;
mod exclusion;
mod json;
mod lines;
mod names;
mod notes;
mod question;
mod reply;
mod smallest;
mod told;
mod tree_error;

pub use checked::checked_tree;
pub use question::Question;
pub use reply::run;
pub use tree_error::TreeError;

/// The result of what fails by memory alone, if no other error is named.
type Result<T, E = std::alloc::AllocError> = std::result::Result<T, E>;
