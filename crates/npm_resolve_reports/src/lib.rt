//! What a resolver says: the versions of packages that fit together, or what manifests ask for that cannot be met together.
//!
//! [`run`] writes the lines of the reply to a [`Question`], in a [`Format`], and returns how the program ends. For other languages
//! [`resolution_text`] returns the JSON object of a resolution, [`lock_lines`] a lock file, and [`unread_text`] why there is none.
#![tactic(auto)]

mod format;
mod json;
mod lock;
mod notes;
mod object_text;
mod pieces;
mod platform;
mod reasons_json;
mod reply;
mod sentence;
mod steps;
mod text;

pub use format::Format;
pub use lock::lock_lines;
pub use npm_pick_reports::{LoadError, RunError};
pub use object_text::{resolution_text, unread_text};
pub use pieces::{Piece, push_pieces};
pub use platform::Platform;
pub use reply::{Done, Ending, Question, run};

/// The result of what fails by memory alone, if no other error is named.
type Result<T, E = std::alloc::AllocError> = std::result::Result<T, E>;
