//! The check of one lock file: its report and its output, or why it was not checked.
//!
//! [`checked_in`] reads a lock file and checks it as [`Wanted`] says. See docs/DECISIONS.md, "Several lock files are written after the
//! last one is checked".

mod check;
mod format;
mod hits;
mod kinds;
mod list_name;
mod needed;
mod output;
mod own_folder;
mod run_error;
mod sound;
mod sync;
mod wanted;
mod workspace_problems;
mod written;

pub use check::checked_in;
pub use format::Format;
pub use kinds::Kinds;
pub use list_name::{ListName, PlacedFault};
pub use output::Output;
pub use run_error::{RunError, StopError};
pub use wanted::Wanted;
