//! Where the fault of a lock file or of a manifest is, for a person who has to mend it: the path of the member, and its line
//! and column.
//!
//! [`lock_fault_path`] returns the fault of a lock file of any version with the path of the member that it is about,
//! [`manifest_fault_path`] that of a manifest, and [`FaultPlace::in_text`] looks the path up in the text. [`lock_fault_place`] and
//! [`manifest_fault_place`] do both.

mod fault_path;
mod fault_place;
mod lock_file;
mod manifest;
mod package;
mod place;
mod places;
mod step;
mod version_one;

pub use fault_path::FaultPath;
pub use fault_place::FaultPlace;
pub use lock_file::lock_fault_path;
pub use manifest::{manifest_fault_path, root_fault_path};
pub use place::ShownPlace;
pub use places::{lock_fault_place, manifest_fault_place};
pub use step::ShownStep;

/// The result of what fails by memory alone.
pub(crate) type Result<T, E = std::alloc::AllocError> = std::result::Result<T, E>;
