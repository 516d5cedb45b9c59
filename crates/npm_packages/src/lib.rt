//! The packages of a lock file, `package-lock.json`: their dependencies, and which package is found for a name.
//!
//! [`edges_of`] returns the dependencies of all packages with the package that is found for each, [`Dependents`] the range
//! texts by which other packages depend on each, and [`linked_folders`] the folders that links name. A check that goes over
//! the packages itself makes a [`SoundLock`], which has no fault, and asks [`asked_of`] and [`Lock::find`]. Who uses a lock file several
//! times makes it once.
#![tactic(auto)]

mod aliases;
mod asked;
mod dependents;
mod edges;
mod fault;
mod folder;
mod index;
mod linked;
mod overrides;
mod place;
mod places;
mod search;
mod sound_lock;

pub use aliases::Aliases;
pub use asked::{Asked, Names, accepted_of, asked_of, is_optional_peer};
pub use dependents::Dependents;
pub use edges::{Edge, edges_in, edges_of};
pub use fault::{
    CheckError, Fault, check_package, check_specs, has_format, has_patterns, has_text_version,
    link_fault, lock_of,
};
pub use folder::{is_folder, is_installed, place_size};
pub use index::{Index, end_of};
pub use linked::{linked_folders, members_of};
pub use overrides::{Rule, Rules, overridden, rules_in, rules_of};
pub use place::{Lock, Package, is_link, is_named, linked_folder, name_of, place_text, version_of};
pub use search::outermost_of;
pub use sound_lock::SoundLock;

/// The result of what fails by memory alone, if no other error is named.
type Result<T, E = std::alloc::AllocError> = std::result::Result<T, E>;
