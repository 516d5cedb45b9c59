//! Checks the packages of a lock file, `package-lock.json`, against what they depend on, as `npm ls` does: a file of version 2 or 3,
//! or one of version 1, which npm 5 and 6 wrote, by the `packages` of version 3 that it means. Compares manifests, `package.json`, with it.
//!
//! `npm_packages` reads the packages and their dependencies. This crate re-exports the items of it that callers of [`check`]
//! need.
#![tactic(auto)]

mod address;
mod any_version;
mod found_workspace;
mod group;
mod identity;
mod json;
mod lock_file;
mod manifest;
mod manifest_place;
mod mismatch;
mod origin;
mod other_folder;
mod outcome;
mod pattern;
mod patterns;
mod problem;
mod source;
mod sources;
mod tarball;
mod verdict;
mod version_one;
mod version_one_fault;
mod workspace;

pub use any_version::{check_any, convert, fault_of};
pub use found_workspace::workspace_problem;
pub use group::Group;
pub use json::{Member, object_of};
pub use lock_file::{check, check_sound_lock};
pub use manifest::{check_manifest, mismatches_of};
pub use manifest_place::{drop_overrides, is_marked, member_at, put_manifest};
pub use mismatch::Mismatch;
pub use npm_packages::{
    CheckError, Dependents, Edge, Fault, SoundLock, check_package, check_specs, edges_of,
    has_text_version, is_link, linked_folders, place_text,
};
pub use other_folder::key_read_as_another;
pub use outcome::dependency_of;
pub use pattern::is_part;
pub use problem::{Dependency, Kind, PROBLEM_WORDS, Problem, Problems, Reason, Unchecked};
pub use source::{Source, SourceKind};
pub use sources::suspicious_sources;
pub use version_one::{is_version_one, required_of};
pub use version_one_fault::{check_root_manifest, has_named};
pub use workspace::{patterns_of, workspace_patterns};

/// The result of what fails by memory alone, if no other error is named.
type Result<T, E = std::alloc::AllocError> = std::result::Result<T, E>;
