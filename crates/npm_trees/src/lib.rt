//! The finished tree of npm packages of a project, and a proved check of such a tree.
#![tactic(auto)]

mod checking;
mod folders;
mod found;
mod left_out;
mod met;
mod named;
mod place;
mod reached;
#[cfg(test)]
mod tests;
mod tree;
mod whole;

pub use checking::{Verdict, check};
pub use tree::{Ask, Document, Kind, Place, Stands, Tree};
pub use whole::manifest_in;

/// The result of what fails by memory alone.
type Result<T, E = std::alloc::AllocError> = std::result::Result<T, E>;
