//! The tree of folders of packages that npm would install.
//!
//! [`build`] builds it for the manifests of a project, from documents of a registry. Nothing is promised of the tree: who needs to know
//! that each dependency is met checks the finished tree, by `npm_trees`.
#![tactic(auto)]

mod answer;
mod ask;
mod attempt;
mod builder;
mod building;
mod entry;
mod finishing;
mod fits;
mod growth;
mod known;
mod learning;
mod lessons;
mod locked;
mod lookups;
mod options;
mod packages;
mod peers;
mod place;
mod pruning;
mod queue;
mod reach;
mod search;
mod seeking;
mod settling;
mod texts;
mod together;
mod tops;
mod tree;
mod trying;
mod want;
mod wants;
mod ways;

pub use answer::{Answer, Conflict, Manifest, Unmet};
pub use building::build;
pub use options::Options;

/// The result of what fails by memory alone.
type Result<T, E = std::alloc::AllocError> = std::result::Result<T, E>;
