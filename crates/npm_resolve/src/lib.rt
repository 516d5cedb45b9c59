//! Versions of npm's packages that fit together.
//!
//! [`resolved`] finds them by the documents of a registry, or says what manifests ask for that cannot be met together, and why.
//! [`documents_for`] reads the documents that are needed, and [`lock_of`] returns a lock file for what is selected.
#![tactic(auto)]

mod absent;
mod answer;
mod candidates;
mod chosen;
mod conflict;
mod culprits;
mod documents;
mod explained;
mod flat_locks;
mod instance;
mod missing;
mod optional;
mod posed;
mod requests;
mod resolve;
mod rules;
mod wishes;

pub use answer::{Answer, Chosen, Resolution};
pub use candidates::{
    Asks, Candidate, Meaning, Omits, Options, Owner, Reach, asks_of, candidates_of, meaning_of,
    offered_of,
};
pub use conflict::{Conflict, Culprit, Reason, Source, Term, Wish};
pub use documents::{Document, documents_for};
pub use flat_locks::{Installed, Marks, lock_of, lock_text};
pub use resolve::resolved;
pub use version_solving::Ask;

/// The result of what fails by memory alone, if no other error is named.
type Result<T, E = std::alloc::AllocError> = std::result::Result<T, E>;
