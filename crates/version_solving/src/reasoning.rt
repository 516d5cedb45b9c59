//! Why demands of a root cannot be met together, as lines that a person can follow.
//!
//! [`reasons`] returns the lines for demands that no selection fits, as `culprits` of `version_solving` returns them. [`is_proof`]
//! says whether lines are such reasons.

mod check;
mod demands;
mod fewer;
mod known;
mod needed;
mod order;
mod path;
mod reason;
mod refute;
mod terms;
mod used;

pub use check::is_proof;
pub use reason::{Reason, Source, Term, Wish};
pub use refute::reasons;
pub use terms::{is_of, makes, name_of};
