//! Versions that fit together: a search over names, candidates and demands, without any package manager in it.
//!
//! [`solve`] returns the first candidates that fit together, or says that none do. Names, the candidates of a name and ranges
//! are numbers there. [`reasons`] returns lines that say why demands cannot be met together, and [`is_proof`] whether lines are such
//! reasons. [`by_number`] gives each name and each range of a problem of texts a number.
#![tactic(auto)]

mod agenda;
mod analysis;
mod ask;
mod blame;
mod blamed;
mod certificate;
mod change;
mod demand;
mod documents;
mod excluded;
mod lessons;
mod nogoods;
mod numbers;
mod outcome;
mod problem;
mod propagate;
mod reasoning;
mod replay;
mod ruled;
mod search;
mod seek;
mod tables;
mod told;
mod trail;
mod values;
mod wanted;
mod witness;
mod words;

pub use ask::{Ask, Asker, Listed};
pub use blame::culprits;
pub use blamed::blamed_asks;
pub use change::{Change, changes};
pub use demand::Demand;
pub use documents::{Candidate, Documents, Package, Range};
pub use outcome::{Choice, Outcome};
pub use problem::{Numbered, by_number};
pub use reasoning::{Reason, Source, Term, Wish, is_of, is_proof, makes, name_of, reasons};
pub use search::solve;
pub use wanted::Wanted;

/// The result of what fails by memory alone.
type Result<T, E = std::alloc::AllocError> = std::result::Result<T, E>;
