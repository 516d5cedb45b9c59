//! npm's `overrides`: the rules of a root, and what manifests ask for under them.
//!
//! [`Rules::read`] reads the rules of the root's manifest into a flat list. [`asks_of`] returns what a package asks for: each name
//! with its spec, as the nearest rule changes it, and the rules that count below the package that meets it. [`changed_of_root`]
//! finds the dependency for which npm stops with `EOVERRIDE`.
#![tactic(auto)]

mod asks;
mod below;
mod bundled;
mod chosen;
mod kind;
mod meets;
mod rule;
mod rules;

pub use asks::{Ask, asks_of, changed_of_root};
pub use kind::{Kind, Owner};
pub use rule::Rule;
pub use rules::Rules;

/// The result of what fails by memory alone.
type Result<T, E = std::alloc::AllocError> = std::result::Result<T, E>;

#[cfg(test)]
mod tests;
