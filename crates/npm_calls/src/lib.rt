//! Calls by name, as other languages make them: a JSON text in, and a JSON text out.
//!
//! [`call`] makes one of these: `pick`, `outdated`, `keep`, `resolve`, `check` and `audit`. `bindings/c/include/npm_calls.h` lists the members of
//! each, which have the names of the programs' options. What is decided is decided, and proved, by the functions that the programs call too;
//! what is said is tested by rows.
//!
//! A document is JSON, or a string with its text. `null` counts as an absent member, and a member that a call does not have is refused.
#![tactic(auto)]

mod answer;
mod asked;
mod audit;
mod call_error;
mod calls;
mod check;
mod day;
mod document;
mod exceptions;
mod fault;
mod folders;
mod lock_file;
mod manifests;
mod member;
mod omits;
mod outdated;
mod pick;
mod pick_options;
mod report;
mod resolve;
mod resolved;
mod text;

pub use answer::{Answer, answer_of};
pub use call_error::{CallError, Refusal};
pub use calls::call;

/// The result of what fails by memory alone, if no other error is named.
type Result<T, E = std::alloc::AllocError> = std::result::Result<T, E>;
