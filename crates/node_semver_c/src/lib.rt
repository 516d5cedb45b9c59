//! Exports of `node_semver` for C. `bindings/c/include/node_semver.h` declares them.
//!
//! Exports state the clauses of the calls that they make, so a user of C reads the same theorem.
#![tactic(auto)]

mod algebra;
mod bump;
mod coerce;
mod diff;
mod greatest;
mod handle;
mod identifiers;
mod intervals;
mod keys;
pub mod laws;
mod npm;
mod pair;
mod prereleases;
mod range;
mod raw_box;
mod sets;
mod status;
mod text;
mod version;

pub use handle::Opaque;
pub use handle::intervals::{IntervalsHandle, IntervalsRef};
pub use handle::optional::OptionalVersionRef;
pub use handle::range::{RangeHandle, RangeRef};
pub use handle::set::{AFTER, BEFORE, CutHandle, CutRef, END, START, SetHandle, SetRef};
pub use handle::version::{VersionHandle, VersionRef};
pub use intervals::Intervals;
pub use status::{
    Fault, INVALID_BUMP, INVALID_IDENTIFIER, NO_IDENTIFIER, NONE, NOT_UTF8, NUMBER_TOO_LARGE, OK,
    OUT_OF_MEMORY, REFUSED, SAME_IDENTIFIER,
};
