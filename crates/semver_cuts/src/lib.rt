//! Cuts of any total order: the places in a line of values where a span can begin or end.
//!
//! A cut is before all values, just before one, just after one, or after all. Cuts are ordered by their places:
//! `Cut::Before(3) < Cut::After(3)`, and `Cut::After(3) < Cut::Before(5)`. So the ends of a span alone say whether it
//! includes its least and its greatest value: from `Before(3)` up to `After(5)` includes 3 and 5, and from `After(3)`
//! up to `Before(5)` includes neither.
//!
//! A [`Span`] is a pair of such ends with at least one cut between them.
//!
//! [`join`] joins the spans of a list to spans that do not touch, and [`covers`] returns whether one such list contains
//! all cuts of another. The module [`algebra`] has the intersection and the difference of two lists of spans. The
//! module [`laws`] has laws of the order of cuts and of lists of spans.
#![tactic(auto)]

pub mod algebra;
mod cut;
pub mod laws;
mod span;
mod stepped;

pub use algebra::{covers, join};
pub use cut::Cut;
pub use span::Span;
pub use stepped::Stepped;
