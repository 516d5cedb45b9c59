//! The readers that versions and ranges share. Each reader gets the bytes that are left of a text.
//!
//! A function `read_..` returns a value and the bytes after it, and `skip_..` returns only the bytes after it. What
//! each of them computes is defined under the same name in `specs/Reading`, on lists of bytes.

pub mod extras;
mod fault;
pub mod identifiers;
pub mod listed;
pub mod number;
pub mod skip;

pub use fault::Fault;
pub use skip::{is_clean_end, skip_blanks, skip_some_blanks};
