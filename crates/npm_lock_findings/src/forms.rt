//! Forms of text, and the pieces that are written in them.
//!
//! A text is written by `push_plain` and `push_escape` of `bytes` alone, which write nothing that is special in a form but its escapes. What
//! is written of a byte is decided above them.

mod bytes;
mod escapes;
mod piece;
mod visible;

pub use piece::{Form, Piece, push_pieces};
pub(crate) use visible::visible;
