//! The status that a call returns.

/// There is an answer.
pub const OK: u32 = 0;

/// The call is refused, and the answer says why.
pub const REFUSED: u32 = 1;

/// An allocation failed.
pub const OUT_OF_MEMORY: u32 = 2;
