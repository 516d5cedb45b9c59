//! The export of `npm_calls` for C. `bindings/c/include/npm_calls.h` declares it.
#![tactic(auto)]

mod call;
mod status;

pub use status::{OK, OUT_OF_MEMORY, REFUSED};
