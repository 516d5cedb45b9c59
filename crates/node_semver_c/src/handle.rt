//! Handles: structs of one pointer, which C passes and never reads.
//!
//! A handle that owns its value is filled by the call that makes the value, and freed once. A handle that a call reads is
//! borrowed for that call. `specs/Handles` says what C must keep.
//!
//! A handle is a struct of one pointer: ghost fields hold its value and lifetime.

pub(crate) mod intervals;
pub(crate) mod optional;
pub(crate) mod range;
pub(crate) mod set;
pub(crate) mod version;

/// What a handle points to, as C sees it: an opaque value.
#[repr(C)]
#[derive(Drop)]
pub struct Opaque {
    byte: u8,
}
