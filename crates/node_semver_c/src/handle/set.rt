//! A set of a range as C has it: two cuts, each a kind and, for two of the kinds, a version.
use crate::handle::optional::OptionalVersionRef;
use crate::handle::version::VersionHandle;

/// The kind of the cut below every version.
pub const START: u32 = 0;

/// The kind of the cut just below a version.
pub const BEFORE: u32 = 1;

/// The kind of the cut just above a version.
pub const AFTER: u32 = 2;

/// The kind of the cut above every version.
pub const END: u32 = 3;

/// A cut that a call writes. Its handle stays empty for a kind without a version.
#[repr(C)]
#[derive(Drop)]
pub struct CutHandle {
    pub kind: u32,
    pub version: VersionHandle,
}

/// A set that a call writes.
#[repr(C)]
#[derive(Drop)]
pub struct SetHandle {
    pub lower: CutHandle,
    pub upper: CutHandle,
}

/// A cut that a call reads. The handle of a kind without a version is not looked at.
#[repr(C)]
#[derive(Drop)]
pub struct CutRef {
    pub kind: u32,
    pub version: OptionalVersionRef,
}

/// A set that a call reads.
#[repr(C)]
#[derive(Drop)]
pub struct SetRef {
    pub lower: CutRef,
    pub upper: CutRef,
}
