//! The readers of a version's three numbers. What they compute is defined under the same name in
//! `specs/Private/VersionReading`, on lists of bytes.

mod triple;

pub(crate) use triple::{read_leading_triple, read_marked_triple};
