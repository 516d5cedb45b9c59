//! The output for a lock file, before it is written.
use npm_lock_findings::Finding;

/// The output for a lock file: lines or a part of a page, or findings that have yet to be written.
#[derive(Drop)]
pub struct Output<'f> {
    pub lines: Vec<u8>,
    pub findings: Vec<Finding<'f>>,
}
