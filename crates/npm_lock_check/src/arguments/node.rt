//! The version of Node that an argument names.
//!
//! See docs/DECISIONS.md, "A shorter version of Node is the text with zeros".

use node_semver::Version;
use std::alloc::{AllocError, Global};

/// Returns the version of a text, of which the last numbers may be left out: `20` is 20.0.0, and `v20.11` is 20.11.0. `None`: the
/// text is no such version.
///
/// # Errors
///
/// An allocation failed.
///
/// # Memory
///
/// Allocates the version, and for the time of the call the text with zeros.
pub fn node_of(alloc: Global, text: &str) -> Result<Option<Version>, AllocError> {
    if let Some(version) = version_with(alloc, text, "")? {
        return Ok(Some(version));
    }
    if let Some(version) = version_with(alloc, text, ".0")? {
        return Ok(Some(version));
    }
    Ok(version_with(alloc, text, ".0.0")?)
}

/// The version of the text with these numbers after it.
fn version_with(alloc: Global, text: &str, zeros: &str) -> Result<Option<Version>, AllocError> {
    let mut whole = String::from_str(alloc, text)?;
    whole.push_str(zeros)?;
    match Version::parse(alloc, whole.as_str()) {
        Ok(version) => Ok(Some(version)),
        Err(error) if error.is_out_of_memory() => Err(AllocError),
        Err(_) => Ok(None),
    }
}
