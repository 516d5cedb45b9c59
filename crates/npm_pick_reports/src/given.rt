//! The times and versions that arguments name.
use node_semver::VersionRef;
use npm_pick::parse_time;
use std::alloc::{AllocError, Global};

/// Returns the text of a version whose last numbers may be left out: `20.0.0` for `20`, and `v20.11.0` for `v20.11`. `None`: the
/// text is no such version.
pub fn version_given(alloc: Global, text: &str) -> Result<Option<String>, AllocError> {
    if let Some(whole) = version_with(alloc, text, "")? {
        return Ok(Some(whole));
    }
    if let Some(whole) = version_with(alloc, text, ".0")? {
        return Ok(Some(whole));
    }
    version_with(alloc, text, ".0.0")
}

/// The text with these numbers after it, if that is a version.
fn version_with(alloc: Global, text: &str, zeros: &str) -> Result<Option<String>, AllocError> {
    let whole = joined(alloc, text, zeros)?;
    match VersionRef::parse(whole.as_str()) {
        Ok(_) => Ok(Some(whole)),
        Err(_) => Ok(None),
    }
}

/// Returns the version of a text, if there is a text that is one.
pub fn version_of(text: &Option<String>) -> Option<VersionRef<'_>> {
    match text {
        Some(text) => VersionRef::parse(text.as_str()).ok(),
        None => None,
    }
}

/// Returns the time of a text, in which the time of the day may be left out: `2024-03-01` is the beginning of that day in UTC. It is
/// in nanoseconds since 1970-01-01T00:00:00Z. `None`: the text is no such time.
pub fn time_given(alloc: Global, text: &str) -> Result<Option<i128>, AllocError> {
    if let Some(time) = parse_time(text) {
        return Ok(Some(time));
    }
    let whole = joined(alloc, text, "T00:00:00Z")?;
    Ok(parse_time(whole.as_str()))
}

/// Two texts, one behind the other.
fn joined(alloc: Global, text: &str, end: &str) -> Result<String, AllocError> {
    let mut whole = String::from_str(alloc, text)?;
    whole.push_str(end)?;
    Ok(whole)
}
