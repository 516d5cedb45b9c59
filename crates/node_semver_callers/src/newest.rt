//! The newest version of a list of texts.

ghost use Rattle.std.specs.Prelude.{◌↔◌, IfOk, IfSome, IsNone, map};
ghost use Rattle.node_semver.specs.Versions.{VersionValue};
ghost use Rattle.node_semver_callers.specs.Newest.{AreVersionsOf, IsNewest, IsOffered};

use node_semver::{Range, Version, VersionRef, max_satisfying};
use std::alloc::{AllocError, Global};

/// Returns the newest version that one of the texts writes and the range admits, or `None` if there is none. A text that
/// is no version is passed over.
pub fn newest(alloc: Global, range: &Range, texts: &[&str]) -> Result<Option<Version>, AllocError>
    ensures newest { IfOk result (λ found. IfSome found (IsNewest range.now (map (λ t. t.now) texts.now))) }
    ensures none { IfOk result (λ found. IsNone found
        ↔ ((v : VersionValue) → ¬ IsOffered range.now (map (λ t. t.now) texts.now) v)) }
{
    let versions = versions_of(alloc, texts)?;
    match max_satisfying(&versions, range) {
        Some(newest) => Ok(Some(newest.to_version(alloc)?)),
        None => Ok(None),
    }
}

// The versions that the texts write, in their order. They borrow the texts.
fn versions_of<'a>(alloc: Global, texts: &[&'a str]) -> Result<Vec<VersionRef<'a>>, AllocError>
    ensures { IfOk result (λ versions. AreVersionsOf (map (λ t. t.now) texts.now) versions.items) }
{
    let mut versions = Vec::new(alloc);
    for text in texts {
        match VersionRef::parse(text) {
            Ok(version) => versions.push(version)?,
            Err(_) => {}
        }
    }
    Ok(versions)
}
