//! Texts that are wanted, and the texts that they stand for.
ghost use Rattle.std.specs.Prelude.{◌≡◌, IfOk, string_bytes};
ghost use Rattle.node_semver.specs.Versions.{version_text, without_build};
ghost use Rattle.npm_pick.specs.Wanted as Wanted;

use crate::Result;
use node_semver::VersionRef;
use npm_texts::{are_tag_bytes, trimmed};
use std::alloc::Global;

/// Returns `true` if the text can be a tag. White space around it does not count.
pub fn is_tag(text: &str) -> bool
    ensures { result ≡ Wanted.is_tag text.now }
{
    are_tag_bytes(trimmed(text))
}

/// Returns the text of a version without its build.
pub fn text_of(alloc: Global, version: &VersionRef<'_>) -> Result<String>
    ensures { IfOk result (λ text. string_bytes text ≡ version_text (without_build version.now)) }
{
    let mut version = version.to_version(alloc)?;
    version.build = Vec::new(alloc);
    format!(in alloc; "{version}")
}

/// Returns the range of a version and of all below it.
pub fn up_to(alloc: Global, key: &str) -> Result<String>
    ensures { IfOk result (λ text. string_bytes text ≡ Wanted.up_to key.now) }
{
    let mut text = String::from_str(alloc, "<=")?;
    text.push_str(key)?;
    Ok(text)
}
