//! Which versions of a package does a mirror copy?

ghost use Rattle.std.specs.Prelude.{◌↔◌, IsTrue, map};
ghost use Rattle.node_semver_callers.specs.Mirrored.{AreMirrored, IsMirrored};

use node_semver::{Range, VersionRef};

/// Keeps the texts that are versions and satisfy the range, in their order, and removes the others. Does not allocate.
pub fn keep_mirrored(range: &Range, texts: &mut Vec<&str>)
    ensures { AreMirrored range.now (map (λ t. t.now) texts.old.items) (map (λ t. t.now) texts.new.items) }
{
    texts.retain(|text| is_mirrored(range, text));
}

/// Returns `true` if the text is a version and satisfies the range. Does not allocate.
pub fn is_mirrored(range: &Range, text: &str) -> bool
    ensures { IsTrue result ↔ IsMirrored range.now text.now }
{
    match &VersionRef::parse(text) {
        Ok(version) => range.satisfies(version),
        Err(_) => false,
    }
}
