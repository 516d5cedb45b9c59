//! How the text of a version is read.
ghost use Rattle.std.specs.Prelude.{◌≡◌, IfSome, Option};
ghost use Rattle.node_semver.specs.Ranges.{IsRangeEnd};
ghost use Rattle.node_semver.specs.Versions.{VersionValue};
ghost use Rattle.npm_advisories.specs.ReadVersions.{IsReadAs, is_read};
ghost use Rattle.npm_advisories.specs.Private.VersionTest.{is_version};

use node_semver::VersionRef;
use npm_texts::installed_version;

/// Returns what the text of a version is read as: the version that npm reads, or else the version that the text is.
///
/// # Examples
///
/// `=1.2.3` and `V1.2.3` are read as 1.2.3, and `1.2` as no version.
pub(crate) fn read_version(text: &str) -> Option<VersionRef<'_>>
    ensures read { IsReadAs text.now result }
    ensures only { (v : Option VersionValue) → IsReadAs text.now v → v ≡ result }
    ensures end { IfSome result IsRangeEnd }
{
    if let Some(version) = installed_version(text) {
        return Some(version);
    }
    match VersionRef::parse(text) {
        Ok(version) => Some(version),
        Err(_) => None,
    }
}

/// Returns `true` if the text is read as a version.
pub(crate) fn is_read(text: &str) -> bool
    ensures { result ≡ is_read is_version text.now }
{
    read_version(text).is_some()
}
