//! Reading a strict version, whole or borrowed from its text.
//!
//! See docs/DECISIONS.md, "A strict version is a version text that is strictly written".
ghost use Rattle.std.specs.Prelude.{◌≡◌, ◌⊎◌, [], IfOk, IfErr, IsOk};
ghost use Rattle.semver_versions.specs.Error.{IsOutOfMemory, IsReadAs};
ghost use Rattle.npm_semver.specs.StrictVersionText.{IsStrictFaultOf, IsStrictVersionText};
ghost use Rattle.semver_texts.specs.Version.{VersionValue};

use node_semver::{SemverError, Version};
use std::alloc::Global;

mod borrowed;
pub(crate) mod written;

pub use borrowed::parse_version_ref;

/// Reads a version from a text in the strict form of SemVer 2.0.0.
///
/// Each text that is read is read by `Version::parse` too, as the same version. It begins with a digit, no number and no
/// numeric identifier of the prerelease has a zero in front, and `-` comes before the prerelease. Identifiers of the
/// build may have zeros in front. The limits of `Version::parse` hold.
///
/// # Errors
///
/// A text that `Version::parse` refuses too has the same fault. Every other text has the kind `Other`, at the byte offset of the
/// first number or identifier that is not strictly written:
///
/// - `v1.2.3`, ` 1.2.3` and `01.2.3`: at 0.
/// - `1.02.3`: at 2. `1.2.3a`: at 4, where the third number should stand alone.
/// - `1.2.3-01`: at 6. `1.2.3-a.01`: at 8.
/// - any text: `OutOfMemory` at 0, with an empty text, if an allocation fails.
///
/// # Memory
///
/// Allocates as `Version::parse` does.
///
/// # Examples
///
/// `1.2.3`, `1.2.3-a.1+01` and `1.2.3-0a` are read. `v1.2.3` and `1.2.3-01` are not.
///
/// # Source
///
/// SemVer 2.0.0, "Backus–Naur Form Grammar for Valid SemVer Versions".
pub fn parse_version(alloc: Global, text: &str) -> Result<Version, SemverError>
    ensures found { IfOk result (λ v. IsStrictVersionText text.now v) }
    ensures only { (v : VersionValue) → IsStrictVersionText text.now v → IsReadAs v result }
    ensures fault { IfErr result (λ e. IsOutOfMemory e ⊎ IsStrictFaultOf text.now e) }
    // A version without prerelease and build is read without an allocation.
    ensures plain { (v : VersionValue) → IsStrictVersionText text.now v → v.pre_release ≡ []
        → v.build ≡ [] → IsOk result }
{
    match parse_version_ref(text) {
        Ok(version) => match version.to_version(alloc) {
            Ok(version) => Ok(version),
            Err(_) => Err(SemverError::out_of_memory(alloc)),
        },
        Err(fault) => Err(fault.into_error(alloc, text)),
    }
}
