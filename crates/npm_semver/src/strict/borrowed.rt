//! Reading a strict version that borrows its text.
ghost use Rattle.std.specs.Prelude.{IfOk, IfErr};
ghost use Rattle.npm_semver.specs.StrictVersionText.{IsStrictVersionFault, IsStrictVersionText};
ghost use Rattle.semver_texts.specs.Version.{VersionValue};
ghost use Rattle.semver_versions.specs.VersionFault.{IsBorrowedAs};

use crate::strict::written::unstrict_from;
use node_semver::{VersionFault, VersionRef};

/// Reads a version from a text in the strict form of SemVer 2.0.0, and borrows the text.
///
/// Each text that is read is read by `VersionRef::parse` too, as the same version. It begins with a digit, no number and no
/// numeric identifier of the prerelease has a zero in front, and `-` comes before the prerelease. Identifiers of the
/// build may have zeros in front. The limits of `VersionRef::parse` hold.
///
/// # Errors
///
/// A text that `VersionRef::parse` refuses too has the same fault. Every other text has the kind `Other`, at the byte offset of the
/// first number or identifier that is not strictly written:
///
/// - `v1.2.3`, ` 1.2.3` and `01.2.3`: at 0.
/// - `1.02.3`: at 2. `1.2.3a`: at 4, where the third number should stand alone.
/// - `1.2.3-01`: at 6. `1.2.3-a.01`: at 8.
///
/// # Memory
///
/// Does not allocate.
///
/// # Examples
///
/// `1.2.3`, `1.2.3-a.1+01` and `1.2.3-0a` are read. `v1.2.3` and `1.2.3-01` are not.
///
/// # Source
///
/// SemVer 2.0.0, "Backus–Naur Form Grammar for Valid SemVer Versions".
#[inline]
pub fn parse_version_ref<'a>(text: &'a str) -> Result<VersionRef<'a>, VersionFault>
    ensures found { IfOk result (λ v. IsStrictVersionText text.now v) }
    ensures only { (v : VersionValue) → IsStrictVersionText text.now v → IsBorrowedAs v result }
    ensures fault { IfErr result (λ f. IsStrictVersionFault text.now f) }
{
    let version = match VersionRef::parse(text) {
        Ok(version) => version,
        Err(fault) => return Err(fault),
    };
    match unstrict_from(text.as_bytes()) {
        None => Ok(version),
        Some(left) => Err(VersionFault::left_over(text.len() - left)),
    }
}
