ghost use Rattle.std.specs.Prelude.{◌≡◌, ◌⊎◌, ◌≤◌, [], IfOk, IfErr, IfSome, IsOk, length};
ghost use Rattle.semver_versions.specs.Private.VersionReading.{IsBegun};
ghost use Rattle.semver_texts.specs.Print.{version_text};
ghost use Rattle.semver_texts.specs.declared.TheConstants.{MAX_LENGTH};
ghost use Rattle.semver_texts.specs.Version.{VersionValue, release};
ghost use Rattle.semver_texts.specs.VersionText.{IsVersionText};
ghost use Rattle.semver_versions.specs.Error.{IsOutOfMemory};
ghost use Rattle.semver_versions.specs.Fault.{IsFaultOf};
ghost use Rattle.semver_versions.specs.Private.FaultViews.{IsReadFault};
ghost use Rattle.semver_versions.specs.Private.ParsedViews.{IsParsed};
ghost use Rattle.semver_texts.specs.ReadingBack.{HasText, VersionReadsBack};
ghost use Rattle.semver_versions.specs.Error.{IsReadAs};

use crate::parse::read_leading_triple;
use crate::version_ref::VersionFault;
use crate::version_ref::read::{read_numbers, read_rest};
use crate::{SemverError, Version};
use semver_texts::MAX_LENGTH;
use semver_texts::parse::Fault;
use std::alloc::Global;

impl Version {
    /// Reads a version from a text.
    ///
    /// A text is read as exactly one version, or it has exactly one fault: the first from the left. The text is read in
    /// npm's loose form. It can begin with `v` or `V` and blanks, numbers and identifiers can have leading zeros, and
    /// the `-` before a prerelease can be left out. No blank can follow. An identifier of digits that is greater than
    /// the greatest `u64` is read as a text.
    ///
    /// The print of a version that was read is read as the same version, if it has at most `MAX_LENGTH` bytes.
    ///
    /// # Errors
    ///
    /// Returns the kind of the fault and its byte offset, counted from 0:
    ///
    /// - 257 times `1`: `MaxLengthError` at 256, the last byte.
    /// - `1.`: `Context("version")` at 2, a number is missing.
    /// - `1.2`: `Context("version")` at 3, a dot is missing.
    /// - `18446744073709551616.0.0`: `ParseIntError` at 0, the number is greater than the greatest `u64`.
    /// - `1.2.9007199254740992`: `MaxIntError(9007199254740992)` at 4, the number is greater than `MAX_SAFE_INTEGER`.
    /// - `1.2.3 `: `Other` at 5, bytes are left.
    /// - any text: `OutOfMemory` at 0, with an empty text, if an allocation fails.
    ///
    /// # Memory
    ///
    /// Does not allocate for a version without prerelease and build. Otherwise allocates lists of identifiers, and the
    /// text of each identifier that is no number. An error holds a copy of the text.
    ///
    /// # Examples
    ///
    /// `1.2.3-alpha.1+5` and `v 01.2.3alpha.1+5` are read as equal versions. `1.2.3.4` is not read.
    ///
    /// # Source
    ///
    /// SemVer 2.0.0, sections 2, 9 and 10; the Rust crate `node-semver` 2.2.0.
    // `inline(always)`: with this part inlined, the usual version is built in the place of the caller's result.
    #[inline(always)]
    pub fn parse(alloc: Global, text: &str) -> Result<Version, SemverError>
        ensures found { IfOk result (λ v. IsVersionText text.now v) }
        ensures only { (v : VersionValue) → IsVersionText text.now v → IsReadAs v result }
        ensures fault { IfErr result (λ e. IsOutOfMemory e ⊎ IsFaultOf text.now e) }
        // A version without prerelease and build is read without an allocation.
        ensures plain { (v : VersionValue) → IsVersionText text.now v → v.pre_release ≡ []
            → v.build ≡ [] → IsOk result }
        // The print of a version that was read is read as the same version.
        ensures print { IfOk result VersionReadsBack }
        ensures printed { (v : VersionValue) → HasText v → version_text v ≡ text.now
            → length text.now ≤ MAX_LENGTH → IsReadAs v result }
    {
        match whole_triple(text.as_bytes()) {
            Ok((major, minor, patch)) => Ok(Version::new(alloc, major, minor, patch)),
            Err(begun) => version_in_parts(alloc, text, begun),
        }
    }
}

// Returns the numbers of `1.2.3` if that is the whole text and it is no longer than a version can be. Otherwise returns
// the part that was read, which is three numbers and the rest, or nothing. `inline(always)`: the fast path of
// `Version::parse`.
#[inline(always)]
fn whole_triple(text: &[u8]) -> Result<(u64, u64, u64), Option<((u64, u64, u64), &[u8])>>
    ensures whole { IfOk result (λ t. IsVersionText text.now (release t.0 t.1 t.2)) }
    ensures begun { IfErr result (λ begun. IfSome begun (λ t. IsBegun text.now t.0 t.1.now)) }
{
    if text.len() > MAX_LENGTH {
        return Err(None);
    }
    match read_leading_triple(text) {
        Some((triple, [])) => Ok(triple),
        begun => Err(begun),
    }
}

// The version of any text, whose triple may have been read already. `inline(always)`: one test, to choose a slow path.
#[inline(always)]
fn version_in_parts(
    alloc: Global,
    text: &str,
    begun: Option<((u64, u64, u64), &[u8])>,
) -> Result<Version, SemverError>
    requires { IfSome begun (λ t. IsBegun text.now t.0 t.1.now) }
    ensures { IsParsed text.now result }
{
    match begun {
        Some((triple, rest)) => after_triple(alloc, text, triple, rest),
        None => from_start(alloc, text),
    }
}

// The version of a text whose triple has been read.
//
// This function of one line calls a function with `#[inline(never)]`: the toolchain clears the place of a result where
// the calling function begins. Inlined into `Version::parse`, the slow path's place would be cleared for each version.
// The next function has the same reason.
#[inline(always)]
fn after_triple(
    alloc: Global,
    text: &str,
    triple: (u64, u64, u64),
    rest: &[u8],
) -> Result<Version, SemverError>
    requires { IsBegun text.now triple rest.now }
    ensures { IsParsed text.now result }
{
    version_after_triple(alloc, text, triple.0, triple.1, triple.2, rest)
}

// `inline(never)`: see `after_triple`.
#[inline(never)]
fn version_after_triple(
    alloc: Global,
    text: &str,
    major: u64,
    minor: u64,
    patch: u64,
    rest: &[u8],
) -> Result<Version, SemverError>
    requires { IsBegun text.now (major, minor, patch) rest.now }
    ensures { IsParsed text.now result }
{
    match read_rest(text, (major, minor, patch), rest) {
        Ok(version) => match version.to_version(alloc) {
            Ok(version) => Ok(version),
            Err(_) => Err(out_of_memory(alloc)),
        },
        Err(fault) => Err(refused(alloc, text, fault)),
    }
}

// Reads a text of which nothing has been read.
// `inline(always)`: see `after_triple`.
#[inline(always)]
fn from_start(alloc: Global, text: &str) -> Result<Version, SemverError>
    ensures { IsParsed text.now result }
{
    version_of_text(alloc, text)
}

// `inline(never)`: see `after_triple`.
#[inline(never)]
fn version_of_text(alloc: Global, text: &str) -> Result<Version, SemverError>
    ensures { IsParsed text.now result }
{
    match read_numbers(text.as_bytes()) {
        Ok((triple, [])) => Ok(Version::new(alloc, triple.0, triple.1, triple.2)),
        Ok((triple, rest)) => after_triple(alloc, text, triple, rest),
        Err(fault) => Err(refusal(alloc, text, fault)),
    }
}

// The error for a fault of this text. `inline(always)`: the error is built where it is returned.
#[inline(always)]
fn refusal(alloc: Global, text: &str, fault: Fault) -> SemverError
    requires { IsReadFault text.now fault }
    ensures { IsOutOfMemory result ⊎ IsFaultOf text.now result }
{
    VersionFault::of(text.as_bytes(), fault).into_error(alloc, text)
}

// `inline(always)`: see `after_triple`.
#[inline(always)]
fn refused(alloc: Global, text: &str, fault: Fault) -> SemverError
    requires { IsReadFault text.now fault }
    ensures { IsOutOfMemory result ⊎ IsFaultOf text.now result }
{
    refusal_after_triple(alloc, text, fault)
}

// The error for a text that is refused after its triple. `cold`, `inline(never)`: few texts are.
#[cold]
#[inline(never)]
fn refusal_after_triple(alloc: Global, text: &str, fault: Fault) -> SemverError
    requires { IsReadFault text.now fault }
    ensures { IsOutOfMemory result ⊎ IsFaultOf text.now result }
{
    refusal(alloc, text, fault)
}

// The error for a failed allocation. `cold`, `inline(never)`: hardly any text has it.
#[cold]
#[inline(never)]
fn out_of_memory(alloc: Global) -> SemverError
    ensures { IsOutOfMemory result }
{
    SemverError::out_of_memory(alloc)
}
