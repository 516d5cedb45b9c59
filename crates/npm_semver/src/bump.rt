//! Raising a version: npm's `inc`.
ghost use Rattle.std.specs.Prelude.{◌≡◌, ◌⊎◌, ◌↔◌, ◌≤◌, ◌+◌, List, IsTrue, IfErr, IfOk, OnErr};
ghost use Rattle.npm_semver.specs.Bump.{HasBumpedPreRelease, IsAboveLimits, IsBumped, IsBumpedTriple, IsInLimits};
ghost use Rattle.npm_semver.specs.Bump.{identifier_seen};
ghost use Rattle.semver_texts.specs.Identifier.{values_of};
ghost use Rattle.semver_texts.specs.IdentifierValue.{IdentifierValue};
ghost use Rattle.semver_texts.specs.Version.{VersionValue};
ghost use Rattle.npm_semver.specs.declared.bump.Bump.TheVariants as Bump;
ghost use Rattle.npm_semver.specs.declared.bump.BumpError.TheVariants.{OutOfMemory};
ghost use Rattle.semver_texts.specs.declared.TheConstants.{MAX_SAFE_INTEGER};

mod identifiers;

use identifiers::{has_beginning, new_identifiers, next_identifiers};
use node_semver::Version;
use semver_texts::{Identifier, MAX_SAFE_INTEGER, Triple};
use std::alloc::{AllocError, Global};
use thiserror::Error;

/// How a version is raised: npm's release types.
///
/// # Source
///
/// The README of npm's `semver`, "Functions".
#[derive(Clone, Copy, Debug, PartialEq, Eq)]
pub enum Bump {
    /// To the next major: `2.0.0` for `1.2.3`, and for `2.0.0-rc.1`.
    Major,
    /// To a prerelease of the next major: `2.0.0-0` for `1.2.3`.
    PreMajor,
    /// To the next minor: `1.3.0` for `1.2.3`, and for `1.3.0-rc.1`.
    Minor,
    /// To a prerelease of the next minor: `1.3.0-0` for `1.2.3`.
    PreMinor,
    /// To the next patch: `1.2.4` for `1.2.3`, and for `1.2.4-rc.1`.
    Patch,
    /// To a prerelease of the next patch: `1.2.4-0` for `1.2.3`.
    PrePatch,
    /// To the next prerelease: `1.2.4-0` for `1.2.3`, and `1.2.4-rc.2` for `1.2.4-rc.1`.
    PreRelease,
    /// To the next prerelease of the same triple: `1.2.3-0` for `1.2.3`, which is lower.
    Pre,
}

/// The number that a new prerelease begins with.
///
/// # Source
///
/// The README of npm's `semver`, "Prerelease Identifier Base".
#[derive(Clone, Copy, Debug, PartialEq, Eq)]
pub enum IdentifierBase {
    /// `beta.0`
    Zero,
    /// `beta.1`
    One,
    /// `beta`
    Absent,
}

/// Why a version was not raised.
#[derive(Debug, PartialEq, Eq, Drop, Error)]
pub enum BumpError {
    /// There is neither an identifier nor a number to begin a prerelease with.
    #[error("the prerelease has no identifier")]
    NoIdentifier,
    /// The prerelease is the identifier alone, and no number is to follow it.
    #[error("the prerelease is this identifier already")]
    SameIdentifier,
    /// The number to raise is `MAX_SAFE_INTEGER` or more.
    #[error("a number is too large")]
    NumberTooLarge,
    /// An allocation failed.
    #[error("out of memory")]
    OutOfMemory,
}

impl From<AllocError> for BumpError {
    ghost from_gives = { λ _ error. error ≡ OutOfMemory };

    fn from(_error: AllocError) -> BumpError {
        BumpError::OutOfMemory
    }
}

// A number raised by one, if it is below the limit.
fn raised(number: u64) -> Result<u64, BumpError>
    ensures raised { IfOk result (λ n. (n ≡ number + 1) × (n ≤ MAX_SAFE_INTEGER)) }
    ensures refused { OnErr result (MAX_SAFE_INTEGER ≤ number) }
{
    if number < MAX_SAFE_INTEGER {
        Ok(number + 1)
    } else {
        Err(BumpError::NumberTooLarge)
    }
}

// Returns `true` if no number is above the limit.
fn is_in_limits(triple: Triple) -> bool
    ensures { IsTrue result ↔ IsInLimits triple }
{
    triple.major <= MAX_SAFE_INTEGER
        && triple.minor <= MAX_SAFE_INTEGER
        && triple.patch <= MAX_SAFE_INTEGER
}

/// Returns the version after a bump: the next major, minor, patch or prerelease. The result has no build.
///
/// A prerelease of `2.0.0` is bumped to the major `2.0.0`, and one of `1.3.0` to the minor `1.3.0`. With an identifier
/// such as `beta`, a new prerelease begins with it, and its last number is raised if it begins with it already. The
/// base is the number after the identifier.
///
/// # Errors
///
/// - `NoIdentifier` for `PreMajor`, `PreMinor`, `PrePatch`, `PreRelease` and `Pre`, if there is no identifier and the
///   base is `Absent`.
/// - `SameIdentifier` for `1.2.3-beta` to its next prerelease, with `beta` and the base `Absent`.
/// - `NumberTooLarge` if a number of the result, or the identifier to raise, would be greater than
///   `MAX_SAFE_INTEGER`.
/// - `OutOfMemory` if an allocation fails.
///
/// # Memory
///
/// Does not allocate for `Major`, `Minor` and `Patch`. Otherwise allocates the list of identifiers and their texts.
///
/// # Examples
///
/// - `1.2.3` to the next major: `2.0.0`; `2.0.0-rc.1` too.
/// - `1.2.3` to the next prerelease with `beta` and the base `Zero`: `1.2.4-beta.0`. This one: `1.2.4-beta.1`.
///
/// # Source
///
/// The README of npm's `semver`, "Functions", `inc`; "Prerelease Identifiers".
pub fn inc(
    alloc: Global,
    version: &Version,
    bump: Bump,
    identifier: Option<&Identifier>,
    base: IdentifierBase,
) -> Result<Version, BumpError>
    ensures bumped { IfOk result (IsBumped bump (identifier_seen identifier.entry) base version.now) }
    ensures refused { IfErr result (λ e. e ≡ OutOfMemory
        ⊎ ((v : VersionValue) → ¬ IsBumped bump (identifier_seen identifier.entry) base version.now v)) }
{
    let triple = bumped_triple(version, bump)?;
    if !is_in_limits(triple) {
        return Err(BumpError::NumberTooLarge);
    }
    let pre_release = bumped_pre_release(alloc, version, bump, identifier, base)?;
    Ok(Version {
        major: triple.major,
        minor: triple.minor,
        patch: triple.patch,
        build: Vec::new(alloc),
        pre_release,
    })
}

// `2.0.0` for `1.2.3`, and for `2.0.0-rc.1`
fn next_major(version: &Version) -> Result<Triple, BumpError>
    ensures numbers { IfOk result (IsBumpedTriple Bump.Major version.now) }
    ensures refused { OnErr result (IsAboveLimits Bump.Major version.now) }
{
    if version.is_prerelease() && version.minor == 0 && version.patch == 0 {
        return Ok(Triple::new(version.major, 0, 0));
    }
    Ok(Triple::new(raised(version.major)?, 0, 0))
}

// `1.3.0` for `1.2.3`, and for `1.3.0-rc.1`
fn next_minor(version: &Version) -> Result<Triple, BumpError>
    ensures numbers { IfOk result (IsBumpedTriple Bump.Minor version.now) }
    ensures refused { OnErr result (IsAboveLimits Bump.Minor version.now) }
{
    if version.is_prerelease() && version.patch == 0 {
        return Ok(Triple::new(version.major, version.minor, 0));
    }
    Ok(Triple::new(version.major, raised(version.minor)?, 0))
}

// `1.2.4` for `1.2.3`, and for `1.2.4-rc.1`
fn next_patch(version: &Version) -> Result<Triple, BumpError>
    ensures numbers { IfOk result (IsBumpedTriple Bump.Patch version.now) }
    ensures refused { OnErr result (IsAboveLimits Bump.Patch version.now) }
{
    if version.is_prerelease() {
        return Ok(version.triple());
    }
    Ok(Triple::new(version.major, version.minor, raised(version.patch)?))
}

// The numbers of the bumped version.
fn bumped_triple(version: &Version, bump: Bump) -> Result<Triple, BumpError>
    ensures numbers { IfOk result (IsBumpedTriple bump version.now) }
    ensures refused { OnErr result (IsAboveLimits bump version.now) }
{
    match bump {
        Bump::Major => next_major(version),
        Bump::PreMajor => Ok(Triple::new(raised(version.major)?, 0, 0)),
        Bump::Minor => next_minor(version),
        Bump::PreMinor => Ok(Triple::new(version.major, raised(version.minor)?, 0)),
        Bump::Patch | Bump::PreRelease => next_patch(version),
        Bump::PrePatch => Ok(Triple::new(version.major, version.minor, raised(version.patch)?)),
        Bump::Pre => Ok(version.triple()),
    }
}

// The prerelease of the bumped version.
fn bumped_pre_release(
    alloc: Global,
    version: &Version,
    bump: Bump,
    identifier: Option<&Identifier>,
    base: IdentifierBase,
) -> Result<Vec<Identifier>, BumpError>
    ensures bumped { IfOk result (λ v. HasBumpedPreRelease bump (identifier_seen identifier.entry) base
        version.now.pre_release (values_of v.items)) }
    ensures refused { IfErr result (λ e. e ≡ OutOfMemory
        ⊎ ((other : List IdentifierValue) → ¬ HasBumpedPreRelease bump (identifier_seen identifier.entry) base
        version.now.pre_release other)) }
{
    if let Bump::Major | Bump::Minor | Bump::Patch = bump {
        return Ok(Vec::new(alloc));
    }
    if !has_beginning(identifier, base) {
        return Err(BumpError::NoIdentifier);
    }
    match bump {
        Bump::PreRelease | Bump::Pre => {
            next_identifiers(alloc, &version.pre_release, identifier, base)
        }
        _ => Ok(new_identifiers(alloc, identifier, base)?),
    }
}
