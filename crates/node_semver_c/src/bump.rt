//! The version after a bump.
ghost use Rattle.std.specs.Prelude.{◌≡◌, ◌≢◌, MatchOption, None};
ghost use Rattle.node_semver_c.specs.Bumped as Bumped;
ghost use Rattle.node_semver_c.specs.Bumped.{IsBumpReported, IsRaised, code_of_base};
ghost use Rattle.node_semver_c.specs.Compared.{code_of_bump};
ghost use Rattle.npm_semver.specs.Bump.{IsBumped, identifier_seen};
ghost use Rattle.npm_semver.specs.declared.bump.Bump.{Bump};
ghost use Rattle.npm_semver.specs.declared.bump.IdentifierBase.{IdentifierBase};

use crate::handle::version::{VersionHandle, VersionRef};
use crate::status::{
    INVALID_BUMP, INVALID_IDENTIFIER, NO_IDENTIFIER, NUMBER_TOO_LARGE, OUT_OF_MEMORY,
    SAME_IDENTIFIER, keep_version,
};
use node_semver::{Identifier, Version};
use npm_semver::{Bump, BumpError, IdentifierBase};
use std::alloc::Global;

/// `npm_semver::inc`, by the code of the bump, the text of the identifier and the code of the base: puts the bumped version
/// into the handle. The empty text is no identifier.
#[unsafe(no_mangle)]
pub extern "C" fn node_semver_version_bump(
    alloc: Global,
    version: &VersionRef,
    bump: u32,
    identifier: &[u8],
    base: u32,
    answer: &mut VersionHandle,
) -> u32
    requires empty { answer.old.value ≡ None }
    ensures { IsBumpReported bump identifier.now base version.now.value result answer.new.value }
{
    let Some(by) = bump_of(bump) else {
        return INVALID_BUMP;
    };
    let Some(start) = base_of(base) else {
        return INVALID_BUMP;
    };
    bump_by(alloc, version.get(), by, identifier, start, answer)
}

fn bump_of(code: u32) -> Option<Bump>
    ensures { MatchOption result ((bump : Bump) → code_of_bump bump ≢ code) (λ bump. code_of_bump bump ≡ code) }
{
    match code {
        1 => Some(Bump::Major),
        2 => Some(Bump::PreMajor),
        3 => Some(Bump::Minor),
        4 => Some(Bump::PreMinor),
        5 => Some(Bump::Patch),
        6 => Some(Bump::PrePatch),
        7 => Some(Bump::PreRelease),
        8 => Some(Bump::Pre),
        _ => None,
    }
}

fn base_of(code: u32) -> Option<IdentifierBase>
    ensures { MatchOption result ((base : IdentifierBase) → code_of_base base ≢ code) (λ base. code_of_base base ≡ code) }
{
    match code {
        0 => Some(IdentifierBase::Zero),
        1 => Some(IdentifierBase::One),
        2 => Some(IdentifierBase::Absent),
        _ => None,
    }
}

fn bump_by(
    alloc: Global,
    version: &Version,
    bump: Bump,
    text: &[u8],
    base: IdentifierBase,
    answer: &mut VersionHandle,
) -> u32
    requires { answer.old.value ≡ None }
    ensures { IsBumpReported (code_of_bump bump) text.now (code_of_base base) version.now result answer.new.value }
{
    if text.is_empty() {
        return keep_bumped(alloc, version, bump, None, base, answer);
    }
    match npm_semver::read_identifier(alloc, text) {
        Ok(Some(identifier)) => keep_bumped(alloc, version, bump, Some(&identifier), base, answer),
        Ok(None) => INVALID_IDENTIFIER,
        Err(_) => OUT_OF_MEMORY,
    }
}

fn keep_bumped(
    alloc: Global,
    version: &Version,
    bump: Bump,
    identifier: Option<&Identifier>,
    base: IdentifierBase,
    answer: &mut VersionHandle,
) -> u32
    requires { answer.old.value ≡ None }
    ensures { IsRaised (IsBumped bump (identifier_seen identifier.entry) base version.now) result answer.new.value }
{
    match npm_semver::inc(alloc, version, bump, identifier, base) {
        Ok(bumped) => keep_version(alloc, bumped, answer),
        Err(error) => status_of(&error),
    }
}

fn status_of(error: &BumpError) -> u32
    ensures { result ≡ Bumped.status_of error.now }
{
    match error {
        BumpError::NoIdentifier => NO_IDENTIFIER,
        BumpError::SameIdentifier => SAME_IDENTIFIER,
        BumpError::NumberTooLarge => NUMBER_TOO_LARGE,
        BumpError::OutOfMemory => OUT_OF_MEMORY,
    }
}
