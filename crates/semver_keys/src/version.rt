//! The keys of versions.
ghost use Rattle.std.specs.Prelude.{◌≡◌, ◌++◌, IfOk, IfSome, OnErr, OnOk};
ghost use Rattle.std.specs.List.{AllByRecursion};
ghost use Rattle.semver_keys.specs.IdentifierKey.{prerelease_key};
ghost use Rattle.semver_keys.specs.NumberKey.{number_key};
ghost use Rattle.semver_keys.specs.Private.Grown.{IsGrown};
ghost use Rattle.semver_keys.specs.VersionKey as Keys;
ghost use Rattle.semver_keys.specs.VersionKey.{HasWord, HasWords};

use crate::identifier::{add_borrowed, add_identifiers};
use crate::number::{SHORT_NUMBERS, add_number};
use node_semver::{AsVersion, Version, VersionRef};
use std::alloc::{AllocError, Global};

/// A version that has a key: `Version` and `VersionRef`.
///
/// Versions that differ only in the build have the same key.
pub trait HasKey: AsVersion {
    /// Appends the part of the key that follows the three numbers.
    ///
    /// # Errors
    ///
    /// Returns `AllocError` if the buffer cannot grow. Some of the bytes can then have been appended.
    ///
    /// # Memory
    ///
    /// Allocates only to grow the buffer.
    fn add_prerelease_key(&self, key: &mut Vec<u8>) -> Result<(), AllocError>
        ensures added { OnOk result (key.new.items ≡ key.old.items ++ prerelease_key (Self.seen self.now).pre_release) }
        ensures words { OnOk result (AllByRecursion HasWord (Self.seen self.now).pre_release) }
        ensures grown { OnErr result (IsGrown key.old.items key.new.items) };
}

impl HasKey for Version {
    #[tactic(auto, using(crate::proofs::VersionSteps::version_rules))]
    fn add_prerelease_key(&self, key: &mut Vec<u8>) -> Result<(), AllocError> {
        if self.pre_release.is_empty() {
            key.push(255)?;
            return Ok(());
        }
        add_identifiers(key, &self.pre_release)
    }
}

impl<'a> HasKey for VersionRef<'a> {
    #[tactic(auto, using(crate::proofs::VersionSteps::version_rules))]
    fn add_prerelease_key(&self, key: &mut Vec<u8>) -> Result<(), AllocError> {
        let identifiers = self.pre_release();
        if identifiers.is_empty() {
            key.push(255)?;
            return Ok(());
        }
        add_borrowed(key, identifiers)
    }
}

/// Returns the key of a version.
///
/// Keys compare as bytes exactly as their versions compare. No key begins another, so a version's key followed by the byte
/// 0 lies above that key and below the key of each greater version.
///
/// # Errors
///
/// Returns `AllocError` if an allocation fails.
///
/// # Memory
///
/// Allocates the key.
///
/// # Examples
///
/// The key of `1.2.3` and of `1.2.3+build` is 1, 2, 3 and 255. That of `1.2.3-rc.4` is 1, 2, 3, 2, 114, 99, 0, 1, 4 and
/// 0, and that of `240.0.256` is 241, 240, 0, 242, 1, 0 and 255.
pub fn version_key<V: HasKey>(alloc: Global, version: &V) -> Result<Vec<u8>, AllocError>
    ensures key { IfOk result (λ key. key.items ≡ Keys.version_key (V.seen version.now)) }
    ensures words { OnOk result (HasWords (V.seen version.now)) }
{
    let mut key = Vec::new(alloc);
    add_version_key(&mut key, version)?;
    Ok(key)
}

/// Appends the key of a version to a buffer, as [`version_key`] returns it.
///
/// # Errors
///
/// Returns `AllocError` if the buffer cannot grow. The buffer then has the bytes that it had before.
///
/// # Memory
///
/// Allocates only to grow the buffer.
pub fn add_version_key<V: HasKey>(key: &mut Vec<u8>, version: &V) -> Result<(), AllocError>
    ensures added { OnOk result (key.new.items ≡ key.old.items ++ Keys.version_key (V.seen version.now)) }
    ensures words { OnOk result (HasWords (V.seen version.now)) }
    ensures unchanged { OnErr result (key.new.items ≡ key.old.items) }
{
    match short_release(version) {
        Some(bytes) => key.extend_from_slice(&bytes),
        None => add_long_key(key, version),
    }
}

// The key of a release whose three numbers are one byte each, as most versions are. `inline(always)`: four tests.
#[inline(always)]
#[tactic(auto, using(crate::proofs::VersionSteps::version_rules))]
fn short_release<V: HasKey>(version: &V) -> Option<[u8; 4]>
    ensures key { IfSome result (λ bytes. bytes ≡ Keys.version_key (V.seen version.now)) }
    ensures words { IfSome result (λ _. HasWords (V.seen version.now)) }
{
    let triple = version.triple();
    if version.is_prerelease()
        || triple.major >= SHORT_NUMBERS
        || triple.minor >= SHORT_NUMBERS
        || triple.patch >= SHORT_NUMBERS
    {
        return None;
    }
    Some([
        triple.major as u8,
        triple.minor as u8,
        triple.patch as u8,
        255,
    ])
}

// Appends the key of any version. `inline(never)`: few versions need it.
#[inline(never)]
#[tactic(auto, using(crate::proofs::VersionSteps::version_rules))]
fn add_long_key<V: HasKey>(key: &mut Vec<u8>, version: &V) -> Result<(), AllocError>
    ensures added { OnOk result (key.new.items ≡ key.old.items ++ Keys.version_key (V.seen version.now)) }
    ensures words { OnOk result (HasWords (V.seen version.now)) }
    ensures unchanged { OnErr result (key.new.items ≡ key.old.items) }
{
    let before = key.len();
    match add_parts(key, version) {
        Ok(()) => Ok(()),
        Err(error) => {
            key.truncate(before);
            Err(error)
        }
    }
}

// Appends the three numbers and what follows them.
#[tactic(auto, using(crate::proofs::VersionSteps::version_rules))]
fn add_parts<V: HasKey>(key: &mut Vec<u8>, version: &V) -> Result<(), AllocError>
    ensures added { OnOk result (key.new.items ≡ key.old.items ++ Keys.version_key (V.seen version.now)) }
    ensures words { OnOk result (HasWords (V.seen version.now)) }
    ensures grown { OnErr result (IsGrown key.old.items key.new.items) }
{
    let triple = version.triple();
    add_number(key, triple.major)?;
    add_number(key, triple.minor)?;
    add_number(key, triple.patch)?;
    version.add_prerelease_key(key)
}
