//! The versions of keys.
ghost use Rattle.std.specs.Prelude.{◌≡◌, ◌↔◌, ◌∷◌, [], IfNone, IfOk, IfSome, IsOk, IsTrue};
ghost use Rattle.semver_texts.specs.Identifier.{values_of};
ghost use Rattle.semver_keys.specs.Private.Reading.{AreIdentifiersOf, BeginsWithNoTriple, IsOfNoIdentifiers, IsOfNoPrerelease, IsPrereleaseOf, IsTripleRead};
ghost use Rattle.semver_keys.specs.VersionOfKey.{IsKeyOfRelease, IsNoKey, IsVersionOfKey};

mod identifier;
mod number;
mod text;

use identifier::{identifier_of, part_count, read_part};
use node_semver::{Identifier, Version};
use number::read_number;
use semver_texts::Triple;
use std::alloc::{AllocError, Global};

/// Returns the version of a key, or `None` if the bytes are the key of no version.
///
/// A key does not have the build, so the version has none: the version of the key of `v` is `v` without its build.
///
/// Bytes after the key, a number with more bytes than it needs and a text that is no UTF-8 give `None`. So does the key of
/// a cut that is not the key of a version.
///
/// # Errors
///
/// Returns `AllocError` if an allocation fails. Bytes that are no key can give it too, if a text before the fault was read.
///
/// # Memory
///
/// Allocates the list of identifiers and their texts. Does not allocate for a release. Takes time linear in the key.
///
/// # Examples
///
/// The bytes 1, 2, 3 and 255 give `1.2.3`. The bytes 1, 2, 3, 2, 114, 99, 0, 1, 4 and 0 give `1.2.3-rc.4`. The bytes 1, 2
/// and 3 give `None`, and so do 241, 9, 2, 3 and 255, since the key of 9 is one byte.
pub fn version_of_key(alloc: Global, key: &[u8]) -> Result<Option<Version>, AllocError>
    ensures version { IfOk result (λ found. IfSome found (IsVersionOfKey key.now)) }
    ensures none { IfOk result (λ found. IfNone found (IsNoKey key.now)) }
    ensures release { IsKeyOfRelease key.now → IsOk result }
{
    let Some((triple, rest)) = read_triple(key) else {
        return Ok(None);
    };
    match read_prerelease(alloc, rest)? {
        None => Ok(None),
        Some(pre_release) => Ok(Some(Version {
            major: triple.major,
            minor: triple.minor,
            patch: triple.patch,
            build: Vec::new(alloc),
            pre_release,
        })),
    }
}

// The three numbers whose keys the bytes begin with, and the rest.
fn read_triple(key: &[u8]) -> Option<(Triple, &[u8])>
    ensures read { IfSome result (λ r. IsTripleRead key.now r.0 r.1.now) }
    ensures none { IfNone result (BeginsWithNoTriple key.now) }
{
    let Some((major, after_major)) = read_number(key) else {
        return None;
    };
    let Some((minor, after_minor)) = read_number(after_major) else {
        return None;
    };
    let Some((patch, rest)) = read_number(after_minor) else {
        return None;
    };
    Some((Triple::new(major, minor, patch), rest))
}

// The prerelease whose key these bytes are: 255 is that of a release.
fn read_prerelease(alloc: Global, key: &[u8]) -> Result<Option<Vec<Identifier>>, AllocError>
    ensures read { IfOk result (λ found. IfSome found (λ v. IsPrereleaseOf key.now (values_of v.items))) }
    ensures none { IfOk result (λ found. IfNone found (IsOfNoPrerelease key.now)) }
    ensures release { key.now ≡ 255 ∷ [] → IsOk result }
{
    if is_byte(key, 255) {
        return Ok(Some(Vec::new(alloc)));
    }
    if is_byte(key, 0) {
        return Ok(None);
    }
    read_identifiers(alloc, key)
}

// The identifiers whose keys these bytes are, with the 0 that ends them.
fn read_identifiers(alloc: Global, key: &[u8]) -> Result<Option<Vec<Identifier>>, AllocError>
    ensures read { IfOk result (λ found. IfSome found (λ v. AreIdentifiersOf key.now (values_of v.items))) }
    ensures none { IfOk result (λ found. IfNone found (IsOfNoIdentifiers key.now)) }
{
    let mut identifiers = Vec::with_capacity(alloc, part_count(key))?;
    let mut rest = key;
    'parts: while let Some((part, others)) = read_part(rest) {
        match identifier_of(alloc, part)? {
            None => return Ok(None),
            Some(identifier) => identifiers.push(identifier)?,
        }
        rest = others;
    }
    if is_byte(rest, 0) {
        Ok(Some(identifiers))
    } else {
        Ok(None)
    }
}

// Returns `true` if the bytes are this one alone.
fn is_byte(bytes: &[u8], byte: u8) -> bool
    ensures { IsTrue result ↔ (bytes.now ≡ byte ∷ []) }
{
    match bytes.split_first() {
        Some((first, rest)) => *first == byte && rest.is_empty(),
        None => false,
    }
}
