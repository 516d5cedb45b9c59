//! Exports on versions.
ghost use Rattle.std.specs.Prelude.{◌≡◌, ◌≢◌, ◌↔◌, IsTrue, IsUtf8, None, true};
ghost use Rattle.std.specs.Ordering.{eq_by_cmp};
ghost use Rattle.node_semver_c.specs.Answers.{IsSomeReported, IsStrictAnswer};
ghost use Rattle.node_semver_c.specs.Compared.{sign_of, version_hash};
ghost use Rattle.node_semver_c.specs.Printed.{IsPrinted};
ghost use Rattle.node_semver_c.specs.declared.status.TheConstants.{NOT_UTF8, OUT_OF_MEMORY, REFUSED};
ghost use Rattle.semver_versions.specs.BuildOrder.{BuildOrderMeans, version_build_cmp};
ghost use Rattle.semver_texts.specs.Comparison.{version_cmp};
ghost use Rattle.semver_texts.specs.Order.{OrderMeans};
ghost use Rattle.semver_texts.specs.Print.{version_text};
ghost use Rattle.semver_texts.specs.Version.{IsPrerelease, VersionValue};
ghost use Rattle.semver_versions.specs.Json.{IsVersionAnswer};

use crate::handle::version::{VersionHandle, VersionRef};
use crate::status::{Fault, NOT_UTF8, keep_version, report};
use crate::text::put;
use node_semver::Version;
use std::alloc::Global;
use std::cmp::Ordering;
use std::hash::{FoldHasher, Hash, Hasher};

/// `Version::parse`: puts the version into the handle, or reports the fault of the text.
#[unsafe(no_mangle)]
pub extern "C" fn node_semver_version_parse(
    alloc: Global,
    text: &[u8],
    version: &mut VersionHandle,
    fault: &mut Fault,
) -> u32
    requires empty { version.old.value ≡ None }
    ensures parsed { IsUtf8 text.now
        → IsSomeReported (IsVersionAnswer text.now) result version.new.value fault.new }
    ensures not_utf8 { ¬ IsUtf8 text.now → (result ≡ NOT_UTF8) × (version.new.value ≡ None) }
    ensures fault_kept { result ≢ REFUSED → result ≢ OUT_OF_MEMORY → fault.new ≡ fault.old }
{
    match std::str::from_utf8(text) {
        Ok(text) => read(alloc, text, version, fault),
        Err(_) => NOT_UTF8,
    }
}

fn read(alloc: Global, text: &str, version: &mut VersionHandle, fault: &mut Fault) -> u32
    requires { version.old.value ≡ None }
    ensures parsed { IsSomeReported (IsVersionAnswer text.now) result version.new.value fault.new }
    ensures fault_kept { result ≢ REFUSED → result ≢ OUT_OF_MEMORY → fault.new ≡ fault.old }
{
    match Version::parse(alloc, text) {
        Ok(read) => keep_version(alloc, read, version),
        Err(error) => report(&error, fault),
    }
}

/// `npm_semver::parse_version`: puts the version into the handle, or reports the fault of the text.
#[unsafe(no_mangle)]
pub extern "C" fn node_semver_version_parse_strict(
    alloc: Global,
    text: &[u8],
    version: &mut VersionHandle,
    fault: &mut Fault,
) -> u32
    requires empty { version.old.value ≡ None }
    ensures parsed { IsUtf8 text.now
        → IsSomeReported (IsStrictAnswer text.now) result version.new.value fault.new }
    ensures not_utf8 { ¬ IsUtf8 text.now → (result ≡ NOT_UTF8) × (version.new.value ≡ None) }
    ensures fault_kept { result ≢ REFUSED → result ≢ OUT_OF_MEMORY → fault.new ≡ fault.old }
{
    match std::str::from_utf8(text) {
        Ok(text) => read_strict(alloc, text, version, fault),
        Err(_) => NOT_UTF8,
    }
}

fn read_strict(alloc: Global, text: &str, version: &mut VersionHandle, fault: &mut Fault) -> u32
    requires { version.old.value ≡ None }
    ensures parsed { IsSomeReported (IsStrictAnswer text.now) result version.new.value fault.new }
    ensures fault_kept { result ≢ REFUSED → result ≢ OUT_OF_MEMORY → fault.new ≡ fault.old }
{
    match npm_semver::parse_version(alloc, text) {
        Ok(read) => keep_version(alloc, read, version),
        Err(error) => report(&error, fault),
    }
}

/// Frees a version. Does nothing for an empty handle.
#[unsafe(no_mangle)]
pub extern "C" fn node_semver_version_free(alloc: Global, version: VersionHandle) {
    version.free(alloc);
}

/// Prints a version.
#[unsafe(no_mangle)]
pub extern "C" fn node_semver_version_print(
    alloc: Global,
    version: &VersionRef,
    room: &mut [u8],
) -> usize
    ensures { IsPrinted (version_text version.now.value) room.old room.new result }
{
    put(version.get().to_string(alloc), room)
}

/// `Version::cmp`: returns -1, 0 or 1.
#[unsafe(no_mangle)]
pub extern "C" fn node_semver_version_compare(one: &VersionRef, other: &VersionRef) -> i32
    ensures answer { result ≡ sign_of (version_cmp one.now.value other.now.value) }
    ensures order { OrderMeans one.now.value other.now.value (version_cmp one.now.value other.now.value) }
{
    sign(one.get().cmp(other.get()))
}

/// `npm_semver::compare_build`: returns -1, 0 or 1.
#[unsafe(no_mangle)]
pub extern "C" fn node_semver_version_compare_build(one: &VersionRef, other: &VersionRef) -> i32
    ensures answer { result ≡ sign_of (version_build_cmp one.now.value other.now.value) }
    ensures order { BuildOrderMeans one.now.value other.now.value (version_build_cmp one.now.value other.now.value) }
{
    sign(npm_semver::compare_build(one.get(), other.get()))
}

fn sign(order: Ordering) -> i32
    ensures { result ≡ sign_of order }
{
    match order {
        Ordering::Less => -1,
        Ordering::Equal => 0,
        Ordering::Greater => 1,
    }
}

/// `Version::is_prerelease`.
#[unsafe(no_mangle)]
pub extern "C" fn node_semver_version_is_prerelease(version: &VersionRef) -> bool
    ensures { IsTrue result ↔ IsPrerelease version.now.value }
{
    version.get().is_prerelease()
}

/// Returns the first number.
#[unsafe(no_mangle)]
pub extern "C" fn node_semver_version_major(version: &VersionRef) -> u64
    ensures { result ≡ version.now.value.major }
{
    let version = version.get();
    version.major
}

/// Returns the second number.
#[unsafe(no_mangle)]
pub extern "C" fn node_semver_version_minor(version: &VersionRef) -> u64
    ensures { result ≡ version.now.value.minor }
{
    let version = version.get();
    version.minor
}

/// Returns the third number.
#[unsafe(no_mangle)]
pub extern "C" fn node_semver_version_patch(version: &VersionRef) -> u64
    ensures { result ≡ version.now.value.patch }
{
    let version = version.get();
    version.patch
}

/// Returns a hash. Equal versions have the same hash.
#[unsafe(no_mangle)]
pub extern "C" fn node_semver_version_hash(version: &VersionRef) -> u64
    ensures hash { result ≡ version_hash version.now.value }
    ensures alike { (other : VersionValue) → eq_by_cmp version_cmp version.now.value other ≡ true
        → result ≡ version_hash other }
{
    hash_of(version.get())
}

fn hash_of(version: &Version) -> u64
    ensures { result ≡ version_hash version.now }
{
    let mut hasher = FoldHasher::default();
    version.hash(&mut hasher);
    hasher.finish()
}
