//! The manifests of the root and of linked folders, beside a lock file.
ghost use Rattle.std.specs.Prelude.{◌≡◌, ◌++◌, [], List, None, IfErr, IfOk, OnOk, Some, map, option_map};
ghost use Rattle.std.specs.Fn.{FnOnceReturnsAt};
ghost use Rattle.serde_json.specs.View.{view};
ghost use Rattle.npm_lock.specs.ManifestPlace.{without_overrides};
ghost use Rattle.npm_lock.specs.Mismatches.{AreMismatches, manifest_fault};
ghost use Rattle.npm_manifest_files.specs.Linked.{linked_value, loaded_value};
ghost use Rattle.npm_lock_check.specs.Private.Refusals.{AreLinkedRefused, IsCompareRefused, IsManifestRefused, IsOneRefused};
ghost use Rattle.npm_lock_check.specs.Report.{AreAllMismatches, AreLeftMismatches, AreLoaded, IsNotLoaded, has_packages};
ghost use Rattle.npm_lock_check.specs.Report.{all_unread, as_read, has_root, is_compared, manifests_of, placed, wanted_value};
ghost use Rattle.npm_lock_reports.specs.Unread.{unread_value};

use crate::checks::run_error::RunError;
use crate::checks::wanted::Wanted;
use npm_lock::{CheckError, Fault, Mismatch, drop_overrides, mismatches_of, put_manifest};
use npm_lock_reports::{FolderName, Unread};
use npm_manifest_files::{Linked, LoadError, Loaded};
use serde_json::Value;
use std::alloc::{AllocError, Global};

/// Returns `true` if the lock file has `packages`, as one of version 2 or 3 has.
pub(crate) fn has_packages(lock: &Value) -> bool
    ensures { result ≡ has_packages (view lock.now) }
{
    lock.get("packages").is_some()
}

/// Returns `true` if the manifest and the lock file are compared.
pub(crate) fn is_compared(lock: &Value, manifest: Option<&Value>) -> bool
    ensures { result ≡ is_compared (view lock.now) (option_map (λ manifest. view manifest.now) manifest.entry) }
{
    manifest.is_some() && has_packages(lock)
}

/// Adds what the root depends on to what was not looked at, if the lock file has no root.
pub(crate) fn all_unread(lock: &Value, unread: Vec<Unread>) -> Result<Vec<Unread>, RunError>
    ensures all { IfOk result (λ all. map unread_value all.items
        ≡ all_unread (view lock.now) (map unread_value unread.items)) }
    ensures memory { IfErr result (λ error. error ≡ RunError.Memory) }
{
    if has_root(lock) {
        return Ok(unread);
    }
    let mut all = unread;
    match all.push(Unread::Root) {
        Ok(()) => Ok(all),
        Err(_) => Err(RunError::Memory),
    }
}

/// Returns `true` if the lock file says what the root depends on.
fn has_root(lock: &Value) -> bool
    ensures { result ≡ has_root (view lock.now) }
{
    match lock.get("packages") {
        Some(packages) => packages.get("").is_some(),
        None => false,
    }
}

/// Returns what `load` returns for a lock file that is compared with a manifest, and nothing for any other.
pub(crate) fn load_compared<F: FnOnce(&Value) -> Result<Loaded, LoadError>>(
    alloc: Global,
    lock: &Value,
    manifest: Option<&Value>,
    load: F,
) -> Result<Loaded, LoadError>
    requires { F.IsAlwaysCallable load }
    ensures found { IfOk result (λ made. AreLoaded (FnOnceReturnsAt F.FnOnce load) lock.now
        (option_map (λ manifest. view manifest.now) manifest.entry) (loaded_value made)) }
    ensures failed { IfErr result (λ error. IsNotLoaded (FnOnceReturnsAt F.FnOnce load) lock.now
        (option_map (λ manifest. view manifest.now) manifest.entry) error) }
{
    if is_compared(lock, manifest) {
        load(lock)
    } else {
        Ok(Loaded::nothing(alloc))
    }
}

/// Returns the lock file as npm reads it beside this manifest of the root. `overrides` stand in that alone, so without one there are none.
pub(crate) fn as_read(
    alloc: Global,
    lock: Value,
    manifest: Option<&Value>,
) -> Result<Value, AllocError>
    ensures { IfOk result (λ made. view made
        ≡ as_read (option_map (λ manifest. view manifest.now) manifest.entry) (view lock)) }
{
    match manifest {
        Some(_) => Ok(lock),
        None => plain(alloc, lock),
    }
}

/// The lock file without `overrides`.
fn plain(alloc: Global, lock: Value) -> Result<Value, AllocError>
    ensures { IfOk result (λ made. view made ≡ without_overrides (view lock)) }
{
    let mut made = lock;
    match drop_overrides(alloc, &mut made) {
        Ok(()) => Ok(made),
        Err(_) => Err(AllocError),
    }
}

/// Compares the manifests and the lock file, and puts each manifest in the place of its package. Returns the mismatches, but not
/// if their kind is left out. A lock file of version 1 stays as it is.
pub(crate) fn compare(
    alloc: Global,
    lock: &mut Value,
    linked: Vec<Linked>,
    wanted: Wanted<'_, '_>,
) -> Result<Vec<Mismatch>, RunError>
    ensures placed { OnOk result (view lock.new ≡ placed (view lock.old)
        (manifests_of (wanted_value wanted.entry).manifest (map linked_value linked.items))) }
    ensures mismatches { IfOk result (λ list. AreLeftMismatches (view lock.old)
        (manifests_of (wanted_value wanted.entry).manifest (map linked_value linked.items))
        wanted.entry.ignored.group list.items) }
    ensures refused { IfErr result (IsCompareRefused (view lock.old) (wanted_value wanted.entry).manifest
        (map linked_value linked.items)) }
{
    let Some(manifest) = wanted.manifest else {
        return Ok(Vec::new(alloc));
    };
    let mismatches = left_mismatches(alloc, lock, manifest, &linked, wanted.ignored.group)?;
    let copy = manifest.clone().map_err(|_| RunError::Memory)?;
    put_manifest(alloc, lock, "", copy).map_err(|_| RunError::Memory)?;
    place(alloc, lock, linked)?;
    Ok(mismatches)
}

/// Puts each manifest in the place of its package.
fn place(alloc: Global, lock: &mut Value, linked: Vec<Linked>) -> Result<(), RunError>
    ensures placed { OnOk result (view lock.new ≡ placed (view lock.old) (map linked_value linked.items)) }
    ensures memory { IfErr result (λ error. error ≡ RunError.Memory) }
{
    for one in linked {
        let Linked { folder, manifest } = one;
        put_manifest(alloc, lock, folder.as_str(), manifest).map_err(|_| RunError::Memory)?;
    }
    Ok(())
}

/// The mismatches that are not left out.
fn left_mismatches(
    alloc: Global,
    lock: &Value,
    manifest: &Value,
    linked: &[Linked],
    is_ignored: bool,
) -> Result<Vec<Mismatch>, RunError>
    ensures found { IfOk result (λ list. AreLeftMismatches (view lock.now)
        (manifests_of (Some (view manifest.now)) (map linked_value linked.now)) is_ignored list.items) }
    ensures refused { IfErr result (IsCompareRefused (view lock.now) (Some (view manifest.now))
        (map linked_value linked.now)) }
{
    if !has_packages(lock) {
        return Ok(Vec::new(alloc));
    }
    let mut all = root_mismatches(alloc, lock, manifest)?;
    if let Err(error) = add_linked(alloc, &mut all, lock, linked) {
        return Err(error);
    }
    if is_ignored {
        Ok(Vec::new(alloc))
    } else {
        Ok(all)
    }
}

/// The mismatches of the root's manifest.
fn root_mismatches(alloc: Global, lock: &Value, manifest: &Value) -> Result<Vec<Mismatch>, RunError>
    ensures found { IfOk result (λ list. AreMismatches (view lock.now) [] (view manifest.now) list.items) }
    ensures refused { IfErr result (IsManifestRefused (view manifest.now)) }
{
    match mismatches_of(alloc, lock, "", manifest) {
        Ok(mismatches) => Ok(mismatches),
        Err(CheckError::Refused(fault)) => Err(RunError::NoManifest(fault)),
        Err(CheckError::Memory) => Err(RunError::Memory),
    }
}

/// Adds the mismatches of the manifests of linked folders.
fn add_linked(
    alloc: Global,
    all: &mut Vec<Mismatch>,
    lock: &Value,
    linked: &[Linked],
) -> Result<(), RunError>
    ensures found { OnOk result ((list : List Mismatch)
        × AreAllMismatches (view lock.now) (map linked_value linked.now) list
        × (all.new.items ≡ all.old.items ++ list)) }
    ensures refused { IfErr result (AreLinkedRefused (map linked_value linked.now)) }
{
    for one in linked {
        let mut list = match linked_mismatches(alloc, lock, one) {
            Ok(list) => list,
            Err(error) => return Err(error),
        };
        all.append(&mut list).map_err(|_| RunError::Memory)?;
    }
    Ok(())
}

/// The mismatches of the manifest in a linked folder.
fn linked_mismatches(alloc: Global, lock: &Value, one: &Linked) -> Result<Vec<Mismatch>, RunError>
    ensures found { IfOk result (λ list. AreMismatches (view lock.now) (linked_value one.now).folder
        (linked_value one.now).manifest list.items) }
    ensures sound { OnOk result (manifest_fault (linked_value one.now).manifest ≡ None) }
    ensures refused { IfErr result (IsOneRefused (linked_value one.now)) }
{
    match mismatches_of(alloc, lock, one.folder.as_str(), &one.manifest) {
        Ok(mismatches) => Ok(mismatches),
        Err(CheckError::Refused(fault)) => Err(no_linked(alloc, one, fault)),
        Err(CheckError::Memory) => Err(RunError::Memory),
    }
}

/// The error of the manifest in a linked folder with a fault.
fn no_linked(alloc: Global, one: &Linked, fault: Fault) -> RunError
    requires { manifest_fault (linked_value one.now).manifest ≡ Some fault }
    ensures { IsOneRefused (linked_value one.now) result }
{
    match String::from_str(alloc, one.folder.as_str()) {
        Ok(text) => RunError::NoLinked(FolderName { text }, fault),
        Err(_) => RunError::Memory,
    }
}
