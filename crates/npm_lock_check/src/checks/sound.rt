//! A lock file without a fault, or the place of its fault.
ghost use Rattle.std.specs.Prelude.{◌≡◌, IfErr, IfOk, None, OnOk, false, option_map, true};
ghost use Rattle.serde_json.specs.View.{view};
ghost use Rattle.npm_lock.specs.VersionOne as VersionOne;
ghost use Rattle.npm_lock.specs.VersionOne.{any_fault};
ghost use Rattle.npm_packages.specs.Faults.{lock_fault};
ghost use Rattle.npm_lock_check.specs.Private.Refusals.{IsLockRefused};

use crate::checks::run_error::RunError;
use npm_lock::{CheckError, SoundLock, convert, is_version_one};
use npm_lock_findings::lock_fault_place;
use serde_json::Value;
use std::alloc::Global;

/// The lock file with this text as one with `packages`, whose root is the manifest if it is of version 1. Fails if it is of version 1
/// and has a fault.
pub(crate) fn converted(
    alloc: Global,
    lock: Value,
    text: &str,
    manifest: Option<&Value>,
) -> Result<Value, RunError>
    ensures made { IfOk result (λ made. view made
        ≡ VersionOne.converted (view lock) (option_map (λ manifest. view manifest.now) manifest.entry)) }
    ensures later { IfOk result (λ made. VersionOne.is_version_one (view made) ≡ false) }
    ensures sound { IfOk result (λ made. VersionOne.is_version_one (view lock) ≡ true → lock_fault (view made) ≡ None) }
    ensures refused { IfErr result
        (IsLockRefused (view lock) (option_map (λ manifest. view manifest.now) manifest.entry)) }
{
    if !is_version_one(&lock) {
        return Ok(lock);
    }
    if let Err(error) = refuse(alloc, &lock, text, manifest) {
        return Err(error);
    }
    match convert(alloc, lock, manifest) {
        Ok(made) => Ok(made),
        // It has no fault, so an allocation failed.
        Err(_) => Err(RunError::Memory),
    }
}

/// Fails if the lock file with this text has a fault, or the manifest beside one of version 1.
fn refuse(alloc: Global, lock: &Value, text: &str, manifest: Option<&Value>) -> Result<(), RunError>
    ensures sound { OnOk result
        (any_fault (view lock.now) (option_map (λ manifest. view manifest.now) manifest.entry) ≡ None) }
    ensures refused { IfErr result
        (IsLockRefused (view lock.now) (option_map (λ manifest. view manifest.now) manifest.entry)) }
{
    match lock_fault_place(alloc, text, lock, manifest) {
        Ok(None) => Ok(()),
        Ok(Some(found)) => Err(RunError::NoLockFile(found)),
        Err(_) => Err(RunError::Memory),
    }
}

/// A lock file of version 2 or 3 with this text, if it has no fault. The place of a fault is looked up only if there is one.
pub(crate) fn sound_lock<'v>(
    alloc: Global,
    lock: &'v Value,
    text: &str,
) -> Result<SoundLock<'v>, RunError>
    requires { VersionOne.is_version_one (view lock.now) ≡ false }
    ensures file { IfOk result (λ sound. sound ≡ lock.now) }
    ensures refused { IfErr result (IsLockRefused (view lock.now) None) }
{
    match SoundLock::of(alloc, lock) {
        Ok(sound) => Ok(sound),
        Err(CheckError::Refused(_)) => Err(refuse(alloc, lock, text, None).unwrap_err()),
        Err(CheckError::Memory) => Err(RunError::Memory),
    }
}
