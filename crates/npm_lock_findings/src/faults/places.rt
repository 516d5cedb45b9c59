//! The fault of a file and its place, or that there is none.
ghost use Rattle.std.specs.Prelude.{◌≡◌, IfOk, option_map};
ghost use Rattle.serde_json.specs.View.{view};
ghost use Rattle.npm_lock.specs.Mismatches as Mismatches;
ghost use Rattle.npm_lock.specs.VersionOne.{any_fault};

use crate::faults::fault_place::FaultPlace;
use crate::faults::lock_file::lock_fault_path;
use crate::faults::manifest::manifest_fault_path;
use crate::faults::{Result, ShownPlace};
use npm_lock::fault_of;
use serde_json::Value;
use std::alloc::Global;

/// Returns the fault of a lock file with this text, and its place, if `check_any` of npm_lock refuses the lock file beside
/// this manifest. A fault of the manifest has no place in this text.
///
/// # Errors
///
/// An allocation failed.
///
/// # Memory
///
/// Allocates what [`lock_fault_path`](crate::lock_fault_path) and [`FaultPlace::in_text`] do.
pub fn lock_fault_place(
    alloc: Global,
    text: &str,
    lock: &Value,
    manifest: Option<&Value>,
) -> Result<Option<FaultPlace>>
    ensures { IfOk result (λ found. option_map (λ place. place.fault) found
        ≡ any_fault (view lock.now) (option_map (λ manifest. view manifest.now) manifest.entry)) }
{
    let Some(fault) = fault_of(alloc, lock, manifest) else {
        return Ok(None);
    };
    let place = match lock_fault_path(alloc, lock)? {
        Some(found) => ShownPlace::of_names(alloc, text, &found.names)?,
        None => ShownPlace::of_file(alloc),
    };
    Ok(Some(FaultPlace { fault, place }))
}

/// Returns the fault of a manifest with this text, and its place, if `mismatches_of` of npm_lock refuses the manifest.
///
/// # Errors
///
/// An allocation failed.
///
/// # Memory
///
/// Allocates what [`FaultPlace::in_text`] does, and nothing if there is no fault.
pub fn manifest_fault_place(
    alloc: Global,
    text: &str,
    manifest: &Value,
) -> Result<Option<FaultPlace>>
    ensures { IfOk result (λ found. option_map (λ place. place.fault) found
        ≡ Mismatches.manifest_fault (view manifest.now)) }
{
    match manifest_fault_path(alloc, manifest)? {
        Some(found) => Ok(Some(FaultPlace::in_text(alloc, text, &found)?)),
        None => Ok(None),
    }
}
