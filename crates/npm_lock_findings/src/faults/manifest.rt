//! Where the fault of a manifest is, `package.json`.
ghost use Rattle.std.specs.Prelude.{◌≡◌, IfOk, option_map};
ghost use Rattle.serde_json.specs.View.{view};
ghost use Rattle.npm_lock.specs.VersionOne as VersionOne;
ghost use Rattle.npm_lock.specs.Mismatches as Mismatches;

use crate::faults::Result;
use crate::faults::fault_path::FaultPath;
use crate::faults::package::{push_member, push_package};
use npm_lock::{check_manifest, check_root_manifest};
use npm_packages::{has_patterns, is_link};
use serde_json::Value;
use std::alloc::Global;

/// Returns the fault of a manifest, and where it is, if it has one. `mismatches_of` of npm_lock refuses such a manifest.
///
/// # Errors
///
/// An allocation failed.
///
/// # Memory
///
/// Allocates the path, and nothing if there is no fault.
pub fn manifest_fault_path<'v>(alloc: Global, manifest: &'v Value) -> Result<Option<FaultPath<'v>>>
    ensures { IfOk result (λ found. option_map (λ found. found.fault) found ≡ Mismatches.manifest_fault (view manifest.now)) }
{
    let Err(fault) = check_manifest(manifest) else {
        return Ok(None);
    };
    let mut names = Vec::new(alloc);
    if manifest.is_object() {
        push_package(&mut names, manifest)?;
    }
    Ok(Some(FaultPath { fault, names }))
}

/// Returns the fault of the manifest beside a lock file of version 1, and where it is, if it has one. `convert` of
/// npm_lock refuses such a manifest. It must not be a link.
///
/// # Errors
///
/// An allocation failed.
///
/// # Memory
///
/// Allocates the path, and nothing if there is no fault.
pub fn root_fault_path<'v>(alloc: Global, manifest: &'v Value) -> Result<Option<FaultPath<'v>>>
    ensures { IfOk result (λ found. option_map (λ found. found.fault) found ≡ VersionOne.manifest_fault (view manifest.now)) }
{
    let Err(fault) = check_root_manifest(manifest) else {
        return Ok(None);
    };
    let mut names = Vec::new(alloc);
    push_root(&mut names, manifest)?;
    Ok(Some(FaultPath { fault, names }))
}

/// The fault of such a manifest.
fn push_root<'v>(names: &mut Vec<&'v str>, manifest: &'v Value) -> Result<bool> {
    if !manifest.is_object() {
        return Ok(true);
    }
    if is_link(manifest) {
        return push_member(names, manifest, "link");
    }
    if !has_patterns(manifest) {
        return push_member(names, manifest, "workspaces");
    }
    push_package(names, manifest)
}
