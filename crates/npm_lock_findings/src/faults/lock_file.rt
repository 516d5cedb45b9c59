//! Where the fault of a lock file is.
ghost use Rattle.std.specs.Prelude.{◌≡◌, IfOk, None, option_map};
ghost use Rattle.serde_json.specs.View.{view};
ghost use Rattle.npm_lock.specs.VersionOne.{any_fault};

use crate::faults::Result;
use crate::faults::fault_path::FaultPath;
use crate::faults::package::{push_member, push_package};
use crate::faults::version_one::push_version_one;
use npm_lock::{fault_of, is_version_one};
use npm_packages::{Lock, has_format, has_patterns, is_folder, is_link, link_fault};
use serde_json::Value;
use std::alloc::Global;

/// Returns the fault of a lock file of any version, and where it is, if it has one. `check_any` of npm_lock refuses such
/// a lock file, and also one of version 1 whose manifest has a fault: see [`root_fault_path`](crate::root_fault_path).
///
/// # Errors
///
/// An allocation failed.
///
/// # Memory
///
/// Allocates the path, if there is a fault, and in a file of version 1 the folders of a package and of those around it.
pub fn lock_fault_path<'v>(alloc: Global, lock: &'v Value) -> Result<Option<FaultPath<'v>>>
    ensures { IfOk result (λ found. option_map (λ found. found.fault) found ≡ any_fault (view lock.now) None) }
{
    let Some(fault) = fault_of(alloc, lock, None) else {
        return Ok(None);
    };
    let mut names = Vec::new(alloc);
    if is_version_one(lock) {
        push_version_one(alloc, &mut names, lock)?;
    } else {
        push_later(alloc, &mut names, lock)?;
    }
    Ok(Some(FaultPath { fault, names }))
}

/// The fault of a lock file of version 2 or 3.
fn push_later<'v>(alloc: Global, names: &mut Vec<&'v str>, lock: &'v Value) -> Result<bool> {
    if !has_format(lock) {
        return push_member(names, lock, "lockfileVersion");
    }
    let Some(packages) = lock.get("packages") else {
        return Ok(true);
    };
    names.push("packages")?;
    let Value::Object(members) = packages else {
        return Ok(true);
    };
    let lock = Lock { alloc, members };
    for (folder, entry) in members.iter() {
        names.push(folder.as_str())?;
        if push_entry(lock, names, folder.as_str(), entry)? {
            return Ok(true);
        }
        names.pop();
    }
    Ok(false)
}

/// The fault of a member of `packages`.
fn push_entry<'v>(
    lock: Lock<'v>,
    names: &mut Vec<&'v str>,
    folder: &str,
    entry: &'v Value,
) -> Result<bool> {
    if !is_folder(folder) || !entry.is_object() {
        return Ok(true);
    }
    if folder.is_empty() && !has_patterns(entry) {
        return push_member(names, entry, "workspaces");
    }
    if !is_link(entry) {
        return push_package(names, entry);
    }
    match link_fault(lock, entry) {
        Some(_) => push_member(names, entry, "resolved"),
        None => Ok(false),
    }
}
