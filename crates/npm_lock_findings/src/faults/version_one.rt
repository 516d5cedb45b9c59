//! Where the fault of a lock file of version 1 is.

use crate::faults::Result;
use crate::faults::package::{push_member, push_specs};
use npm_lock::{has_named, required_of};
use npm_packages::{has_text_version, is_folder, place_text};
use serde_json::Value;
use std::alloc::Global;

/// The fault of a lock file of version 1.
pub(crate) fn push_version_one<'v>(
    alloc: Global,
    names: &mut Vec<&'v str>,
    lock: &'v Value,
) -> Result<bool> {
    if !has_named(lock) {
        return push_member(names, lock, "dependencies");
    }
    push_below(alloc, names, lock, "")
}

/// The first fault of the packages below the one in this folder.
#[cycle(paths)]
fn push_below<'v>(
    alloc: Global,
    names: &mut Vec<&'v str>,
    entry: &'v Value,
    folder: &str,
) -> Result<bool> {
    if let Value::Object(members) = entry {
        for (key, value) in members.iter() {
            if key.as_str() == "dependencies" {
                names.push(key.as_str())?;
                if push_named(alloc, names, value, folder)? {
                    return Ok(true);
                }
                names.pop();
            }
        }
    }
    Ok(false)
}

/// The first fault of the packages that `dependencies` of the package in this folder names, and of those inside each.
#[cycle(paths)]
fn push_named<'v>(
    alloc: Global,
    names: &mut Vec<&'v str>,
    dependencies: &'v Value,
    folder: &str,
) -> Result<bool> {
    if let Value::Object(entries) = dependencies {
        for (name, entry) in entries.iter() {
            names.push(name.as_str())?;
            let place = place_text(alloc, folder, name.as_str())?;
            if !is_folder(place.as_str()) {
                return Ok(true);
            }
            if push_own(names, entry)? {
                return Ok(true);
            }
            if push_below(alloc, names, entry, place.as_str())? {
                return Ok(true);
            }
            names.pop();
        }
    }
    Ok(false)
}

/// The fault of a package, whatever is below it.
fn push_own<'v>(names: &mut Vec<&'v str>, entry: &'v Value) -> Result<bool> {
    if !entry.is_object() {
        return Ok(true);
    }
    if !has_text_version(entry) {
        return push_member(names, entry, "version");
    }
    if !has_named(entry) {
        return push_member(names, entry, "dependencies");
    }
    push_specs(names, required_of(entry), "requires")
}
