//! Values that are no lock file of version 1.
ghost use Rattle.std.specs.Prelude.{◌≡◌, ℕ, List, length, option_map, true};
ghost use Rattle.std.specs.Result.{result_err};
ghost use Rattle.serde_json.specs.View.{view};
ghost use Rattle.npm_packages.specs.Folders.{is_folder};
ghost use Rattle.npm_lock.specs.VersionOne as VersionOne;
ghost use Rattle.npm_lock.specs.VersionOne.{packages_below, packages_fault, packages_named};

use crate::version_one::required_of;
use npm_packages::{
    Fault, check_package, check_specs, has_patterns, has_text_version, is_link, place_size,
};
use serde_json::Value;

/// Fails if a file of version 1 or its manifest has a fault.
pub(crate) fn check_version_one(lock: &Value, manifest: Option<&Value>) -> Result<(), Fault>
    ensures { result_err result ≡ VersionOne.version_one_fault (view lock.now)
        (option_map (λ manifest. view manifest.now) manifest.entry) }
{
    if !has_named(lock) {
        return Err(Fault::Dependencies);
    }
    check_below(lock, 0)?;
    match manifest {
        Some(manifest) => check_root_manifest(manifest),
        None => Ok(()),
    }
}

/// Fails if the manifest beside a lock file of version 1 has a fault: that which `convert` refuses. Does not allocate.
pub fn check_root_manifest(manifest: &Value) -> Result<(), Fault>
    ensures { result_err result ≡ VersionOne.manifest_fault (view manifest.now) }
{
    if !manifest.is_object() || is_link(manifest) {
        return Err(Fault::Manifest);
    }
    if !has_patterns(manifest) {
        return Err(Fault::Workspaces);
    }
    check_package(manifest)
}

/// Fails if a package below this one has a fault. Its folder has this size.
#[cycle(faults)]
fn check_below(entry: &Value, size: usize) -> Result<(), Fault>
    ensures { (folder : List ℕ) → is_folder folder ≡ true → length folder ≡ size
        → result_err result ≡ packages_fault (packages_below folder (view entry.now)) }
{
    if let Value::Object(members) = entry {
        for (key, value) in members.iter() {
            if key.as_str() == "dependencies" {
                check_named(value, size)?;
            }
        }
    }
    Ok(())
}

/// Fails if a package that `dependencies` names has a fault, or one inside it. They are in a folder of this size.
#[cycle(faults)]
fn check_named(dependencies: &Value, size: usize) -> Result<(), Fault>
    ensures { (folder : List ℕ) → is_folder folder ≡ true → length folder ≡ size
        → result_err result ≡ packages_fault (packages_named folder (view dependencies.now)) }
{
    if let Value::Object(entries) = dependencies {
        for (name, entry) in entries.iter() {
            let Some(place) = place_size(size, name.as_str()) else {
                return Err(Fault::Folder);
            };
            check_entry(entry)?;
            check_below(entry, place)?;
        }
    }
    Ok(())
}

/// Fails if this package has a fault, whatever is below it.
fn check_entry(entry: &Value) -> Result<(), Fault>
    ensures { result_err result ≡ VersionOne.entry_fault (view entry.now) }
{
    if !entry.is_object() {
        return Err(Fault::Entry);
    }
    if !has_text_version(entry) {
        return Err(Fault::PackageVersion);
    }
    if !has_named(entry) {
        return Err(Fault::Dependencies);
    }
    match required_of(entry) {
        Some(required) if !required.is_null() => check_specs(required),
        _ => Ok(()),
    }
}

/// Returns `true` if `dependencies` of an entry is an object, `null` or absent. Does not allocate.
pub fn has_named(entry: &Value) -> bool
    ensures { result ≡ VersionOne.has_named (view entry.now) }
{
    match entry.get("dependencies") {
        Some(named) => named.is_null() || named.is_object(),
        None => true,
    }
}
