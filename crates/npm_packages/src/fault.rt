//! Why a lock file is not checked, and values that are none.
ghost use Rattle.std.specs.Prelude.{◌≡◌, IfErr, IfOk, None, Some, codes};
ghost use Rattle.std.specs.Result.{result_err};
ghost use Rattle.serde_json.specs.Find.{as_object, get};
ghost use Rattle.serde_json.specs.View.{view};
ghost use Rattle.npm_packages.specs.PackageValue.{packages_data};
ghost use Rattle.npm_packages.specs.Faults as Faults;

use crate::Result;
use crate::folder::is_folder;
use crate::place::{Lock, is_link};
use serde_json::Value;
use std::alloc::Global;
use thiserror::Error;

/// Why a JSON value is no lock file that is read here.
#[derive(Clone, Copy, Debug, PartialEq, Eq, Drop, Error)]
pub enum Fault {
    /// `lockfileVersion` is no version that is read: 2 and 3, and by `check_any` also 1.
    #[error("`lockfileVersion` is not 1, 2 or 3")]
    Version,
    /// `packages` is missing, or is no object.
    #[error("`packages` is no object")]
    Packages,
    /// A package has a folder that npm does not write: a part is empty, `.` or after others `..`, or has a `\`, the last one is
    /// `node_modules`, or the folder has more than 4,096 bytes.
    #[error("npm does not write the folder of a package so, or it has more than 4096 bytes")]
    Folder,
    /// `workspaces` of the root is no list of patterns, and no object with such a list as `packages`.
    #[error("`workspaces` of the root is no list")]
    Workspaces,
    /// A member of `packages` is no object.
    #[error("a member of `packages` is no object")]
    Package,
    /// In a file of version 1 a member of `dependencies` is no object.
    #[error("a member of `dependencies` is no object")]
    Entry,
    /// A manifest is no object, or that of a file of version 1 is a link.
    #[error("the manifest is no object, or has `link`")]
    Manifest,
    /// `resolved` of a link names no package of the file.
    #[error("`resolved` of a link names no package of the file")]
    Link,
    /// `version` of a package is no string.
    #[error("`version` of a package is no string")]
    PackageVersion,
    /// A group of dependencies of a package is no object.
    #[error("the dependencies of a package are no object")]
    Dependencies,
    /// The spec of a dependency is no string.
    #[error("a dependency of a package is no string")]
    Spec,
}

/// Why a lock file was not checked.
#[derive(Debug, Drop, PartialEq, Eq, Error)]
pub enum CheckError {
    /// The value is no lock file that is read here.
    #[error("{0}")]
    Refused(Fault),
    /// An allocation failed.
    #[error("out of memory")]
    Memory,
}

/// Returns the packages of a lock file. Does not allocate: `alloc` is for later calls that do.
///
/// # Errors
///
/// The value is no lock file of version 2 or 3, or a member that counts has the wrong type. The first fault is returned, of
/// the members in the order of their folders' bytes.
pub fn lock_of(alloc: Global, lock: &Value) -> Result<Lock<'_>, Fault>
    ensures sound { IfOk result (λ found. Faults.lock_fault (view lock.now) ≡ None) }
    ensures packages { IfOk result (λ found. get (codes "packages") (view lock.now) ≡ Some (packages_data found)) }
    ensures refused { IfErr result (λ fault. Faults.lock_fault (view lock.now) ≡ Some fault) }
{
    if !has_format(lock) {
        return Err(Fault::Version);
    }
    let packages = lock.get("packages").ok_or(Fault::Packages)?;
    let members = packages.as_object().ok_or(Fault::Packages)?;
    let lock = Lock { alloc, members };
    for (folder, member) in members.iter() {
        check_member(lock, folder.as_str(), member)?;
    }
    Ok(lock)
}

/// Returns `true` if `lockfileVersion` is 2 or 3. Does not allocate.
pub fn has_format(lock: &Value) -> bool
    ensures { result ≡ Faults.has_format (view lock.now) }
{
    lock.get("lockfileVersion")
        .and_then(Value::as_f64)
        .is_some_and(is_format)
}

fn is_format(number: f64) -> bool
    ensures { result ≡ Faults.is_format number }
{
    number == f64::from(2_u8) || number == f64::from(3_u8)
}

/// Fails if a member of `packages` has a fault.
fn check_member(lock: Lock<'_>, folder: &str, member: &Value) -> Result<(), Fault>
    ensures { result_err result ≡ Faults.member_fault (packages_data lock.entry) folder.now (view member.now) }
{
    if !is_folder(folder) {
        return Err(Fault::Folder);
    }
    if folder.is_empty() && !has_patterns(member) {
        return Err(Fault::Workspaces);
    }
    check_entry(lock, member)
}

/// Returns `true` if `workspaces` of the root is a list of patterns, an object with such a list as `packages`, or absent. Does
/// not allocate.
pub fn has_patterns(root: &Value) -> bool
    ensures { result ≡ Faults.has_patterns (view root.now) }
{
    root.get("workspaces").is_none_or(has_list)
}

fn has_list(said: &Value) -> bool
    ensures { result ≡ Faults.has_list (view said.now) }
{
    said.is_array() || said.get("packages").is_some_and(Value::is_array)
}

/// Fails if a member of `packages` has a fault, whatever its folder. The target of a link is a package and no link.
fn check_entry(lock: Lock<'_>, member: &Value) -> Result<(), Fault>
    ensures { result_err result ≡ Faults.entry_fault (packages_data lock.entry) (view member.now) }
{
    member.as_object().ok_or(Fault::Package)?;
    if !is_link(member) {
        return check_package(member);
    }
    match link_fault(lock, member) {
        Some(fault) => Err(fault),
        None => Ok(()),
    }
}

/// Returns the fault of a link: `resolved` names no package that is no link. Does not allocate.
pub fn link_fault(lock: Lock<'_>, link: &Value) -> Option<Fault>
    ensures { result ≡ Faults.link_fault (packages_data lock.entry) (view link.now) }
{
    match lock.target_of(link) {
        Some(target) if !is_link(target.member) => None,
        _ => Some(Fault::Link),
    }
}

/// Fails if a package that is no link has a fault.
pub fn check_package(member: &Value) -> Result<(), Fault>
    ensures { result_err result ≡ Faults.package_fault (view member.now) }
{
    if !has_text_version(member) {
        return Err(Fault::PackageVersion);
    }
    check_group(member, "peerDependencies")?;
    check_group(member, "dependencies")?;
    check_group(member, "optionalDependencies")?;
    check_group(member, "devDependencies")
}

/// Returns `true` if `version` is a string, or absent.
pub fn has_text_version(member: &Value) -> bool
    ensures { result ≡ Faults.has_text_version (view member.now) }
{
    member.get("version").is_none_or(Value::is_string)
}

/// Fails if a group of dependencies is there, and is neither `null` nor an object of strings.
fn check_group(member: &Value, group: &str) -> Result<(), Fault>
    ensures { result_err result ≡ Faults.group_fault (view member.now) group.now }
{
    let Some(group) = member.get(group) else {
        return Ok(());
    };
    if group.is_null() {
        return Ok(());
    }
    check_specs(group)
}

/// Fails if this is no object of strings.
pub fn check_specs(group: &Value) -> Result<(), Fault>
    ensures { result_err result ≡ Faults.specs_fault (as_object (view group.now)) }
{
    let specs = group.as_object().ok_or(Fault::Dependencies)?;
    for (_, spec) in specs.iter() {
        spec.as_str().ok_or(Fault::Spec)?;
    }
    Ok(())
}
