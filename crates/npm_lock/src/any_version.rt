//! Lock files of every version.
//!
//! See docs/DECISIONS.md, "A lock file of version 1 is converted first".
ghost use Rattle.std.specs.Prelude.{◌≡◌, ◌↔◌, IfOk, IsErrOf, OnOk, Some, option_map, true};
ghost use Rattle.serde_json.specs.View.{view};
ghost use Rattle.npm_packages.specs.Faults as Faults;
ghost use Rattle.npm_lock.specs.Findings.{IsChecked};
ghost use Rattle.npm_lock.specs.VersionOne as VersionOne;
ghost use Rattle.npm_lock.specs.VersionOne.{any_fault, converted};
ghost use Rattle.npm_packages.specs.declared.fault.Fault.{Fault};

use crate::version_one::{is_version_one, packages_of};
use crate::version_one_fault::check_version_one;
use crate::{CheckError, Fault, Problems, Result, check};
use node_semver::Version;
use npm_packages::lock_of;
use serde_json::{Map, Value, put};
use std::alloc::Global;

/// Returns the problems of a lock file of version 1, 2 or 3, as `check` does.
///
/// A file of version 1 does not say what its root depends on. That is in the manifest, `package.json`; with no manifest the
/// root has no dependencies. For a file of version 2 or 3 the manifest is not read.
///
/// # Errors
///
/// - `Refused`: the value is no lock file, or a member that counts has the wrong type, also one of a manifest that counts.
/// - `Memory`: an allocation failed.
///
/// # Memory
///
/// A file of version 1 is converted first: its packages are copied into the `packages` of version 3, with their folders.
/// A package that is n packages deep has a folder of n names. A text nests at most 128 deep, so n is at most 64.
pub fn check_any(
    alloc: Global,
    lock: &Value,
    manifest: Option<&Value>,
    node: Option<&Version>,
) -> Result<Problems, CheckError>
    ensures found { IfOk result (IsChecked
        (converted (view lock.now) (option_map (λ manifest. view manifest.now) manifest.entry))
        (option_map (λ version. version.now) node.entry)) }
    ensures refused { (fault : Fault) → IsErrOf result (CheckError.Refused fault)
        ↔ (any_fault (view lock.now) (option_map (λ manifest. view manifest.now) manifest.entry) ≡ Some fault) }
{
    if !is_version_one(lock) {
        return check(alloc, lock, node);
    }
    check_version_one(lock, manifest).map_err(CheckError::Refused)?;
    let file = file_of(alloc, lock, manifest).map_err(|_| CheckError::Memory)?;
    check(alloc, &file, node)
}

/// Returns a lock file of any version as one with `packages`: one of version 1 is converted, and another stays as it is.
///
/// The manifest becomes the root of a converted file; with no manifest the root has no dependencies. `check` then finds the
/// problems that `check_any` finds, and other calls that read `packages` read them too.
///
/// # Errors
///
/// - `Refused`: the value is a lock file of version 1, and it has a fault or a manifest with one. `check` refuses another.
/// - `Memory`: an allocation failed.
///
/// # Memory
///
/// That of `check_any` for a file of version 1. Another does not allocate.
#[tactic(auto, using(crate::proofs::Converting::same_fault, crate::proofs::Converting::stays))]
pub fn convert(alloc: Global, lock: Value, manifest: Option<&Value>) -> Result<Value, CheckError>
    ensures converted { IfOk result (λ made. view made
        ≡ converted (view lock) (option_map (λ manifest. view manifest.now) manifest.entry)) }
    ensures sound { OnOk result (Faults.lock_fault
        (converted (view lock) (option_map (λ manifest. view manifest.now) manifest.entry))
        ≡ any_fault (view lock) (option_map (λ manifest. view manifest.now) manifest.entry)) }
    ensures refused { (fault : Fault) → IsErrOf result (CheckError.Refused fault)
        ↔ (VersionOne.is_version_one (view lock) ≡ true)
        × (any_fault (view lock) (option_map (λ manifest. view manifest.now) manifest.entry) ≡ Some fault) }
{
    if !is_version_one(&lock) {
        return Ok(lock);
    }
    check_version_one(&lock, manifest).map_err(CheckError::Refused)?;
    file_of(alloc, &lock, manifest).map_err(|_| CheckError::Memory)
}

/// Returns the fault of a lock file of any version, or of the manifest beside one of version 1, if there is one: that which [`check_any`]
/// refuses. Does not allocate.
pub fn fault_of(alloc: Global, lock: &Value, manifest: Option<&Value>) -> Option<Fault>
    ensures { result ≡ any_fault (view lock.now) (option_map (λ manifest. view manifest.now) manifest.entry) }
{
    if !is_version_one(lock) {
        return later_fault(alloc, lock);
    }
    match check_version_one(lock, manifest) {
        Ok(()) => None,
        Err(fault) => Some(fault),
    }
}

/// The fault of a lock file of version 2 or 3.
fn later_fault(alloc: Global, lock: &Value) -> Option<Fault>
    ensures { result ≡ Faults.lock_fault (view lock.now) }
{
    match lock_of(alloc, lock) {
        Ok(_) => None,
        Err(fault) => Some(fault),
    }
}

/// The file of version 3 that one of version 1 becomes.
fn file_of(alloc: Global, lock: &Value, manifest: Option<&Value>) -> Result<Value>
    ensures { IfOk result (λ made. view made ≡ VersionOne.file_of
        (VersionOne.packages_of (view lock.now) (option_map (λ manifest. view manifest.now) manifest.entry))) }
{
    let packages = packages_of(alloc, lock, manifest)?;
    let mut members = Map::new(alloc);
    put(&mut members, alloc, "lockfileVersion", Value::from(3_u8))?;
    put(&mut members, alloc, "packages", Value::Object(packages))?;
    Ok(Value::Object(members))
}
