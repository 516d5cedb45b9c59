//! Lock files.

use crate::call_error::CallError;
use crate::document::Document;
use crate::fault::Fault;
use npm_lock::{CheckError, SoundLock, convert, is_version_one};
use npm_lock_findings::{lock_fault_path, root_fault_path};
use npm_packages::Fault as PackageFault;
use std::alloc::Global;

/// The error of a lock file with this fault, of which a call reads version 2 and 3 alone.
pub(crate) fn refused_lock(
    alloc: Global,
    document: &Document<'_>,
    fault: PackageFault,
) -> CallError {
    if let PackageFault::Version = fault {
        return document.refused_at_name(alloc, Fault::OldLock, "lockfileVersion");
    }
    fault_of_lock(alloc, document)
}

/// The error of a lock file, of any version, that has a fault.
fn fault_of_lock(alloc: Global, document: &Document<'_>) -> CallError {
    match lock_fault_path(alloc, &document.value) {
        Ok(Some(found)) => {
            document.refused_at_names(alloc, Fault::Lock(found.fault), &found.names)
        }
        // It has a fault, so an allocation failed.
        Ok(None) | Err(_) => CallError::Memory,
    }
}

/// The lock file as one with `packages`, whose root is the manifest if it is of version 1.
pub(crate) fn converted<'t>(
    alloc: Global,
    document: Document<'t>,
    manifest: &Option<Document<'_>>,
) -> Result<Document<'t>, CallError> {
    if !is_version_one(&document.value) {
        return Ok(document);
    }
    if lock_fault_path(alloc, &document.value)?.is_some() {
        return Err(fault_of_lock(alloc, &document));
    }
    if let Some(manifest) = manifest {
        check_root(alloc, manifest)?;
    }
    let root = match manifest {
        Some(manifest) => Some(&manifest.value),
        None => None,
    };
    let mut made = document;
    match convert(alloc, made.value.take(), root) {
        Ok(value) => {
            made.value = value;
            Ok(made)
        }
        // It has no fault, so an allocation failed.
        Err(_) => Err(CallError::Memory),
    }
}

/// Fails if the manifest beside a lock file of version 1 has a fault.
fn check_root(alloc: Global, manifest: &Document<'_>) -> Result<(), CallError> {
    match root_fault_path(alloc, &manifest.value)? {
        Some(found) => {
            Err(manifest.refused_at_names(alloc, Fault::Manifest(found.fault), &found.names))
        }
        None => Ok(()),
    }
}

/// A lock file of version 2 or 3, if it has no fault.
pub(crate) fn sound_lock<'d>(
    alloc: Global,
    document: &'d Document<'_>,
) -> Result<SoundLock<'d>, CallError> {
    match SoundLock::of(alloc, &document.value) {
        Ok(sound) => Ok(sound),
        Err(CheckError::Refused(_)) => Err(fault_of_lock(alloc, document)),
        Err(CheckError::Memory) => Err(CallError::Memory),
    }
}
