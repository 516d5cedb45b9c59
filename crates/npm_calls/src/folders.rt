//! Manifests beside a lock file: that of the root, and those of folders that the lock file links.

use crate::asked::Asked;
use crate::call_error::CallError;
use crate::document::Document;
use crate::fault::Fault;
use crate::text::add;
use npm_lock::{CheckError, Mismatch, drop_overrides, mismatches_of, put_manifest};
use npm_lock_findings::manifest_fault_path;
use serde_json::Value;
use std::alloc::{AllocError, Global};

/// A manifest in a folder.
#[derive(Drop)]
pub(crate) struct Beside {
    folder: String,
    manifest: Value,
}

const NAME: &str = "workspaces";

/// Takes the manifests of workspaces and of other folders, by their folders.
pub(crate) fn folders_of(asked: &mut Asked<'_>) -> Result<Vec<Beside>, CallError> {
    let mut folders = Vec::new(asked.alloc);
    let Some(document) = asked.document_if_any(NAME)? else {
        return Ok(folders);
    };
    document.check_object(asked.alloc)?;
    if let Some(members) = document.value.as_object() {
        for (folder, manifest) in members.iter() {
            let one = one_beside(asked.alloc, &document, folder.as_str(), manifest)?;
            add(&mut folders, one)?;
        }
    }
    Ok(folders)
}

/// The manifest in a folder. Fails if it has a fault.
fn one_beside(
    alloc: Global,
    document: &Document<'_>,
    folder: &str,
    manifest: &Value,
) -> Result<Beside, CallError> {
    if let Some(found) = manifest_fault_path(alloc, manifest)? {
        return Err(document.refused_at_name(alloc, Fault::Manifest(found.fault), folder));
    }
    Ok(Beside {
        folder: String::from_str(alloc, folder)?,
        manifest: manifest.clone()?,
    })
}

/// Compares the manifests and a lock file of version 2 or 3, and puts each in the place of its package. Returns the mismatches if there is
/// a manifest of the root. Without one `overrides` do not count.
pub(crate) fn compared(
    alloc: Global,
    lock: &mut Value,
    manifest: &Option<Document<'_>>,
    folders: Vec<Beside>,
    is_ignored: bool,
) -> Result<Option<Vec<Mismatch>>, AllocError> {
    let Some(manifest) = manifest else {
        drop_overrides(alloc, lock)?;
        return Ok(None);
    };
    if lock.get("packages").is_none() {
        return Ok(None);
    }
    let mut all = Vec::new(alloc);
    add_mismatches(alloc, &mut all, lock, "", &manifest.value)?;
    for one in &folders {
        add_mismatches(alloc, &mut all, lock, one.folder.as_str(), &one.manifest)?;
    }
    put_manifest(alloc, lock, "", manifest.value.clone()?)?;
    for one in folders {
        let Beside { folder, manifest } = one;
        put_manifest(alloc, lock, folder.as_str(), manifest)?;
    }
    if is_ignored {
        all = Vec::new(alloc);
    }
    Ok(Some(all))
}

/// Adds the mismatches of a manifest without a fault.
fn add_mismatches(
    alloc: Global,
    all: &mut Vec<Mismatch>,
    lock: &Value,
    folder: &str,
    manifest: &Value,
) -> Result<(), AllocError> {
    match mismatches_of(alloc, lock, folder, manifest) {
        Ok(mismatches) => {
            let mut list = mismatches;
            all.append(&mut list)
        }
        Err(CheckError::Refused(_)) => Ok(()),
        Err(CheckError::Memory) => Err(AllocError),
    }
}
