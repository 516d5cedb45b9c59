//! Manifests.

use crate::asked::Asked;
use crate::call_error::CallError;
use crate::document::Document;
use crate::fault::Fault;
use npm_lock_findings::manifest_fault_path;
use serde_json::Value;
use std::alloc::Global;

/// Takes the manifest of the root, if there is one.
pub(crate) fn manifest_if_any<'t>(
    asked: &mut Asked<'t>,
) -> Result<Option<Document<'t>>, CallError> {
    match asked.document_if_any("manifest")? {
        Some(document) => {
            check_manifest(asked.alloc, &document)?;
            Ok(Some(document))
        }
        None => Ok(None),
    }
}

/// Takes the manifest of the root.
pub(crate) fn manifest<'t>(asked: &mut Asked<'t>) -> Result<Document<'t>, CallError> {
    let document = asked.document("manifest")?;
    check_manifest(asked.alloc, &document)?;
    Ok(document)
}

/// Fails if a manifest has a fault.
fn check_manifest(alloc: Global, document: &Document<'_>) -> Result<(), CallError> {
    match manifest_fault_path(alloc, &document.value)? {
        Some(found) => {
            Err(document.refused_at_names(alloc, Fault::Manifest(found.fault), &found.names))
        }
        None => Ok(()),
    }
}

/// Takes the manifests of a list.
pub(crate) fn manifest_list(asked: &mut Asked<'_>) -> Result<Vec<Value>, CallError> {
    let list = asked.list("manifests")?;
    for (place, value) in list.iter().enumerate() {
        if let Some(found) = manifest_fault_path(asked.alloc, value)? {
            return Err(asked.refused_item(Fault::Manifest(found.fault), "manifests", place));
        }
    }
    Ok(list)
}
