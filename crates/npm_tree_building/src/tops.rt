//! The root and the workspaces.

use crate::Result;
use crate::answer::Manifest;
use crate::known::Known;
use serde_json::Value;
use std::alloc::Global;
use std::collections::BTreeMap;

/// The root or a workspace: its folder, its name, and the number of its version.
#[derive(Clone, Copy, Drop)]
pub(crate) struct Top<'v> {
    pub(crate) folder: &'v str,
    pub(crate) name: &'v str,
    pub(crate) version: usize,
}

/// The root and the workspaces.
pub(crate) fn tops_of<'d>(
    alloc: Global,
    known: &mut Known<'d>,
    manifests: &'d [Manifest<'d>],
) -> Result<Vec<Top<'d>>> {
    let mut tops = Vec::new(alloc);
    for manifest in manifests {
        let name = match manifest.value.get("name").and_then(Value::as_str) {
            Some(name) if !name.is_empty() => name,
            _ => last_of(manifest.at),
        };
        let key = match manifest.value.get("version").and_then(Value::as_str) {
            Some(key) => key,
            None => "",
        };
        let package = known.texts.number(name)?;
        let version = known.add_version(package, key, manifest.value)?;
        tops.push(Top {
            folder: manifest.at,
            name,
            version,
        })?;
    }
    Ok(tops)
}

/// The last name of a path.
fn last_of(path: &str) -> &str {
    match path.rsplit_once('/') {
        Some((_, last)) => last,
        None => path,
    }
}

/// Adds the names of the workspaces. Returns a name that two of them have.
pub(crate) fn add_workspaces<'d>(
    names: &mut BTreeMap<&'d str, usize>,
    tops: &[Top<'d>],
) -> Result<Option<&'d str>> {
    for (at, top) in tops.iter().enumerate() {
        if at > 0 && names.insert(top.name, at)?.is_some() {
            return Ok(Some(top.name));
        }
    }
    Ok(None)
}
