//! The workspaces that are found on disk, beside a lock file.
ghost use Rattle.std.specs.Prelude.{◌≡◌, IfOk};
ghost use Rattle.serde_json.specs.View.{view};
ghost use Rattle.npm_manifest_files.specs.Linked.{loaded_value, without_workspaces, workspace_in, workspace_value};

use crate::linked::{Found, Linked, Loaded, Workspace};
use crate::load_error::LoadError;
use crate::manifest_file::{manifest_in, path_of_folder};
use crate::walk::{folders_on_disk, joined, unless_failed};
use crate::workspace_name::name_of;
use npm_lock::workspace_patterns;
use npm_lock_reports::{FolderName, Unread};
use serde_json::Value;
use std::alloc::{AllocError, Global};
use std::fs;

/// Adds the workspaces that are found on disk. `outer` is the folder of the root's manifest. If a pattern is not read, none are looked
/// for, and that is added to what was not looked at.
///
/// # Errors
///
/// A manifest in the folder of a workspace cannot be opened or is not read, or an allocation failed.
pub fn with_workspaces(
    rt: &HostRuntime,
    outer: &str,
    manifest: Option<&Value>,
    outside: bool,
    loaded: Loaded,
) -> Result<Loaded, LoadError> {
    let Some(manifest) = manifest else {
        return Ok(loaded);
    };
    let patterns = match workspace_patterns(rt.alloc(), manifest) {
        Ok(Some(patterns)) => patterns,
        Ok(None) => return without_workspaces(loaded),
        Err(_) => return Err(LoadError::Memory),
    };
    if patterns.is_empty() {
        return Ok(loaded);
    }
    let Some(above) = real_path(rt, outer)? else {
        return Ok(loaded);
    };
    let found = folders_on_disk(rt, above.as_str(), &patterns).map_err(|_| LoadError::Memory)?;
    let mut loaded = loaded;
    let mut unread = Vec::new(rt.alloc());
    for (folder, _) in found.iter() {
        let matched = look_in(rt, outer, outside, &loaded, folder.as_str(), above.as_str())?;
        add(&mut loaded.workspaces, &mut unread, matched).map_err(|_| LoadError::Memory)?;
    }
    match loaded.unread.append(&mut unread) {
        Ok(()) => Ok(loaded),
        Err(_) => Err(LoadError::Memory),
    }
}

/// Says that no workspaces were looked for, as a pattern of them is not read.
fn without_workspaces(loaded: Loaded) -> Result<Loaded, LoadError>
    ensures { IfOk result (λ made. loaded_value made ≡ without_workspaces (loaded_value loaded)) }
{
    let mut loaded = loaded;
    match loaded.unread.push(Unread::Workspaces) {
        Ok(()) => Ok(loaded),
        Err(_) => Err(LoadError::Memory),
    }
}

/// Adds what a folder is.
fn add(
    workspaces: &mut Vec<Workspace>,
    unread: &mut Vec<Unread>,
    matched: Matched,
) -> Result<(), AllocError> {
    match matched {
        Matched::Nothing => {}
        Matched::Unread(folder) => unread.push(Unread::Manifest(folder))?,
        Matched::As(workspace) => workspaces.push(workspace)?,
    }
    Ok(())
}

/// What a folder is that a pattern matches.
#[derive(Drop)]
enum Matched {
    /// No workspace, or one whose manifest is known not to be read.
    Nothing,
    /// Its manifest is not read.
    Unread(FolderName),
    As(Workspace),
}

/// The workspace in a folder.
fn look_in(
    rt: &HostRuntime,
    outer: &str,
    outside: bool,
    loaded: &Loaded,
    folder: &str,
    above: &str,
) -> Result<Matched, LoadError> {
    let alloc = rt.alloc();
    if let Some(manifest) = linked_at(&loaded.linked, folder) {
        return matched_as(workspace_in(alloc, manifest, above, folder));
    }
    if has_folder(&loaded.unread, folder) {
        return Ok(Matched::Nothing);
    }
    match manifest_in(rt, outer, folder, outside, false)? {
        Found::Nothing => Ok(Matched::Nothing),
        Found::Unread => match String::from_str(alloc, folder) {
            Ok(text) => Ok(Matched::Unread(FolderName { text })),
            Err(_) => Err(LoadError::Memory),
        },
        Found::Manifest(manifest) => matched_as(workspace_in(alloc, &manifest, above, folder)),
    }
}

/// A workspace, or that an allocation failed.
fn matched_as(made: Result<Workspace, AllocError>) -> Result<Matched, LoadError> {
    match made {
        Ok(workspace) => Ok(Matched::As(workspace)),
        Err(_) => Err(LoadError::Memory),
    }
}

/// The workspace with this manifest, in a folder below this one.
fn workspace_in(
    alloc: Global,
    manifest: &Value,
    above: &str,
    folder: &str,
) -> Result<Workspace, AllocError>
    ensures { IfOk result (λ made. workspace_value made ≡ workspace_in (view manifest.now) above.now folder.now) }
{
    let path = joined(alloc, above, folder)?;
    let name = name_of(alloc, manifest, path.as_str())?;
    let folder = String::from_str(alloc, folder)?;
    Ok(Workspace { name, folder })
}

/// The manifest in a folder, if it was read. The list is in the order of the folders' bytes.
fn linked_at<'l>(linked: &'l [Linked], folder: &str) -> Option<&'l Value> {
    match linked.binary_search_by(|one| one.folder.as_str().cmp(folder)) {
        Ok(place) => linked.get(place).map(|one| &one.manifest),
        Err(_) => None,
    }
}

/// Returns `true` if the manifest in this folder is among these, whose folders are in the order of their bytes.
fn has_folder(unread: &[Unread], folder: &str) -> bool {
    unread
        .binary_search_by(|one| one.folder().cmp(folder))
        .is_ok()
}

/// The path of a folder without symbolic links.
fn real_path(rt: &HostRuntime, outer: &str) -> Result<Option<String>, LoadError> {
    match unless_failed(fs::canonicalize(rt, path_of_folder(outer))) {
        Ok(Some(path)) => Ok(Some(path.into_string())),
        Ok(None) => Ok(None),
        Err(_) => Err(LoadError::Memory),
    }
}
