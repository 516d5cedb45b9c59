//! Reads the manifest of a workspace.
ghost use Rattle.std.specs.Prelude.{◌≡◌, IfOk, IsErrOf, None, string_bytes};
ghost use Rattle.serde_json.specs.View.{view};
ghost use Rattle.command_lines.specs.Inputs.{IsInput};
ghost use Rattle.npm_lock_findings.specs.declared.faults.fault_place.FaultPlace.{FaultPlace};
ghost use Rattle.npm_lock.specs.Mismatches.{manifest_fault};
ghost use Rattle.npm_manifest_files.specs.ManifestFile.{IsFaultyInput, IsNoFile, IsNotOpened, IsNotRead, path_of};
ghost use Rattle.npm_manifest_files.specs.Paths as Paths;

use crate::below::is_below;
use crate::linked::Found;
use crate::load_error::{LoadError, ManifestError};
use crate::walk::joined;
use command_lines::{Watched, read_json, read_json_with_text};
use npm_lock_findings::manifest_fault_place;
use npm_lock_reports::FolderName;
use serde_json::Value;
use std::alloc::{AllocError, Global};
use std::fs::File;
use std::io::{ErrorKind, Read};
use std::{fs, io};

/// Returns the folder of a file: `a` of `a/package.json`, and `.` of `package.json`.
pub fn folder_of(path: &str) -> &str
    ensures { result.now ≡ Paths.folder_of path.now }
{
    match path.rsplit_once("/") {
        Some((folder, _)) => folder,
        None => ".",
    }
}

/// Returns the path of a folder that `folder_of` returned: `/` of the empty one.
pub(crate) fn path_of_folder(folder: &str) -> &str
    ensures { result.now ≡ Paths.path_of_folder folder.now }
{
    if folder.is_empty() { "/" } else { folder }
}

/// Reads a manifest that must have no fault.
///
/// # Errors
///
/// - `Input`: the input was not read.
/// - `Faulty`: the manifest has a fault, at this place of its text.
/// - `Memory`: an allocation failed.
pub fn read_faultless<R: Read>(
    alloc: Global,
    reader: &mut Watched<R>,
) -> Result<Value, ManifestError>
    ensures value { IfOk result (λ manifest. IsInput R.remaining reader.old reader.new (view manifest)
        × (manifest_fault (view manifest) ≡ None)) }
    ensures faulty { (found : FaultPlace) → IsErrOf result (ManifestError.Faulty found)
        → IsFaultyInput R.remaining reader.old reader.new found }
{
    let (manifest, text) = match read_json_with_text(alloc, reader) {
        Ok(read) => read,
        Err(error) => return Err(ManifestError::Input(error)),
    };
    match manifest_fault_place(alloc, text.as_str(), &manifest) {
        Ok(None) => Ok(manifest),
        Ok(Some(found)) => Err(ManifestError::Faulty(found)),
        Err(_) => Err(ManifestError::Memory),
    }
}

/// Reads the manifest of the package in a folder, which is inside another. If it is `faultless`, one with a fault is an error.
pub fn manifest_in(
    rt: &HostRuntime,
    outer: &str,
    folder: &str,
    outside: bool,
    faultless: bool,
) -> Result<Found, LoadError> {
    let path = path_of(rt.alloc(), outer, folder).map_err(|_| LoadError::Memory)?;
    let file = match opened(rt, outer, path.as_str(), outside) {
        Ok(Some(file)) => file,
        Ok(None) => return Ok(Found::Unread),
        Err(error) => return no_file(rt.alloc(), folder, error.kind()),
    };
    let mut reader = Watched::new(file);
    let read = if faultless {
        read_faultless(rt.alloc(), &mut reader)
    } else {
        read_json(rt.alloc(), &mut reader).map_err(ManifestError::Input)
    };
    match read {
        Ok(manifest) => Ok(Found::Manifest(manifest)),
        Err(error) => Err(not_read(rt.alloc(), folder, error)),
    }
}

/// Opens a manifest. Returns `None` for one that is no regular file, and for one that is not inside this folder, unless those are
/// read too. A pipe is no regular file, and is not opened: that could wait for ever.
fn opened(rt: &HostRuntime, outer: &str, path: &str, outside: bool) -> io::Result<Option<File>> {
    if fs::metadata(rt, path)?.is_file() && (outside || is_inside(rt, outer, path)?) {
        File::open(rt, path).map(Some)
    } else {
        Ok(None)
    }
}

/// Returns `true` for a file below a folder. Of a symbolic link the file that it leads to counts.
fn is_inside(rt: &HostRuntime, outer: &str, path: &str) -> io::Result<bool> {
    let above = fs::canonicalize(rt, path_of_folder(outer))?;
    let real = fs::canonicalize(rt, path)?;
    Ok(is_below(real.as_path().as_str(), above.as_path().as_str()))
}

/// Returns the path of the manifest in a folder, which is inside another.
pub fn path_of(alloc: Global, outer: &str, folder: &str) -> Result<String, AllocError>
    ensures { IfOk result (λ path. string_bytes path ≡ path_of outer.now folder.now) }
{
    let mut path = joined(alloc, outer, folder)?;
    path.push_str("/package.json")?;
    Ok(path)
}

/// What is returned for a file that was not opened: nothing if it is not there.
fn no_file(alloc: Global, folder: &str, kind: ErrorKind) -> Result<Found, LoadError>
    ensures { IsNoFile folder.now kind result }
{
    match kind {
        ErrorKind::NotFound => Ok(Found::Nothing),
        _ => Err(not_opened(alloc, folder)),
    }
}

/// The error of a file that was not opened.
fn not_opened(alloc: Global, folder: &str) -> LoadError
    ensures { IsNotOpened folder.now result }
{
    match String::from_str(alloc, folder) {
        Ok(text) => LoadError::Open(FolderName { text }),
        Err(_) => LoadError::Memory,
    }
}

/// The error of a file that was not read.
fn not_read(alloc: Global, folder: &str, error: ManifestError) -> LoadError
    ensures { IsNotRead folder.now error result }
{
    match String::from_str(alloc, folder) {
        Ok(text) => LoadError::Read(FolderName { text }, error),
        Err(_) => LoadError::Memory,
    }
}
