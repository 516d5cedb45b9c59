//! Reads the documents of packages in a folder.
ghost use Rattle.std.specs.Prelude.{◌≡◌, IfOk, string_bytes};
ghost use Rattle.npm_pick_reports.specs.PackumentFile as Files;

use crate::{LoadError, PackageName};
use command_lines::{InputError, Watched, open_error, read_json};
use npm_texts::{are_tag_bytes, rest_after};
use serde_json::Value;
use std::alloc::{AllocError, Global};
use std::fs::File;
use std::io::ErrorKind;
use std::{fs, io};

/// Reads the document of a package in a folder: `NAME.json`, or else `NAME/package.json`. `None`: the folder has no such regular
/// file, or npm lets no package have this name.
pub fn packument_in(
    rt: &HostRuntime,
    folder: &str,
    name: &str,
) -> Result<Option<Value>, LoadError> {
    if !is_package_name(name) {
        return Ok(None);
    }
    match read_in(rt, folder, name) {
        Ok(packument) => Ok(packument),
        Err(InputError::Memory) => Err(LoadError::Memory),
        Err(error) => match String::from_str(rt.alloc(), name) {
            Ok(text) => Err(LoadError::Package(PackageName { text }, error)),
            Err(_) => Err(LoadError::Memory),
        },
    }
}

/// Reads the document of a package.
fn read_in(rt: &HostRuntime, folder: &str, name: &str) -> Result<Option<Value>, InputError> {
    if let Some(packument) = read_at(rt, folder, name, ".json")? {
        return Ok(Some(packument));
    }
    read_at(rt, folder, name, "/package.json")
}

/// Reads a document, if there is such a regular file.
fn read_at(
    rt: &HostRuntime,
    folder: &str,
    name: &str,
    end: &str,
) -> Result<Option<Value>, InputError> {
    let path = path_of(rt.alloc(), folder, name, end).map_err(|_| InputError::Memory)?;
    if !is_regular(rt, path.as_str()).map_err(|error| open_error(error))? {
        return Ok(None);
    }
    let file = File::open(rt, path.as_str()).map_err(|error| open_error(error))?;
    read_json(rt.alloc(), &mut Watched::new(file)).map(Some)
}

/// Returns `true` for a regular file. Of a symbolic link the file that it leads to counts. A pipe is no regular file, and is not
/// opened: that could wait for ever.
fn is_regular(rt: &HostRuntime, path: &str) -> io::Result<bool> {
    match fs::metadata(rt, path) {
        Ok(found) => Ok(found.is_file()),
        Err(error) if is_absent(error.kind()) => Ok(false),
        Err(error) => Err(error),
    }
}

/// Returns `true` if there is no such file.
fn is_absent(kind: ErrorKind) -> bool {
    matches!(kind, ErrorKind::NotFound | ErrorKind::NotADirectory)
}

/// The path of a document.
fn path_of(alloc: Global, folder: &str, name: &str, end: &str) -> Result<String, AllocError>
    ensures { IfOk result (λ path. string_bytes path ≡ Files.path_of folder.now name.now end.now) }
{
    let mut path = String::from_str(alloc, folder)?;
    path.push_str("/")?;
    path.push_str(name)?;
    path.push_str(end)?;
    Ok(path)
}

/// Returns `true` if a package can have this name.
fn is_package_name(name: &str) -> bool
    ensures { result ≡ Files.is_package_name name.now }
{
    match rest_after(name, "@") {
        Some(scoped) => is_scoped(scoped),
        None => is_part(name),
    }
}

/// Returns `true` for a scope, a slash and a name.
fn is_scoped(text: &str) -> bool
    ensures { result ≡ Files.is_scoped text.now }
{
    match text.split_once('/') {
        Some((scope, name)) => is_part(scope) && is_part(name),
        None => false,
    }
}

/// Returns `true` for a scope or a name.
fn is_part(text: &str) -> bool
    ensures { result ≡ Files.is_part text.now }
{
    !text.is_empty() && !text.starts_with(".") && are_tag_bytes(text)
}
