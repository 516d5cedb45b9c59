//! The folders of manifests, as the root's folder has them.
use crate::argument_error::ArgumentError;
use crate::program_error::ProgramError;
use command_lines::Quoted;
use std::alloc::{AllocError, Global};

/// Returns the folder of each manifest: that of the first, which is the root's, is empty, and each other one is a path from there.
///
/// # Errors
///
/// Returns the first manifest after the root's whose folder is not below the root's, is in a `node_modules` there, or is that of another.
pub fn folders_of<'a>(alloc: Global, paths: &[&'a str]) -> Result<Vec<String>, ProgramError<'a>> {
    let mut folders = Vec::with_capacity(alloc, paths.len())?;
    let Some(first) = paths.first() else {
        return Ok(folders);
    };
    for path in paths {
        if !add_folder(alloc, &mut folders, *first, *path)? {
            let quoted = Quoted { text: *path };
            return Err(ProgramError::Argument(ArgumentError::NoWorkspace(quoted)));
        }
    }
    Ok(folders)
}

/// Adds the folder of a manifest. Returns `false` if it is that of no workspace.
fn add_folder(
    alloc: Global,
    folders: &mut Vec<String>,
    first: &str,
    path: &str,
) -> Result<bool, AllocError> {
    let root = names_of(alloc, first)?;
    let names = names_of(alloc, path)?;
    match folder_below(alloc, &root, &names)? {
        Some(folder) if is_absolute(first) == is_absolute(path) && !has(folders, &folder) => {
            folders.push(folder)?;
            Ok(true)
        }
        _ => Ok(false),
    }
}

fn is_absolute(path: &str) -> bool {
    path.starts_with("/")
}

/// Returns `true` if a folder is among these.
fn has(folders: &[String], folder: &str) -> bool {
    for one in folders {
        if one.as_str() == folder {
            return true;
        }
    }
    false
}

/// The names on the way to the folder of a file.
fn names_of<'a>(alloc: Global, path: &'a str) -> Result<Vec<&'a str>, AllocError> {
    let mut names = Vec::new(alloc);
    let Some((folder, _)) = path.rsplit_once('/') else {
        return Ok(names);
    };
    for name in folder.split('/') {
        if !name.is_empty() && name != "." {
            names.push(name)?;
        }
    }
    Ok(names)
}

/// The path from a folder to another one, or `None` if that is not below it.
fn folder_below(
    alloc: Global,
    root: &[&str],
    names: &[&str],
) -> Result<Option<String>, AllocError> {
    let Some(below) = names.strip_prefix(root) else {
        return Ok(None);
    };
    let mut folder = String::new(alloc);
    for name in below {
        if *name == ".." || *name == "node_modules" {
            return Ok(None);
        }
        if !folder.is_empty() {
            folder.push_str("/")?;
        }
        folder.push_str(*name)?;
    }
    Ok(Some(folder))
}
