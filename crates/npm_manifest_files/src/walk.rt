//! The folders on disk that patterns of workspaces match, as npm finds them.
//!
//! See docs/DECISIONS.md, "The manifests of workspaces are read where npm reads them".
ghost use Rattle.std.specs.Prelude.{◌≡◌, ◌++◌, IfErr, IfOk, IsErr, None, Ok, Some, codes, string_bytes};
ghost use Rattle.std.specs.IoError.{error_kind};
ghost use Rattle.std.specs.declared.io.ErrorKind.{ErrorKind};

use crate::below::is_below;
use npm_lock::is_part;
use std::alloc::{AllocError, Global};
use std::collections::BTreeMap;
use std::fs::DirEntry;
use std::io::ErrorKind;
use std::{fs, io};

/// Folders, each once, in the order of their bytes.
pub type Folders = BTreeMap<String, ()>;

/// Folders below that of the manifest, as paths from there.
#[derive(Drop)]
struct Walk<'a> {
    rt: &'a HostRuntime,
    /// The path of the folder of the manifest, without symbolic links.
    above: &'a str,
    /// Those that a pattern matches.
    found: Folders,
    /// Those whose folders are found.
    listed: Folders,
    /// Those below which all folders are found.
    walked: Folders,
}

/// A folder in another.
#[derive(Drop)]
struct Child {
    folder: String,
    /// A symbolic link leads to it.
    is_linked: bool,
}

/// Returns the folders below `above` that these patterns match, as paths from there. `above` is a path without symbolic links.
///
/// As for npm, no folder in a `node_modules` is one, `**` does not go on behind a symbolic link, and a folder that cannot be read
/// has none in it. So each folder is read at most twice. The system opens no path above 4,096 bytes, so the depth is bounded.
/// A symbolic link that leads to `above`, or outside, is passed over.
///
/// # Errors
///
/// An allocation failed.
pub fn folders_on_disk(
    rt: &HostRuntime,
    above: &str,
    patterns: &[&str],
) -> Result<Folders, AllocError> {
    let alloc = rt.alloc();
    let mut walk = Walk {
        rt,
        above,
        found: BTreeMap::new(alloc),
        listed: BTreeMap::new(alloc),
        walked: BTreeMap::new(alloc),
    };
    for pattern in patterns {
        walk.add_pattern(*pattern)?;
    }
    Ok(walk.found)
}

impl<'a> Walk<'a> {
    /// Adds the folders that a pattern matches: `w`, those in `packages` of `packages/*`, and all below it of `packages/**`.
    fn add_pattern(&mut self, pattern: &str) -> Result<(), AllocError> {
        let deep = pattern.strip_suffix("**");
        let stem = deep.or(pattern.strip_suffix("*")).unwrap_or(pattern);
        let Some(folder) = self.folder_at(stem)? else {
            return Ok(());
        };
        if deep.is_some() {
            self.add_below(folder)
        } else if stem.len() < pattern.len() {
            self.add_inside(folder)
        } else {
            self.add(folder)
        }
    }

    /// Adds a folder, but not the one of the manifest, and none in a `node_modules`.
    fn add(&mut self, folder: String) -> Result<(), AllocError> {
        if !folder.is_empty() && !is_in_modules(folder.as_str()) {
            self.found.insert(folder, ())?;
        }
        Ok(())
    }

    /// Adds the folders in a folder.
    fn add_inside(&mut self, folder: String) -> Result<(), AllocError> {
        if self.listed.contains_key(&folder) {
            return Ok(());
        }
        for child in self.children_of(folder.as_str())? {
            self.add(child.folder)?;
        }
        self.listed.insert(folder, ())?;
        Ok(())
    }

    /// Adds a folder and all folders below it.
    fn add_below(&mut self, folder: String) -> Result<(), AllocError> {
        let alloc = self.rt.alloc();
        self.add(folder.clone()?)?;
        let mut left = Vec::new(alloc);
        left.push(folder)?;
        // A bound for the proof: the walk ends when nothing is left.
        for _ in 0..usize::MAX {
            let Some(folder) = left.pop() else {
                break;
            };
            if !self.walked.contains_key(&folder) {
                self.add_children(&mut left, folder.as_str())?;
                self.walked.insert(folder, ())?;
            }
        }
        Ok(())
    }

    /// Adds the folders in a folder, and leaves those that no link leads to for the walk.
    fn add_children(&mut self, left: &mut Vec<String>, folder: &str) -> Result<(), AllocError> {
        for child in self.children_of(folder)? {
            if !child.is_linked {
                left.push(child.folder.clone()?)?;
            }
            self.add(child.folder)?;
        }
        Ok(())
    }

    /// The folders in a folder.
    fn children_of(&self, folder: &str) -> Result<Vec<Child>, AllocError> {
        let alloc = self.rt.alloc();
        let mut children = Vec::new(alloc);
        let path = joined(alloc, self.above, folder)?;
        let Some(entries) = unless_failed(fs::read_dir(self.rt, path.as_str()))? else {
            return Ok(children);
        };
        for entry in entries {
            if let Some(entry) = unless_failed(entry)? {
                children.extend(self.child_of(folder, &entry)?)?;
            }
        }
        Ok(children)
    }

    /// The folder that an entry of a folder is, or that it leads to.
    fn child_of(&self, folder: &str, entry: &DirEntry) -> Result<Option<Child>, AllocError> {
        let name = entry.file_name();
        if name == "node_modules" || !is_part(name) {
            return Ok(None);
        }
        let Some(kind) = unless_failed(entry.file_type())? else {
            return Ok(None);
        };
        let inner = inside(self.rt.alloc(), folder, name)?;
        let is_linked = kind.is_symlink();
        let is_folder = if is_linked {
            self.is_below(inner.as_str())?
        } else {
            kind.is_dir()
        };
        Ok(is_folder.then_some(Child {
            folder: inner,
            is_linked,
        }))
    }

    /// The folder that a path names, or `None` if there is none below that of the manifest. The path may be empty, which
    /// names that one.
    fn folder_at(&self, path: &str) -> Result<Option<String>, AllocError> {
        let Some(folder) = shortest(self.rt.alloc(), path)? else {
            return Ok(None);
        };
        if folder.is_empty() || self.is_below(folder.as_str())? {
            Ok(Some(folder))
        } else {
            Ok(None)
        }
    }

    /// Returns `true` if a folder is there, and below that of the manifest, wherever symbolic links lead.
    fn is_below(&self, folder: &str) -> Result<bool, AllocError> {
        let path = joined(self.rt.alloc(), self.above, folder)?;
        let Some(metadata) = unless_failed(fs::metadata(self.rt, path.as_str()))? else {
            return Ok(false);
        };
        if !metadata.is_dir() {
            return Ok(false);
        }
        let Some(real) = unless_failed(fs::canonicalize(self.rt, path.as_str()))? else {
            return Ok(false);
        };
        Ok(is_below(real.as_path().as_str(), self.above))
    }
}

/// The path without empty parts, `.` and `..`. `None` if it leads above where it begins.
fn shortest(alloc: Global, path: &str) -> Result<Option<String>, AllocError> {
    let mut parts = Vec::new(alloc);
    for part in path.split('/') {
        match part {
            "" | "." => {}
            ".." => {
                if parts.pop().is_none() {
                    return Ok(None);
                }
            }
            _ => parts.push(part)?,
        }
    }
    let mut folder = String::new(alloc);
    for part in &parts {
        if !folder.is_empty() {
            folder.push_str("/")?;
        }
        folder.push_str(*part)?;
    }
    Ok(Some(folder))
}

/// The path of a folder in another, which may be that of the manifest.
fn inside(alloc: Global, folder: &str, name: &str) -> Result<String, AllocError> {
    if folder.is_empty() {
        String::from_str(alloc, name)
    } else {
        joined(alloc, folder, name)
    }
}

/// The path of a file or a folder in a folder.
pub fn joined(alloc: Global, folder: &str, name: &str) -> Result<String, AllocError>
    ensures { IfOk result (λ path. string_bytes path ≡ folder.now ++ (codes "/" ++ name.now)) }
{
    let size = folder.len().saturating_add(name.len()).saturating_add(1);
    let mut path = String::with_capacity(alloc, size)?;
    path.push_str(folder)?;
    path.push_str("/")?;
    path.push_str(name)?;
    Ok(path)
}

/// Returns `true` for a folder in a `node_modules`, and for a `node_modules` itself.
fn is_in_modules(folder: &str) -> bool {
    folder.split('/').any(|part| part == "node_modules")
}

/// What the system returned, or `None` after an error. Only a failed allocation is an error here.
pub fn unless_failed<T: Drop>(returned: io::Result<T>) -> Result<Option<T>, AllocError>
    ensures kept { IfOk returned (λ value. result ≡ Ok (Some value)) }
    ensures passed { IfErr returned (λ error. ¬ (error_kind error ≡ ErrorKind.OutOfMemory) → result ≡ Ok None) }
    ensures memory { IfErr returned (λ error. error_kind error ≡ ErrorKind.OutOfMemory → IsErr result) }
{
    match returned {
        Ok(value) => Ok(Some(value)),
        Err(error) => match error.kind() {
            ErrorKind::OutOfMemory => Err(AllocError),
            _ => Ok(None),
        },
    }
}
