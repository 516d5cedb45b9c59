//! The manifests of workspaces, and of other packages that links of a lock file name.
//!
//! See docs/DECISIONS.md, "The manifests of workspaces are read where npm reads them".
ghost use Rattle.std.specs.Prelude.{◌≡◌, ◌⊎◌, ℕ, List, IfErr, IfOk, OnOk, Err};
ghost use Rattle.std.specs.Fn.{FnReturnsAt};
ghost use Rattle.serde_json.specs.View.{view};
ghost use Rattle.npm_packages.specs.LinkedFolders.{AreLinkedFolders};
ghost use Rattle.npm_manifest_files.specs.Linked.{AreRead, loaded_value, nothing_loaded, with_found};

use crate::load_error::LoadError;
use npm_lock::linked_folders;
use npm_lock_reports::{FolderName, Unread};
use serde_json::Value;
use std::alloc::{AllocError, Global};

/// A manifest, and the folder of its package.
#[derive(Drop)]
pub struct Linked {
    pub folder: String,
    pub manifest: Value,
}

/// What was found in the folder of a package.
#[derive(Drop)]
pub enum Found {
    /// No manifest.
    Nothing,
    /// A manifest that is not read.
    Unread,
    Manifest(Value),
}

/// A workspace that was found on disk.
#[derive(Drop)]
pub struct Workspace {
    pub name: String,
    pub folder: String,
}

/// The manifests that were read, what was not looked at, and the workspaces that were found on disk.
#[derive(Drop)]
pub struct Loaded {
    pub linked: Vec<Linked>,
    pub unread: Vec<Unread>,
    pub workspaces: Vec<Workspace>,
}

impl Loaded {
    /// Nothing was loaded.
    pub fn nothing(alloc: Global) -> Loaded
        ensures { loaded_value result ≡ nothing_loaded }
    {
        Loaded {
            linked: Vec::new(alloc),
            unread: Vec::new(alloc),
            workspaces: Vec::new(alloc),
        }
    }
}

/// Returns the manifests of the folders that links of the lock file name, in the order of the folders. `read` reads the
/// manifest of a folder.
///
/// # Errors
///
/// - What `read` returned.
/// - `Memory`: an allocation failed.
pub fn manifests_of<F: Fn(&str) -> Result<Found, LoadError>>(
    alloc: Global,
    lock: &Value,
    read: F,
) -> Result<Loaded, LoadError>
    requires { F.IsAlwaysCallable read }
    ensures found { IfOk result (λ made. (folders : List (List ℕ)) × AreLinkedFolders (view lock.now) folders
        × AreRead (FnReturnsAt F.Fn read) folders (loaded_value made)) }
    ensures failed { IfErr result (λ error. (error ≡ LoadError.Memory)
        ⊎ ((folder : List ℕ) × FnReturnsAt F.Fn read folder (Err error))) }
{
    let folders = match linked_folders(alloc, lock) {
        Ok(folders) => folders,
        Err(_) => return Err(LoadError::Memory),
    };
    let mut made = Loaded::nothing(alloc);
    for folder in &folders {
        let found = match read(folder) {
            Ok(found) => found,
            Err(error) => return Err(error),
        };
        add(alloc, &mut made, *folder, found).map_err(|_| LoadError::Memory)?;
    }
    Ok(made)
}

/// Adds the manifest of a folder, if it has one.
fn add(alloc: Global, made: &mut Loaded, folder: &str, found: Found) -> Result<(), AllocError>
    ensures { OnOk result (loaded_value made.new ≡ with_found folder.now found (loaded_value made.old)) }
{
    match found {
        Found::Nothing => {}
        Found::Unread => {
            let text = String::from_str(alloc, folder)?;
            made.unread.push(Unread::Manifest(FolderName { text }))?;
        }
        Found::Manifest(manifest) => {
            let folder = String::from_str(alloc, folder)?;
            made.linked.push(Linked { folder, manifest })?;
        }
    }
    Ok(())
}
