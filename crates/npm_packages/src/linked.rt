//! The folders of packages that links name. npm reads the manifests of these packages beside the lock file.
ghost use Rattle.std.specs.Prelude.{◌≡◌, ◌↔◌, ℕ, IfOk, List, Some, codes, map, option_and_then, option_map};
ghost use Rattle.serde_json.specs.Find.{as_object, get};
ghost use Rattle.serde_json.specs.View.{members_view, view};
ghost use Rattle.npm_packages.specs.Lemmas.FolderMaps.{HasFolder};
ghost use Rattle.npm_packages.specs.LinkedFolders.{AreLinkedFolders, IsLinkTo, IsLinked};
ghost use Rattle.npm_packages.specs.PackageValue.{packages_data};
ghost use Rattle.npm_packages.specs.Private.Linked.{AreKeys};

use crate::Result;
use crate::folder::is_installed;
use crate::place::{Lock, is_link};
use serde_json::{Map, Value};
use std::alloc::Global;
use std::collections::BTreeMap;

/// Folders, each once, in the order of their bytes.
type Folders<'v> = BTreeMap<&'v str, ()>;

/// Returns the folders of the packages that links of the lock file name: its workspaces, and the packages of `file:` specs.
/// The root and the folders in a `node_modules` are left out. Each folder is there once, in the order of their bytes.
///
/// # Errors
///
/// An allocation failed.
pub fn linked_folders(alloc: Global, lock: &Value) -> Result<Vec<&str>>
    ensures { IfOk result (λ list. AreLinkedFolders (view lock.now) (map (λ folder. folder.now) list.items)) }
{
    let Some(members) = members_of(lock) else {
        return Ok(Vec::new(alloc));
    };
    let lock = Lock { alloc, members };
    list_of(alloc, &folders_of(lock)?)
}

/// Returns the members of `packages`, or `None` if the value has no object of this name. Does not allocate.
pub fn members_of(lock: &Value) -> Option<&Map<String, Value>>
    ensures { option_map (λ members. members_view members.now.entries) result
        ≡ option_and_then as_object (get (codes "packages") (view lock.now)) }
{
    lock.get("packages")?.as_object()
}

/// The folders to which links lead.
fn folders_of(lock: Lock<'_>) -> Result<Folders<'_>>
    ensures { IfOk result (λ folders. (folder : List ℕ) → HasFolder folders folder
        ↔ IsLinked (packages_data lock.entry) folder) }
{
    let mut folders = BTreeMap::new(lock.alloc);
    for (_, member) in lock.members.iter() {
        if let Some(folder) = folder_of(lock, member) {
            folders.insert(folder, ())?;
        }
    }
    Ok(folders)
}

/// The folder to which a link leads.
fn folder_of<'v>(lock: Lock<'v>, member: &'v Value) -> Option<&'v str>
    ensures { (folder : List ℕ) → (option_map (λ found. found.now) result ≡ Some folder)
        ↔ IsLinkTo (packages_data lock.entry) (view member.now) folder }
{
    if !is_link(member) {
        return None;
    }
    let target = lock.target_of(member)?;
    if is_link(target.member) || target.folder.is_empty() || is_installed(target.folder) {
        return None;
    }
    Some(target.folder)
}

/// The folders in a list.
fn list_of<'v>(alloc: Global, folders: &Folders<'v>) -> Result<Vec<&'v str>>
    ensures { IfOk result (λ list. AreKeys folders.now (map (λ folder. folder.now) list.items)) }
{
    let mut list = Vec::new(alloc);
    for (folder, _) in folders.iter() {
        list.push(*folder)?;
    }
    Ok(list)
}
