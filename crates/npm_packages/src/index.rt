//! The index of a lock file: which package a name has in the `node_modules` of a folder.
//!
//! Packages are found by comparing names and folders, since in a `HashMap` they could all collide.
ghost use Rattle.std.specs.Prelude.{◌≡◌, ◌∷◌, ◌++◌, ◌↔◌, List, IfOk, IsTrue, OnOk, Some, ℕ};
ghost use Rattle.serde_json.specs.Find.{get};
ghost use Rattle.serde_json.specs.View.{view};
ghost use Rattle.npm_packages.specs.Index.{ArePlacesOf, IsIndexOf};
ghost use Rattle.npm_packages.specs.LastParts.{IsEnd, IsLast, IsPlain};
ghost use Rattle.npm_packages.specs.Private.Index.{IsAdded, IsMore};
ghost use Rattle.npm_packages.specs.PackageValue.{packages_data};

use crate::Result;
use crate::folder::is_modules;
use crate::place::{Lock, Package};
use crate::places::{Places, above_all};
use crate::search::{front_of, inside, rest_of, split_last};
use std::collections::BTreeMap;

/// A package, and the folder in whose `node_modules` it is.
#[derive(Clone, Copy)]
pub(crate) struct Hit<'v> {
    pub(crate) folder: &'v str,
    /// The package there, or the target of a link there.
    pub(crate) found: Package<'v>,
}

/// All packages of a lock file, by their names and the folders in whose `node_modules` they are. `Lock::find` looks names
/// up in it.
#[derive(Drop)]
pub struct Index<'v> {
    pub(crate) by_name: Places<'v>,
    /// For each package the one of its name in the nearest folder above its folder, if there is one.
    pub(crate) above: Places<'v>,
}

impl<'v> Index<'v> {
    /// Returns the index of the packages of a lock file.
    ///
    /// # Errors
    ///
    /// An allocation failed.
    ///
    /// # Memory
    ///
    /// Allocates an entry for each package that is in a `node_modules`, and one more for each of them with another package of
    /// its name in a folder above. Names and folders are borrowed.
    pub fn of_lock(lock: Lock<'v>) -> Result<Index<'v>>
        ensures { IfOk result (λ index. IsIndexOf (packages_data lock.entry) index) }
    {
        let by_name = places_of(lock)?;
        let above = above_all(lock.alloc, &by_name)?;
        Ok(Index { by_name, above })
    }
}

/// The packages of a lock file by their names and folders.
fn places_of<'v>(lock: Lock<'v>) -> Result<Places<'v>>
    ensures { IfOk result (λ places. ArePlacesOf (packages_data lock.entry) places) }
{
    let mut places = BTreeMap::new(lock.alloc);
    for (folder, member) in lock.members.iter() {
        let folder = folder.as_str();
        add_member(&mut places, lock, Package { folder, member })?;
    }
    Ok(places)
}

/// Adds a member of `packages` that is in a `node_modules`, but not a link whose target is not there.
fn add_member<'v>(places: &mut Places<'v>, lock: Lock<'v>, placed: Package<'v>) -> Result<()>
    requires { get placed.folder.now (packages_data lock) ≡ Some (view placed.member.now) }
    ensures { OnOk result (IsMore (packages_data lock.entry) placed.entry.folder.now places.old places.new) }
{
    let Some(found) = lock.found_at(placed) else {
        return Ok(());
    };
    let name = end_of(placed.folder);
    match inside(placed.folder, name) {
        Some(folder) if !is_modules(folder) => add(places, name, Hit { folder, found }),
        _ => Ok(()),
    }
}

/// Adds the package of a name in the `node_modules` of a folder.
fn add<'v>(places: &mut Places<'v>, name: &'v str, hit: Hit<'v>) -> Result<()>
    ensures { OnOk result (IsAdded name.now hit.entry places.old places.new) }
{
    places.insert((name, hit.folder.as_bytes()), hit)?;
    Ok(())
}

/// Returns `true` for a name of one part, or of a scope and a part, as npm's names are.
pub(crate) fn is_plain(name: &str) -> bool
    ensures { IsTrue result ↔ IsPlain name.now }
{
    end_of(name) == name
}

/// Returns the last part of a path, with the scope before it: `b` of `a/b`, and `@s/b` of `a/@s/b`. Does not allocate.
pub fn end_of(path: &str) -> &str
    ensures { IsEnd path.now result.now }
{
    let Some((above, last)) = split_last(path) else {
        return path;
    };
    let part = last_of(above);
    if part.starts_with('@') {
        without_front(path, above, part)
    } else {
        last
    }
}

/// The last part of a path.
fn last_of(path: &str) -> &str
    ensures { IsLast path.now result.now }
{
    match split_last(path) {
        Some((_, last)) => last,
        None => path,
    }
}

/// The path without all that comes before this part, which is the last part of the path `above`.
fn without_front<'v>(path: &'v str, above: &str, part: &str) -> &'v str
    requires { IsLast above.now part.now × ((last : List ℕ) × (path.now ≡ above.now ++ (47 ∷ last))) }
    ensures { (front : List ℕ) × (above.now ≡ front ++ part.now) × (path.now ≡ front ++ result.now) }
{
    let front = front_of(above, part).unwrap();
    rest_of(path, front).unwrap()
}
