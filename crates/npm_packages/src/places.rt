//! Packages by their names and folders, and the nearest one at or above a path.
//!
//! Packages are found by comparing names and folders, since in a `HashMap` they could all collide.
ghost use Rattle.std.specs.Prelude.{◌≡◌, ℕ, List, IfOk, IsSome};
ghost use Rattle.std.specs.Cmp.Lexicographic.{slice_cmp};
ghost use Rattle.std.specs.Option.{MatchOption};
ghost use Rattle.std.specs.Ordering.{nat_cmp};
ghost use Rattle.std.specs.declared.cmp.Ordering.TheVariants.{Less};
ghost use Rattle.npm_packages.specs.Index.{HasAbove, IsFront, IsNearestOf, IsOver, at_place};
ghost use Rattle.npm_packages.specs.Private.Index.{AreByFolder, IsFirstFrom, IsLastTo, IsUpTo};

use crate::Result;
use crate::index::Hit;
use crate::search::{is_front, shared, split_last};
use std::alloc::Global;
use std::collections::BTreeMap;

/// Packages by their names and the folders in whose `node_modules` they are.
pub(crate) type Places<'v> = BTreeMap<(&'v str, &'v [u8]), Hit<'v>>;

/// The package of a name in the nearest folder that is this path or above it.
pub(crate) fn nearest<'v>(
    places: &Places<'v>,
    above: &Places<'v>,
    name: &'v str,
    path: &'v str,
) -> Option<Hit<'v>>
    requires by_folder { AreByFolder places.now }
    requires above { (folder : List ℕ) → IsUpTo folder path.now → HasAbove places.now above.now name.now folder }
    ensures { IsNearestOf places.now name.now (IsFront path.now) result }
{
    let last = last_to(places, name, path.as_bytes())?;
    if is_front(path, last.folder) {
        return Some(last);
    }
    nearest_beside(places, above, name, path, last)
}

/// The package of a name in the nearest folder that is this path or above it, if the last folder that is not after the path
/// is beside it. Of the folders that begin with what both share, the first one is at or above the path, or else what is nearest
/// above that folder is nearest above the path too.
fn nearest_beside<'v>(
    places: &Places<'v>,
    above: &Places<'v>,
    name: &'v str,
    path: &'v str,
    last: Hit<'v>,
) -> Option<Hit<'v>>
    requires by_folder { AreByFolder places.now }
    requires above { (folder : List ℕ) → IsUpTo folder path.now → HasAbove places.now above.now name.now folder }
    requires last { IsLastTo places.now name.now path.now last }
    requires beside { IsFront path.now last.folder.now → ⊥ }
    ensures { IsNearestOf places.now name.now (IsFront path.now) result }
{
    let start = shared(path.as_bytes(), last.folder.as_bytes());
    let first = first_from(places, name, start)?;
    if is_front(path, first.folder) {
        return Some(first);
    }
    match above.get(&(name, first.folder.as_bytes())) {
        Some(hit) => Some(*hit),
        None => None,
    }
}

/// The package of a name in the last folder that is not after these bytes.
fn last_to<'v>(places: &Places<'v>, name: &'v str, bytes: &'v [u8]) -> Option<Hit<'v>>
    ensures { MatchOption result
        ((folder : List ℕ) → IsSome (at_place places.now name.now folder) → IsUpTo folder bytes.now → ⊥)
        (IsLastTo places.now name.now bytes.now) }
{
    let (key, hit) = places.range(..=(name, bytes)).next_back()?;
    if key.0 == name { Some(*hit) } else { None }
}

/// The package of a name in the first folder that is not before these bytes.
fn first_from<'v>(places: &Places<'v>, name: &'v str, bytes: &'v [u8]) -> Option<Hit<'v>>
    ensures { MatchOption result
        ((folder : List ℕ) → IsSome (at_place places.now name.now folder) → IsUpTo bytes.now folder → ⊥)
        (IsFirstFrom places.now name.now bytes.now) }
{
    let (key, hit) = places.range((name, bytes)..).next()?;
    if key.0 == name { Some(*hit) } else { None }
}

/// For each package the one of its name in the nearest folder above its folder, if there is one.
pub(crate) fn above_all<'v>(alloc: Global, places: &Places<'v>) -> Result<Places<'v>>
    requires { AreByFolder places.now }
    ensures { IfOk result (λ above. (name folder : List ℕ) → HasAbove places.now above name folder) }
{
    let mut above = BTreeMap::new(alloc);
    for (key, hit) in places.iter() {
        if let Some(next) = next_above(places, &above, key.0, hit.folder) {
            above.insert((key.0, key.1), next)?;
        }
    }
    Ok(above)
}

/// The package of a name in the nearest folder above this one.
fn next_above<'v>(
    places: &Places<'v>,
    above: &Places<'v>,
    name: &'v str,
    folder: &'v str,
) -> Option<Hit<'v>>
    requires by_folder { AreByFolder places.now }
    requires above { (other : List ℕ) → slice_cmp nat_cmp other folder.now ≡ Less
        → HasAbove places.now above.now name.now other }
    ensures { IsNearestOf places.now name.now (IsOver folder.now) result }
{
    if folder.is_empty() {
        return None;
    }
    match split_last(folder) {
        Some((parent, _)) => nearest(places, above, name, parent),
        None => nearest(places, above, name, ""),
    }
}
