//! The index of places by their folders and names, and what is seen from a folder.
//!
//! Places are found by comparing names, since in a `HashMap` they could all collide.
ghost use Rattle.std.specs.Prelude.{◌≡◌, ◌↔◌, IfOk, IsTrue, ℕ, List};
ghost use Rattle.std.specs.Option.{MatchOption};
ghost use Rattle.npm_trees.specs.Places.{IsIn};
ghost use Rattle.npm_trees.specs.Whole.{IsAbove};
ghost use Rattle.npm_trees.specs.Private.Folders.{AreDistinct, AreUpward, IsIndexOf, IsOnlySeen, at_name};

use crate::Result;
use crate::place::up_of;
use crate::tree::Place;
use std::alloc::Global;
use std::collections::BTreeMap;

/// Places by their folders and names.
pub(crate) type Folders<'d> = BTreeMap<(usize, &'d str), usize>;

/// Returns the index of places, or `None` if two have one name in a folder.
pub(crate) fn folders_of<'d>(alloc: Global, places: &[Place<'d>]) -> Result<Option<Folders<'d>>>
    ensures { IfOk result (λ found. MatchOption found (¬ AreDistinct places.now) (IsIndexOf places.now)) }
{
    let mut folders = BTreeMap::new(alloc);
    for number in 0..places.len() {
        let place = places[number];
        match place.up {
            Some(up) => {
                if folders.insert((up, place.name), number)?.is_some() {
                    return Ok(None);
                }
            }
            None => {}
        }
    }
    Ok(Some(folders))
}

/// Returns the place that has a name in a folder.
pub(crate) fn in_folder<'d>(folders: &Folders<'d>, folder: usize, name: &'d str) -> Option<usize>
    ensures { result ≡ at_name folders.now folder name.now }
{
    match folders.get(&(folder, name)) {
        Some(number) => Some(*number),
        None => None,
    }
}

/// Returns what is seen under a name from a folder.
pub(crate) fn seen_from<'d>(
    folders: &Folders<'d>,
    places: &[Place<'d>],
    name: &'d str,
    start: usize,
) -> Option<usize>
    requires index { IsIndexOf places.now folders.now }
    requires upward { AreUpward places.now }
    ensures { IsOnlySeen places.now name.now start result }
{
    let mut folder = start;
    'up: loop {
        if let Some(number) = in_folder(folders, folder, name) {
            return Some(number);
        }
        match up_of(places, folder) {
            Some(up) => folder = up,
            None => return None,
        }
    }
}

/// Returns `true` if a place is above another.
pub(crate) fn is_above(places: &[Place<'_>], number: usize, above: usize) -> bool
    requires { AreUpward places.now }
    ensures { IsTrue result ↔ IsAbove places.now number above }
{
    let mut folder = number;
    'up: while let Some(up) = up_of(places, folder) {
        if up == above {
            return true;
        }
        folder = up;
    }
    false
}
