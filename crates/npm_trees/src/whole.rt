//! Whether a tree is whole.
ghost use Rattle.std.specs.Prelude.{◌≡◌, ◌↔◌, ◌<◌, All, IfOk, IsTrue, Some, option_map, slice_get, ℕ};
ghost use Rattle.npm_trees.specs.Whole as Whole;
ghost use Rattle.npm_trees.specs.Whole.{IsInFolder, IsWhole, MayStand};
ghost use Rattle.serde_json.specs.View.{view};
ghost use Rattle.std.specs.Option.{MatchOption};
ghost use Rattle.npm_trees.specs.Private.Folders.{AreUpward, IsWholeBy};
ghost use Rattle.npm_trees.specs.declared.tree.Ask.{Ask};
ghost use Rattle.npm_trees.specs.declared.tree.Place.{Place};

use crate::Result;
use crate::folders::{Folders, folders_of, is_above};
use crate::place::{has_folder, has_package, is_top};
use crate::tree::{Ask, Document, Place, Stands};
use serde_json::Value;
use std::alloc::Global;

/// Returns the index of the places of a whole tree, or `None` if it is not whole.
#[tactic(auto, using(crate::proofs::Walking::upward))]
pub(crate) fn whole_folders<'d>(
    alloc: Global,
    places: &[Place<'d>],
    documents: &[Document<'_>],
    asks: &[Ask<'_>],
) -> Result<Option<Folders<'d>>>
    ensures { IfOk result (λ found. MatchOption found (¬ IsWhole places.now documents.now asks.now)
        (IsWholeBy places.now documents.now asks.now)) }
{
    if places.is_empty() {
        return Ok(None);
    }
    if !are_askers(places.len(), asks) {
        return Ok(None);
    }
    if !are_in_folders(places) {
        return Ok(None);
    }
    if !may_all_stand(places, documents) {
        return Ok(None);
    }
    folders_of(alloc, places)
}

/// Returns the manifest of a package: the member of `versions` in its document.
pub fn manifest_in<'d>(
    documents: &[Document<'d>],
    document: usize,
    version: &str,
) -> Option<&'d Value>
    ensures { option_map (λ value. view value.now) result ≡ Whole.manifest_in documents.now document version.now }
{
    match documents.get(document) {
        Some(found) => found.value.get("versions")?.get(version),
        None => None,
    }
}

/// Returns `true` if each place is in the folder of one before it, or is the root.
fn are_in_folders(places: &[Place<'_>]) -> bool
    ensures { IsTrue result
        ↔ ((number : ℕ) (place : Place) → slice_get places.now number ≡ Some place → IsInFolder places.now number place) }
{
    for number in 0..places.len() {
        if !is_in_folder(places, number, places[number]) {
            return false;
        }
    }
    true
}

fn is_in_folder(places: &[Place<'_>], number: usize, place: Place<'_>) -> bool
    ensures { IsTrue result ↔ IsInFolder places.now number place.entry }
{
    match place.up {
        Some(up) => up < number && has_folder(places, up),
        None => number == 0 && is_top(place.stands),
    }
}

/// Returns `true` if each place holds what it may.
fn may_all_stand(places: &[Place<'_>], documents: &[Document<'_>]) -> bool
    requires { AreUpward places.now }
    ensures { IsTrue result ↔ ((number : ℕ) (place : Place) → slice_get places.now number ≡ Some place
        → MayStand places.now documents.now number place place.stands) }
{
    for number in 0..places.len() {
        if !may_stand(places, documents, number, places[number]) {
            return false;
        }
    }
    true
}

fn may_stand(
    places: &[Place<'_>],
    documents: &[Document<'_>],
    number: usize,
    place: Place<'_>,
) -> bool
    requires { AreUpward places.now }
    ensures { IsTrue result ↔ MayStand places.now documents.now number place.entry place.entry.stands }
{
    match place.stands {
        Stands::Top { .. } => is_in_root(place.up),
        Stands::Package { document, version } => {
            manifest_in(documents, document, version).is_some()
        }
        Stands::Link { to } => {
            has_package(places, to, place.rules) && is_above(places, number, to)
        }
    }
}

fn is_in_root(up: Option<usize>) -> bool
    ensures { IsTrue result ↔ MatchOption up (Unit {0}) (λ up. up ≡ 0) }
{
    match up {
        Some(up) => up == 0,
        None => true,
    }
}

/// Returns `true` if only places ask.
fn are_askers(count: usize, asks: &[Ask<'_>]) -> bool
    ensures { IsTrue result ↔ All (λ (ask : Ask). ask.from < count) asks.now }
{
    for ask in asks {
        if ask.from >= count {
            return false;
        }
    }
    true
}
