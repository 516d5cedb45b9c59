//! Whether each place of a tree is reached.
ghost use Rattle.std.specs.Prelude.{◌≡◌, ◌↔◌, ◌<◌, ℕ, All, Contains, IfOk, IsTrue, OnOk, Some, length};
ghost use Rattle.npm_trees.specs.Reaching.{AreReached, IsReached, IsTop};
ghost use Rattle.npm_trees.specs.Reaching as Reaching;
ghost use Rattle.npm_trees.specs.Private.Folders.{AreUpward, IsIndexOf};
ghost use Rattle.npm_trees.specs.Private.Reaching.{AreAdded, AreMarked, AreWays, Has, HasWay, IsNext, IsTold, IsWanted};
ghost use Rattle.npm_trees.specs.declared.tree.Ask.{Ask};

use crate::Result;
use crate::folders::{Folders, seen_from};
use crate::found::Found;
use crate::named::asks_for;
use crate::place::{is_top, start_of, up_of};
use crate::tree::{Ask, Document, Place, Stands};
use std::alloc::{AllocError, Global};

/// Returns `true` if each place is reached.
pub(crate) fn are_reached<'d>(
    alloc: Global,
    folders: &Folders<'d>,
    places: &[Place<'d>],
    documents: &[Document<'d>],
    asks: &[Ask<'d>],
) -> Result<bool>
    requires index { IsIndexOf places.now folders.now }
    requires upward { AreUpward places.now }
    requires askers { All (λ (ask : Ask). ask.from < length places.now) asks.now }
    ensures { IfOk result (λ all. IsTrue all ↔ AreReached places.now documents.now asks.now) }
{
    let ways = ways_of(alloc, folders, places, documents, asks)?;
    let reached = reached_from(alloc, places, documents, asks, &ways)?;
    for number in 0..places.len() {
        if !reached.has(number) {
            return Ok(false);
        }
    }
    Ok(true)
}

// ---- the ways that dependencies lead

/// Returns for each place where its dependencies lead.
fn ways_of<'d>(
    alloc: Global,
    folders: &Folders<'d>,
    places: &[Place<'d>],
    documents: &[Document<'d>],
    asks: &[Ask<'d>],
) -> Result<Vec<Vec<usize>>>
    requires index { IsIndexOf places.now folders.now }
    requires upward { AreUpward places.now }
    requires askers { All (λ (ask : Ask). ask.from < length places.now) asks.now }
    ensures { IfOk result (λ ways. AreWays places.now documents.now asks.now ways.items) }
{
    let mut ways = no_ways(alloc, places.len())?;
    for ask in asks {
        add_way(&mut ways, ask.from, wanted(folders, places, documents, ask))?;
    }
    Ok(ways)
}

/// Returns a list without a way for each place.
fn no_ways(alloc: Global, count: usize) -> Result<Vec<Vec<usize>>>
    ensures none { IfOk result (λ ways. (number to : ℕ) → HasWay ways.items number to → ⊥) }
    ensures count { IfOk result (λ ways. length ways.items ≡ count) }
{
    let mut ways = Vec::with_capacity(alloc, count)?;
    for place in 0..count {
        ways.push(Vec::new(alloc))?;
    }
    Ok(ways)
}

/// Adds a way from a place to another, if it leads to one.
fn add_way(ways: &mut Vec<Vec<usize>>, from: usize, to: Option<usize>) -> Result<()>
    requires { from < length ways.old.items }
    ensures ways { OnOk result ((number other : ℕ) → HasWay ways.new.items number other ↔ IsTold from to ways.old.items number other) }
    ensures count { length ways.new.items ≡ length ways.old.items }
{
    if let Some(to) = to {
        ways[from].push(to)?;
    }
    Ok(())
}

/// Returns where a dependency leads: to what is seen, if it asks for that very package.
fn wanted<'d>(
    folders: &Folders<'d>,
    places: &[Place<'d>],
    documents: &[Document<'d>],
    ask: &Ask<'d>,
) -> Option<usize>
    requires index { IsIndexOf places.now folders.now }
    requires upward { AreUpward places.now }
    ensures { (to : ℕ) → (result ≡ Some to) ↔ IsWanted places.now documents.now ask.now to }
{
    if ask.bundled {
        return None;
    }
    let to = seen_from(folders, places, ask.name, start_of(places, ask))?;
    if asks_for(places, documents, ask, to) {
        Some(to)
    } else {
        None
    }
}

// ---- what is reached

/// Returns the places that are reached.
fn reached_from(
    alloc: Global,
    places: &[Place<'_>],
    documents: &[Document<'_>],
    asks: &[Ask<'_>],
    ways: &[Vec<usize>],
) -> Result<Found>
    requires { AreWays places.now documents.now asks.now ways.now }
    ensures marked { IfOk result AreMarked }
    ensures reached { IfOk result (λ found. (number : ℕ) → Has found number
        ↔ IsReached places.now documents.now asks.now number) }
{
    let mut reached = tops_of(alloc, places)?;
    for step in 0..usize::MAX {
        let Some(number) = reached.at(step) else {
            return Ok(reached);
        };
        add_next(&mut reached, places, ways, number)?;
    }
    // No memory has so many places.
    Err(AllocError)
}

/// Returns the root and the workspaces.
fn tops_of(alloc: Global, places: &[Place<'_>]) -> Result<Found>
    ensures marked { IfOk result AreMarked }
    ensures tops { IfOk result (λ reached. (number : ℕ) → Has reached number ↔ IsTop places.now number) }
{
    let mut reached = Found::new(alloc);
    for number in 0..places.len() {
        reached.add_some(top_at(places, number))?;
    }
    Ok(reached)
}

/// Returns the place, if it is the root or a workspace.
fn top_at(places: &[Place<'_>], number: usize) -> Option<usize>
    ensures { (other : ℕ) → (result ≡ Some other) ↔ ((number ≡ other) × IsTop places.now number) }
{
    match places.get(number) {
        Some(place) if is_top(place.stands) => Some(number),
        _ => None,
    }
}

/// Returns what a place links to.
fn link_of(places: &[Place<'_>], number: usize) -> Option<usize>
    ensures { result ≡ Reaching.link_of places.now number }
{
    match places.get(number)?.stands {
        Stands::Link { to } => Some(to),
        _ => None,
    }
}

/// Adds what a place leads to.
fn add_next(
    found: &mut Found,
    places: &[Place<'_>],
    ways: &[Vec<usize>],
    number: usize,
) -> Result<()>
    requires { AreMarked found.old }
    ensures { OnOk result (AreAdded (IsNext places.now ways.now number) found.old found.new) }
{
    found.add_some(up_of(places, number))?;
    found.add_some(link_of(places, number))?;
    found.add_all(ways_from(ways, number))
}

/// Returns where the dependencies of a place lead.
fn ways_from(ways: &[Vec<usize>], number: usize) -> &[usize]
    ensures { (to : ℕ) → Contains result.now to ↔ HasWay ways.now number to }
{
    match ways.get(number) {
        Some(list) => list.as_slice(),
        None => &[],
    }
}
