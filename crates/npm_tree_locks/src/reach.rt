//! Places that the root reaches without some groups of dependencies.

use crate::Result;
use crate::seen::Sights;
use npm_trees::{Ask, Kind, Stands, Tree};
use std::alloc::Global;

/// Groups of dependencies that lead nowhere.
#[derive(Clone, Copy, Drop)]
pub(crate) struct Groups {
    pub(crate) dev: bool,
    pub(crate) optional: bool,
    pub(crate) peer: bool,
}

/// Returns for each place whether the root reaches it by dependencies that are in none of these groups. A package is reached with the one
/// in whose folder it is.
pub(crate) fn reached(
    alloc: Global,
    tree: &Tree<'_>,
    sights: &Sights,
    groups: Groups,
) -> Result<Vec<bool>> {
    let mut is_reached = Vec::with_capacity(alloc, tree.places.len())?;
    for _ in &tree.places {
        is_reached.push(false)?;
    }
    let mut waiting = Vec::new(alloc);
    waiting.push(0)?;
    for _ in 0..u64::MAX {
        let Some(number) = waiting.pop() else {
            return Ok(is_reached);
        };
        if is_new(&mut is_reached, number) {
            add_around(&mut waiting, tree, number)?;
            add_seen(&mut waiting, tree, sights, number, groups)?;
        }
    }
    Ok(is_reached)
}

/// Marks a place. Returns `true` if it was not marked before.
fn is_new(is_reached: &mut Vec<bool>, number: usize) -> bool {
    match is_reached.get_mut(number) {
        Some(mark) => {
            let is_new = !*mark;
            *mark = true;
            is_new
        }
        None => false,
    }
}

/// Adds the place in whose folder a place is, and that to which it links.
fn add_around(waiting: &mut Vec<usize>, tree: &Tree<'_>, number: usize) -> Result<()> {
    if let Some(place) = tree.places.get(number) {
        if let Some(up) = place.up {
            waiting.push(up)?;
        }
        if let Stands::Link { to } = place.stands {
            waiting.push(to)?;
        }
    }
    Ok(())
}

/// Adds what the dependencies of a place see.
fn add_seen(
    waiting: &mut Vec<usize>,
    tree: &Tree<'_>,
    sights: &Sights,
    number: usize,
    groups: Groups,
) -> Result<()> {
    if let Some(asks) = sights.asks.get(number) {
        for ask in asks {
            if let Some(to) = target(tree, sights, *ask, groups) {
                waiting.push(to)?;
            }
        }
    }
    Ok(())
}

/// What a dependency sees that is in none of these groups.
fn target(tree: &Tree<'_>, sights: &Sights, number: usize, groups: Groups) -> Option<usize> {
    match tree.asks.get(number) {
        Some(ask) if leads(groups, ask) => match sights.targets.get(number) {
            Some(target) => *target,
            None => None,
        },
        _ => None,
    }
}

/// Returns `true` for a dependency that is in none of these groups.
fn leads(groups: Groups, ask: &Ask<'_>) -> bool {
    let is_dev = ask.kind == Kind::Dev;
    let is_optional = ask.kind == Kind::Optional || ask.kind == Kind::OptionalPeer;
    let is_peer = ask.kind == Kind::Peer || ask.kind == Kind::OptionalPeer;
    !(groups.dev && is_dev) && !(groups.optional && is_optional) && !(groups.peer && is_peer)
}
