//! What the dependencies of a tree see.

use crate::Result;
use npm_trees::{Ask, Kind, Stands, Tree};
use std::alloc::Global;
use std::collections::BTreeMap;

/// What each dependency sees, and the dependencies of each place.
#[derive(Drop)]
pub(crate) struct Sights {
    pub(crate) targets: Vec<Option<usize>>,
    pub(crate) asks: Vec<Vec<usize>>,
}

/// Places by their folders and names.
type Index<'d> = BTreeMap<(usize, &'d str), usize>;

impl Sights {
    pub(crate) fn of(alloc: Global, tree: &Tree<'_>) -> Result<Sights> {
        let mut index = BTreeMap::new(alloc);
        let mut asks = Vec::with_capacity(alloc, tree.places.len())?;
        for (number, place) in tree.places.iter().enumerate() {
            if let Some(up) = place.up {
                index.insert((up, place.name), number)?;
            }
            asks.push(Vec::new(alloc))?;
        }
        let mut targets = Vec::with_capacity(alloc, tree.asks.len())?;
        for (number, ask) in tree.asks.iter().enumerate() {
            let target = if ask.bundled {
                None
            } else {
                target_of(tree, &index, ask)
            };
            targets.push(target)?;
            add(&mut asks, ask.from, number)?;
        }
        Ok(Sights { targets, asks })
    }
}

/// Adds a dependency to those of a place.
fn add(asks: &mut Vec<Vec<usize>>, place: usize, ask: usize) -> Result<()> {
    if let Some(list) = asks.get_mut(place) {
        list.push(ask)?;
    }
    Ok(())
}

/// What a dependency sees.
fn target_of<'d>(tree: &Tree<'d>, index: &Index<'d>, ask: &Ask<'d>) -> Option<usize> {
    let mut at = start(tree, ask);
    for _ in 0..tree.places.len() {
        let folder = at?;
        if let Some(found) = index.get(&(folder, ask.name)) {
            return Some(*found);
        }
        at = up(tree, folder);
    }
    None
}

/// The folder from which a dependency is looked up.
fn start(tree: &Tree<'_>, ask: &Ask<'_>) -> Option<usize> {
    let is_peer = ask.kind == Kind::Peer || ask.kind == Kind::OptionalPeer;
    match tree.places.get(ask.from) {
        Some(place) => match place.stands {
            Stands::Package { .. } if is_peer => place.up,
            _ => Some(ask.from),
        },
        None => None,
    }
}

/// The place in whose folder a place is.
fn up(tree: &Tree<'_>, number: usize) -> Option<usize> {
    match tree.places.get(number) {
        Some(place) => place.up,
        None => None,
    }
}
