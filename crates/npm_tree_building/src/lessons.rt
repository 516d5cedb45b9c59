//! What earlier attempts taught.

use crate::Result;
use std::alloc::{AllocError, Global};
use std::collections::{BTreeMap, BTreeSet};

/// A dependency of a version on a name.
#[derive(Clone, Copy, PartialEq, Eq, PartialOrd, Ord, Drop)]
pub(crate) struct Need {
    pub(crate) version: usize,
    pub(crate) name: usize,
}

/// What earlier attempts taught: for dependencies of versions.
#[derive(Drop)]
pub(crate) struct Lessons {
    /// Optional dependencies that are left out.
    left: BTreeSet<Need>,
    /// Versions that are refused for a dependency.
    refused: BTreeMap<Need, Vec<usize>>,
    /// Specs that a peer must meet too, by number.
    hints: BTreeMap<Need, Vec<usize>>,
}

impl Lessons {
    pub(crate) fn new(alloc: Global) -> Lessons {
        Lessons {
            left: BTreeSet::new(alloc),
            refused: BTreeMap::new(alloc),
            hints: BTreeMap::new(alloc),
        }
    }

    pub(crate) fn is_left(&self, need: Need) -> bool {
        self.left.contains(&need)
    }

    /// Leaves an optional dependency out. Returns `true` if it was not left out before.
    pub(crate) fn leave(&mut self, need: Need) -> Result<bool> {
        match self.left.insert(need) {
            Ok(is_new) => Ok(is_new),
            Err(_) => Err(AllocError),
        }
    }

    pub(crate) fn has_refused(&self, need: Need) -> bool {
        self.refused.get(&need).is_some()
    }

    pub(crate) fn is_refused(&self, need: Need, version: usize) -> bool {
        match self.refused.get(&need) {
            Some(versions) => versions.contains(&version),
            None => false,
        }
    }

    /// Refuses a version. Returns `true` if it was not refused before.
    pub(crate) fn refuse(&mut self, alloc: Global, need: Need, version: usize) -> Result<bool> {
        add(alloc, &mut self.refused, need, version)
    }

    /// Adds a spec. Returns `true` if it is new.
    pub(crate) fn hint(&mut self, alloc: Global, need: Need, spec: usize) -> Result<bool> {
        add(alloc, &mut self.hints, need, spec)
    }

    /// Returns the number of the spec at a place of those that a peer must meet too.
    pub(crate) fn hint_at(&self, need: Need, place: usize) -> Option<usize> {
        match self.hints.get(&need) {
            Some(specs) => specs.get(place).copied(),
            None => None,
        }
    }
}

/// Adds a number to those of a dependency. Returns `true` if it is new.
fn add(
    alloc: Global,
    lists: &mut BTreeMap<Need, Vec<usize>>,
    need: Need,
    number: usize,
) -> Result<bool> {
    if let Some(list) = lists.get_mut(&need) {
        if list.contains(&number) {
            return Ok(false);
        }
        list.push(number)?;
        return Ok(true);
    }
    let mut list = Vec::new(alloc);
    list.push(number)?;
    lists.insert(need, list)?;
    Ok(true)
}
