//! The tree as it grows: places, dependencies, and what stands where.

use crate::Result;
use crate::ask::{Ask, NOTHING};
use crate::place::{NOWHERE, Place, Spot};
use std::alloc::Global;
use std::collections::BTreeMap;

/// When the dependencies of a place are settled: by depth, then by the bytes of its folder.
#[derive(PartialEq, Eq, PartialOrd, Ord, Drop)]
pub(crate) struct Turn {
    pub(crate) depth: usize,
    pub(crate) folder: String,
}

/// Places and dependencies by number. Those that are taken back are the last ones.
#[derive(Drop)]
pub(crate) struct Tree {
    pub(crate) alloc: Global,
    pub(crate) places: Vec<Place>,
    /// The folder of each place.
    pub(crate) folders: Vec<String>,
    /// The places in the `node_modules` of each place, in the order in which they came.
    pub(crate) kids: Vec<Vec<usize>>,
    pub(crate) asks: Vec<Ask>,
    /// Further wants of dependencies.
    pub(crate) more: Vec<usize>,
    /// What stands in a folder under a name.
    pub(crate) stands: BTreeMap<Spot, usize>,
    /// The dependency of a place on a name.
    pub(crate) asked: BTreeMap<Spot, usize>,
    /// The dependencies on each name.
    pub(crate) askers: Vec<Vec<usize>>,
    /// The places that are not settled.
    pub(crate) queue: BTreeMap<Turn, usize>,
    /// The places of workspaces.
    pub(crate) workspaces: Vec<usize>,
}

impl Tree {
    pub(crate) fn new(alloc: Global) -> Tree {
        Tree {
            alloc,
            places: Vec::new(alloc),
            folders: Vec::new(alloc),
            kids: Vec::new(alloc),
            asks: Vec::new(alloc),
            more: Vec::new(alloc),
            stands: BTreeMap::new(alloc),
            asked: BTreeMap::new(alloc),
            askers: Vec::new(alloc),
            queue: BTreeMap::new(alloc),
            workspaces: Vec::new(alloc),
        }
    }

    pub(crate) fn place(&self, number: usize) -> Place {
        match self.places.get(number) {
            Some(place) => *place,
            None => NOWHERE,
        }
    }

    pub(crate) fn ask(&self, number: usize) -> Ask {
        match self.asks.get(number) {
            Some(ask) => *ask,
            None => NOTHING,
        }
    }

    /// Returns the folder of a place.
    pub(crate) fn folder(&self, number: usize) -> &str {
        match self.folders.get(number) {
            Some(folder) => folder.as_str(),
            None => "",
        }
    }

    /// Returns what stands in a folder under a name.
    pub(crate) fn standing(&self, folder: usize, name: usize) -> Option<usize> {
        match self.stands.get(&Spot { folder, name }) {
            Some(place) => Some(*place),
            None => None,
        }
    }

    /// Returns the dependency of a place on a name.
    pub(crate) fn asked_by(&self, folder: usize, name: usize) -> Option<usize> {
        match self.asked.get(&Spot { folder, name }) {
            Some(ask) => Some(*ask),
            None => None,
        }
    }

    /// Returns what is seen under a name from a place.
    pub(crate) fn see(&self, from: Option<usize>, name: usize) -> Option<usize> {
        let mut at = from;
        for _ in 0..self.places.len() {
            let folder = at?;
            if let Some(found) = self.standing(folder, name) {
                return Some(found);
            }
            at = self.place(folder).up;
        }
        None
    }

    /// Returns what a dependency sees.
    pub(crate) fn seen(&self, ask: Ask) -> Option<usize> {
        if ask.is_peer {
            self.see(self.place(ask.from).up, ask.name)
        } else {
            self.see(Some(ask.from), ask.name)
        }
    }

    /// Returns `true` if a place is another one, or stands below it.
    pub(crate) fn is_within(&self, place: usize, other: usize) -> bool {
        let mut at = Some(place);
        for _ in 0..self.places.len() {
            match at {
                Some(here) if here == other => return true,
                Some(here) => at = self.place(here).up,
                None => return false,
            }
        }
        false
    }

    pub(crate) fn set_done(&mut self, ask: usize, is_done: bool) {
        if let Some(ask) = self.asks.get_mut(ask) {
            ask.is_done = is_done;
        }
    }
}
