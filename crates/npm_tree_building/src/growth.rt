//! Places that are added, and taken back.

use crate::Result;
use crate::place::{Place, Spot};
use crate::tree::Tree;
use npm_packages::place_text;
use std::alloc::Global;

impl Tree {
    /// Adds a place without dependencies.
    pub(crate) fn add_place(&mut self, place: Place, folder: String) -> Result<usize> {
        let number = self.places.len();
        self.places.push(place)?;
        self.folders.push(folder)?;
        self.kids.push(Vec::new(self.alloc))?;
        Ok(number)
    }

    /// Puts a new place into its folder. What stood there is gone.
    pub(crate) fn stand(&mut self, number: usize) -> Result<()> {
        let place = self.place(number);
        let Some(folder) = place.up else {
            return Ok(());
        };
        if let Some(old) = place.old {
            self.mark_gone(old, true)?;
        }
        let spot = Spot {
            folder,
            name: place.name,
        };
        self.stands.insert(spot, number)?;
        if let Some(kids) = self.kids.get_mut(folder) {
            match place.old {
                Some(old) => replace(kids, old, number),
                None => kids.push(number)?,
            }
        }
        Ok(())
    }

    /// Returns the folder of a name in the `node_modules` of a place.
    pub(crate) fn folder_in(&self, alloc: Global, folder: usize, name: &str) -> Result<String> {
        place_text(alloc, self.folder(folder), name)
    }

    /// Takes the last places back, down to a number.
    pub(crate) fn take_back(&mut self, number: usize) -> Result<()> {
        for _ in number..self.places.len() {
            self.take_last()?;
        }
        Ok(())
    }

    /// Takes the last place back.
    fn take_last(&mut self) -> Result<()> {
        let number = self.places.len().saturating_sub(1);
        let place = self.place(number);
        self.leave_queue(number)?;
        self.forget_asks(place);
        self.places.pop();
        self.folders.pop();
        self.kids.pop();
        let Some(folder) = place.up else {
            return Ok(());
        };
        let spot = Spot {
            folder,
            name: place.name,
        };
        self.stands.remove(&spot);
        if let Some(kids) = self.kids.get_mut(folder) {
            remove_last(kids, number);
        }
        if let Some(old) = place.old {
            self.stands.insert(spot, old)?;
            if let Some(kids) = self.kids.get_mut(folder) {
                kids.push(old)?;
            }
            self.mark_gone(old, false)?;
        }
        Ok(())
    }

    /// Adds a dependency to those on its name.
    pub(crate) fn add_asker(&mut self, name: usize, ask: usize) -> Result<()> {
        for _ in self.askers.len()..name.saturating_add(1) {
            self.askers.push(Vec::new(self.alloc))?;
        }
        if let Some(askers) = self.askers.get_mut(name) {
            askers.push(ask)?;
        }
        Ok(())
    }

    /// Forgets the dependencies of the last place.
    fn forget_asks(&mut self, place: Place) {
        for at in place.from..place.to {
            let ask = self.ask(at);
            self.asked.remove(&Spot {
                folder: ask.from,
                name: ask.name,
            });
            if !ask.is_bundled {
                if let Some(askers) = self.askers.get_mut(ask.name) {
                    askers.pop();
                }
            }
            if at == place.from {
                self.more.truncate(ask.more_from);
            }
        }
        self.asks.truncate(place.from);
    }
}

/// Puts a place where another one is.
fn replace(kids: &mut Vec<usize>, old: usize, new: usize) {
    if let Some(at) = last_at(kids, old) {
        if let Some(kid) = kids.get_mut(at) {
            *kid = new;
        }
    }
}

/// Takes a place out, which is mostly the last one.
pub(crate) fn remove_last(kids: &mut Vec<usize>, number: usize) {
    if let Some(at) = last_at(kids, number) {
        if at < kids.len() {
            kids.remove(at);
        }
    }
}

/// Returns where a place is, from the end.
fn last_at(kids: &[usize], number: usize) -> Option<usize> {
    for at in (0..kids.len()).rev() {
        if let Some(kid) = kids.get(at) {
            if *kid == number {
                return Some(at);
            }
        }
    }
    None
}
