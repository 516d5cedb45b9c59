//! The ways to place a package for a dependency.

use crate::Result;
use crate::ask::Ask;
use crate::builder::Builder;
use crate::search::{Left, Ways};

impl<'v> Builder<'v> {
    /// Adds the choice between the ways to place a package for a dependency, so that it is seen from a place.
    pub(crate) fn open(
        &mut self,
        start: usize,
        number: usize,
        is_pick: bool,
        next: Option<usize>,
    ) -> Result<()> {
        let ask = self.tree.ask(number);
        let from = self.search.folders.len();
        let locked = self.locked(ask)?;
        let free = self.free_folders(start, ask.name)?;
        let front = match locked {
            Some((_, home)) if free.contains(&home) => Some(home),
            _ => free.last().copied(),
        };
        let top = self.folder_that_yields(start, ask.name, front);
        self.add_folders(top, front, &free)?;
        let ways = Ways {
            ask: number,
            first: match locked {
                Some((version, _)) => Some(version),
                None => None,
            },
            top,
            to: self.search.folders.len(),
            at: from,
            tried: 0,
            is_pick: is_pick && !self.known.lessons.has_refused(self.need_of(ask)),
        };
        self.choose(Left::Ways(ways), from, next)
    }

    /// Adds the folders in which ways lead: first these, then the others, the outermost first.
    fn add_folders(
        &mut self,
        top: Option<usize>,
        front: Option<usize>,
        free: &[usize],
    ) -> Result<()> {
        if let Some(top) = top {
            self.search.folders.push(top)?;
        }
        if let Some(front) = front {
            self.search.folders.push(front)?;
        }
        for folder in free.iter().rev() {
            if front != Some(*folder) {
                self.search.folders.push(*folder)?;
            }
        }
        Ok(())
    }

    /// Returns the folders from which a place sees what is placed there, the nearest first.
    fn free_folders(&self, start: usize, name: usize) -> Result<Vec<usize>> {
        let mut free = Vec::new(self.known.alloc);
        let mut at = Some(start);
        for _ in 0..self.tree.places.len() {
            let Some(folder) = at else {
                return Ok(free);
            };
            if self.tree.standing(folder, name).is_some() {
                return Ok(free);
            }
            free.push(folder)?;
            at = self.tree.place(folder).up;
        }
        Ok(free)
    }

    /// Returns the folder of what is seen now, if that may give way.
    fn folder_that_yields(&self, start: usize, name: usize, front: Option<usize>) -> Option<usize> {
        if self.known.options.keeps {
            return None;
        }
        let taken = self.tree.place(self.tree.see(Some(start), name)?);
        if taken.is_top || taken.link.is_some() {
            return None;
        }
        let top = taken.up?;
        let is_next = match front {
            Some(front) => self.tree.place(front).up == Some(top),
            None => top == start,
        };
        if is_next { Some(top) } else { None }
    }
}
