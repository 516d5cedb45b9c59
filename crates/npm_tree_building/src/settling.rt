//! The dependencies of a package are settled.

use crate::Result;
use crate::builder::Builder;
use crate::search::Goal;

/// Dependencies that cannot be met together. The first one failed.
#[derive(Drop)]
pub(crate) struct Unmet {
    pub(crate) from: usize,
    pub(crate) asks: Vec<usize>,
}

impl<'v> Builder<'v> {
    /// Places what a package asks for: npm's pick for each dependency, or else any versions that fit together.
    pub(crate) fn settle(&mut self, number: usize) -> Result<Option<Unmet>> {
        let list = self.own_asks(number)?;
        let places = self.tree.places.len();
        let Some(failed) = self.place_picks(number, &list)? else {
            return Ok(None);
        };
        let mut all = Vec::new(self.known.alloc);
        for ask in &list {
            if !self.tree.ask(*ask).is_left {
                all.push(*ask)?;
            }
        }
        let unmet = self.settle_any(number, places, &list, all, failed)?;
        if unmet.is_none() {
            for ask in &list {
                self.tree.set_done(*ask, true);
            }
        }
        Ok(unmet)
    }

    /// The dependencies that a package places itself.
    fn own_asks(&self, number: usize) -> Result<Vec<usize>> {
        let mut list = Vec::new(self.known.alloc);
        let place = self.tree.place(number);
        for at in place.from..place.to {
            if self.tree.ask(at).is_own() {
                list.push(at)?;
            }
        }
        Ok(list)
    }

    /// Places npm's pick for each dependency. Returns the first one that fails.
    fn place_picks(&mut self, number: usize, list: &[usize]) -> Result<Option<usize>> {
        for at in list {
            let ask = self.tree.ask(*at);
            if !ask.is_left && !self.is_met(ask) {
                if !self.reaches(Goal::Place(number, *at, true))? {
                    return Ok(Some(*at));
                }
            }
            self.tree.set_done(*at, true);
        }
        Ok(None)
    }

    /// Places any version for each dependency: by a quick search, in which what failed comes first, or else by the exact one.
    fn settle_any(
        &mut self,
        number: usize,
        places: usize,
        list: &[usize],
        all: Vec<usize>,
        failed: usize,
    ) -> Result<Option<Unmet>> {
        let mut all = all;
        let mut failed = failed;
        let mut front = Vec::new(self.known.alloc);
        for _ in 0..u64::MAX {
            if front.contains(&failed) {
                break;
            }
            self.undo(places, list)?;
            front.push(failed)?;
            all = put_first(self, failed, &all)?;
            match self.place_any(number, &all)? {
                Some(next) => failed = next,
                None => return Ok(None),
            }
        }
        self.undo(places, list)?;
        self.search.list.clear();
        self.search.list.extend_from_slice(&all)?;
        if self.reaches(Goal::Rest(0))? {
            return Ok(None);
        }
        Ok(Some(self.unmet(number, failed, &all)?))
    }

    /// Places any version for each dependency. Returns the first one that fails.
    fn place_any(&mut self, number: usize, all: &[usize]) -> Result<Option<usize>> {
        for at in all {
            if !self.is_met(self.tree.ask(*at)) {
                if !self.reaches(Goal::Place(number, *at, false))? {
                    return Ok(Some(*at));
                }
            }
            self.tree.set_done(*at, true);
        }
        Ok(None)
    }

    /// Takes back what was placed for dependencies.
    fn undo(&mut self, places: usize, list: &[usize]) -> Result<()> {
        self.tree.take_back(places)?;
        for at in list {
            let is_left = self.tree.ask(*at).is_left;
            self.tree.set_done(*at, is_left);
        }
        Ok(())
    }

    /// What is not met: first the one that failed.
    fn unmet(&self, from: usize, failed: usize, all: &[usize]) -> Result<Unmet> {
        let mut asks = Vec::new(self.known.alloc);
        asks.push(failed)?;
        for at in all {
            if *at != failed && !self.is_met(self.tree.ask(*at)) {
                asks.push(*at)?;
            }
        }
        Ok(Unmet { from, asks })
    }
}

/// These dependencies, with one of them first.
fn put_first(builder: &Builder<'_>, first: usize, all: &[usize]) -> Result<Vec<usize>> {
    let mut list = Vec::with_capacity(builder.known.alloc, all.len())?;
    list.push(first)?;
    for at in all {
        if *at != first {
            list.push(*at)?;
        }
    }
    Ok(list)
}
