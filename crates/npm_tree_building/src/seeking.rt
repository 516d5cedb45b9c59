//! The steps of a search.

use crate::Result;
use crate::builder::Builder;
use crate::search::{Choice, Goal, Left, Turn};

impl<'v> Builder<'v> {
    /// Searches for the first way to reach a goal. The tree is then as this way has it, or as it was before.
    pub(crate) fn reaches(&mut self, goal: Goal) -> Result<bool> {
        let places = self.tree.places.len();
        self.search.begin(self.known.options.steps);
        let mut at = self.search.before(goal, None)?;
        for _ in 0..u64::MAX {
            let Some(cell) = at else {
                return Ok(true);
            };
            match self.step(cell)? {
                Turn::Next(next) => at = next,
                Turn::Failed => return Ok(false),
                Turn::Spent => break,
            }
        }
        self.tree.take_back(places)?;
        Ok(false)
    }

    /// Does what the next goal says.
    fn step(&mut self, cell: usize) -> Result<Turn> {
        let Some(cell) = self.search.cells.get(cell) else {
            return Ok(Turn::Failed);
        };
        let cell = *cell;
        match cell.goal {
            Goal::Place(start, ask, is_pick) => {
                self.open(start, ask, is_pick, cell.next)?;
                self.retry()
            }
            Goal::Peers(place, at) => self.place_peers(place, at, cell.next),
            Goal::Check(ask) => {
                if self.is_met(self.tree.ask(ask)) {
                    Ok(Turn::Next(cell.next))
                } else {
                    self.retry()
                }
            }
            Goal::Rest(at) => self.place_rest(at, cell.next),
        }
    }

    /// Adds a choice.
    pub(crate) fn choose(&mut self, left: Left, folders: usize, next: Option<usize>) -> Result<()> {
        self.search.choices.push(Choice {
            left,
            places: self.tree.places.len(),
            cells: self.search.cells.len(),
            folders,
            next,
        })?;
        Ok(())
    }

    /// Makes the last choice anew, or one before it.
    pub(crate) fn retry(&mut self) -> Result<Turn> {
        for _ in 0..u64::MAX {
            let Some(choice) = self.search.choices.pop() else {
                return Ok(Turn::Failed);
            };
            self.tree.take_back(choice.places)?;
            self.search.cells.truncate(choice.cells);
            let turn = match choice.left {
                Left::Ways(ways) => self.next_way(choice, ways)?,
                Left::Together(at, tried) => self.next_together(choice, at, tried)?,
            };
            match turn {
                Turn::Failed => self.search.folders.truncate(choice.folders),
                _ => return Ok(turn),
            }
        }
        Ok(Turn::Failed)
    }
}
