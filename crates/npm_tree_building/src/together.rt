//! The dependencies of a package are placed together.

use crate::Result;
use crate::builder::Builder;
use crate::search::{Choice, Goal, Left, Turn};

impl<'v> Builder<'v> {
    /// Places the next dependency of the list that is not met, together with the others.
    pub(crate) fn place_rest(&mut self, from: usize, next: Option<usize>) -> Result<Turn> {
        for at in from..self.search.list.len() {
            let number = self.search.list.get(at).copied().unwrap_or(usize::MAX);
            let is_met = self.is_met(self.tree.ask(number));
            self.tree.set_done(number, true);
            if !is_met {
                let folders = self.search.folders.len();
                self.choose(Left::Together(at, 0), folders, next)?;
                return self.retry();
            }
        }
        Ok(Turn::Next(next))
    }

    /// Tries to place a dependency of the list, or else to leave it out if it is optional.
    pub(crate) fn next_together(
        &mut self,
        choice: Choice,
        at: usize,
        tried: usize,
    ) -> Result<Turn> {
        let number = self.search.list.get(at).copied().unwrap_or(usize::MAX);
        let ask = self.tree.ask(number);
        let rest = Goal::Rest(at.saturating_add(1));
        if tried == 0 {
            self.choose(Left::Together(at, 1), choice.folders, choice.next)?;
            let rest = self.search.before(rest, choice.next)?;
            let goal = Goal::Place(ask.from, number, false);
            return Ok(Turn::Next(self.search.before(goal, rest)?));
        }
        if tried == 1 && ask.is_optional() && self.tree.seen(ask).is_none() {
            self.choose(Left::Together(at, 2), choice.folders, choice.next)?;
            return Ok(Turn::Next(self.search.before(rest, choice.next)?));
        }
        self.tree.set_done(number, false);
        Ok(Turn::Failed)
    }
}
