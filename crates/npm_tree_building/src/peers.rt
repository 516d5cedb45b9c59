//! Peers are placed with their package.

use crate::Result;
use crate::builder::Builder;
use crate::search::{Goal, Turn};

impl<'v> Builder<'v> {
    /// Places the next peer of a place that is not met. In the end all must be met.
    pub(crate) fn place_peers(
        &mut self,
        number: usize,
        from: usize,
        next: Option<usize>,
    ) -> Result<Turn> {
        let place = self.tree.place(number);
        let Some(folder) = place.up else {
            return Ok(Turn::Next(next));
        };
        for at in from..place.to {
            let ask = self.tree.ask(at);
            if ask.is_placed_peer() && !self.is_met(ask) {
                let peers = Goal::Peers(number, at.saturating_add(1));
                let last = self.search.before(peers, next)?;
                let check = self.search.before(Goal::Check(at), last)?;
                let by = self.placed_for(folder, at);
                let goal = Goal::Place(folder, by, false);
                return Ok(Turn::Next(self.search.before(goal, check)?));
            }
        }
        for at in place.from..place.to {
            let ask = self.tree.ask(at);
            if ask.is_placed_peer() && !self.is_met(ask) {
                return self.retry();
            }
        }
        Ok(Turn::Next(next))
    }

    /// Returns the dependency that a peer is placed for: that of the folder's own package, if it asks for the name too.
    fn placed_for(&self, folder: usize, peer: usize) -> usize {
        match self.tree.asked_by(folder, self.tree.ask(peer).name) {
            Some(own) => {
                let ask = self.tree.ask(own);
                if ask.is_own() && !self.is_met(ask) {
                    own
                } else {
                    peer
                }
            }
            None => peer,
        }
    }
}
