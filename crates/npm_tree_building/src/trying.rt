//! The ways to place a package are tried.

use crate::Result;
use crate::ask::Ask;
use crate::builder::Builder;
use crate::lessons::Need;
use crate::search::{Choice, Goal, Left, Turn, Ways};

impl<'v> Builder<'v> {
    /// Returns the version that asks for a name.
    pub(crate) fn need_of(&self, ask: Ask) -> Need {
        Need {
            version: self.tree.place(ask.from).version,
            name: ask.name,
        }
    }

    /// Tries the next way.
    pub(crate) fn next_way(&mut self, choice: Choice, left: Ways) -> Result<Turn> {
        let mut ways = left;
        let ask = self.tree.ask(ways.ask);
        for _ in 0..u64::MAX {
            if ways.at >= ways.to {
                return Ok(Turn::Failed);
            }
            let Some(folder) = self.search.folders.get(ways.at).copied() else {
                return Ok(Turn::Failed);
            };
            let Some(version) = self.next_version(ask, &mut ways)? else {
                ways.at = ways.at.saturating_add(1);
                ways.tried = 0;
                continue;
            };
            if ways.top == Some(folder) && !self.gives_way(folder, ask, version) {
                continue;
            }
            if !self.search.take_step() {
                return Ok(Turn::Spent);
            }
            let number = self.add(folder, ways.ask, version)?;
            if self.meets(ask, number) && self.fits(number) {
                let places = number;
                self.search.choices.push(Choice {
                    left: Left::Ways(ways),
                    places,
                    ..choice
                })?;
                let from = self.tree.place(number).from;
                let peers = Goal::Peers(number, from);
                return Ok(Turn::Next(self.search.before(peers, choice.next)?));
            }
            self.tree.take_back(number)?;
        }
        Ok(Turn::Failed)
    }

    /// Returns `true` if what stands in a folder under the name of a dependency gives way to a version.
    fn gives_way(&self, folder: usize, ask: Ask, version: usize) -> bool {
        match self.tree.standing(folder, ask.name) {
            Some(taken) => self.yields(taken, ask, version),
            None => false,
        }
    }

    /// Returns the next version to be tried in a folder.
    fn next_version(&mut self, ask: Ask, ways: &mut Ways) -> Result<Option<usize>> {
        let need = self.need_of(ask);
        if ways.tried == 0 {
            ways.tried = 1;
            if let Some(first) = ways.first {
                if !self.known.lessons.is_refused(need, first) {
                    return Ok(Some(first));
                }
            }
        }
        for _ in 0..u64::MAX {
            let place = ways.tried.saturating_sub(1);
            if ways.is_pick && place > 0 {
                return Ok(None);
            }
            let Some(version) = self.known.offered(ask.want, place)? else {
                return Ok(None);
            };
            ways.tried = ways.tried.saturating_add(1);
            let is_first = ways.first == Some(version);
            if !is_first && !self.known.lessons.is_refused(need, version) {
                return Ok(Some(version));
            }
        }
        Ok(None)
    }
}
