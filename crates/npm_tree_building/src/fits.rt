//! Whether a package fits where it is placed.

use crate::ask::Ask;
use crate::builder::Builder;
use crate::place::{Place, Seen};

impl<'v> Builder<'v> {
    /// Returns `true` if the last place fits in its folder.
    ///
    /// It does not if the package whose folder it is has the name as a peer, or if a dependency would see it and not be met by it which
    /// has no folder to come: one of the folder's own package, a peer, one that was met or left out before.
    pub(crate) fn fits(&self, number: usize) -> bool {
        let place = self.tree.place(number);
        let Some(folder) = place.up else {
            return true;
        };
        if let Some(own) = self.tree.asked_by(folder, place.name) {
            if self.tree.ask(own).is_peer {
                return false;
            }
        }
        let before = self.tree.see(self.tree.place(folder).up, place.name);
        if let Some(askers) = self.tree.askers.get(place.name) {
            for asker in askers {
                let ask = self.tree.ask(*asker);
                if ask.from != number && self.is_disturbed(ask, number, folder, before) {
                    return false;
                }
            }
        }
        self.keeps_left_out(place)
    }

    /// Returns `true` if a dependency sees a new place, is not met by it, and has no folder to come.
    fn is_disturbed(&self, ask: Ask, number: usize, folder: usize, before: Option<usize>) -> bool {
        if self.tree.place(ask.from).is_gone {
            return false;
        }
        if self.tree.seen(ask) != Some(number) || self.meets(ask, number) {
            return false;
        }
        if ask.from == folder || ask.is_done || ask.is_peer {
            return true;
        }
        match before {
            Some(before) => self.meets(ask, before),
            None => false,
        }
    }

    /// Returns `true` if no dependency that is left out sees what does not meet it.
    fn keeps_left_out(&self, place: Place) -> bool {
        for at in place.from..place.to {
            let ask = self.tree.ask(at);
            if ask.is_left && !ask.is_bundled {
                if let Some(seen) = self.tree.seen(ask) {
                    if !self.meets(ask, seen) {
                        return false;
                    }
                }
            }
        }
        true
    }

    /// Returns `true` if what stands somewhere gives way to a version: to a higher one that meets all dependencies that it meets.
    pub(crate) fn yields(&self, was: usize, ask: Ask, version: usize) -> bool {
        let place = self.tree.place(was);
        if self.known.package_name(place.version) != self.known.wanted_package(ask.want)
            || place.context != ask.context
            || self.tree.asked_by(was, ask.name).is_some()
            || self.tree.is_within(ask.from, was)
            || !self.known.is_below(place.version, version)
        {
            return false;
        }
        let new = Seen {
            version,
            context: ask.context,
            is_top: false,
            is_link: false,
        };
        if let Some(askers) = self.tree.askers.get(ask.name) {
            for asker in askers {
                if self.is_lost(self.tree.ask(*asker), was, new) {
                    return false;
                }
            }
        }
        true
    }

    /// Returns `true` if a dependency is met by a place, and not by what would come in its place.
    fn is_lost(&self, ask: Ask, was: usize, new: Seen) -> bool {
        if self.tree.place(ask.from).is_gone || self.tree.is_within(ask.from, was) {
            return false;
        }
        self.tree.seen(ask) == Some(was) && self.meets(ask, was) && !self.meets_as(ask, new)
    }
}
