//! What builds a tree.

use crate::Result;
use crate::ask::Ask;
use crate::known::Known;
use crate::place::{Place, Seen};
use crate::search::Search;
use crate::tree::Tree;

/// What is known, the tree as it grows, and the search.
#[derive(Drop)]
pub(crate) struct Builder<'v> {
    pub(crate) known: Known<'v>,
    pub(crate) tree: Tree,
    pub(crate) search: Search,
}

impl<'v> Builder<'v> {
    /// Returns `true` if a place meets what a dependency wants.
    pub(crate) fn meets(&self, ask: Ask, to: usize) -> bool {
        match ask.workspace {
            Some(workspace) => to == workspace,
            None => self.meets_as(ask, self.tree.place(to).seen()),
        }
    }

    /// Returns `true` if a version, with the rules below it, meets what a dependency on a registry wants.
    pub(crate) fn meets_as(&self, ask: Ask, seen: Seen) -> bool {
        if ask.workspace.is_some() {
            return false;
        }
        if !seen.is_top && !ask.is_peer && seen.context != ask.context {
            return false;
        }
        if !self.is_wanted(ask.want, seen) {
            return false;
        }
        for at in ask.more_from..ask.more_to {
            if let Some(want) = self.tree.more.get(at) {
                if !self.is_wanted(*want, seen) {
                    return false;
                }
            }
        }
        true
    }

    fn is_wanted(&self, want: usize, seen: Seen) -> bool {
        match self.known.wants.get(want) {
            Some(want) => {
                let is_from_registry = !seen.is_top && !seen.is_link;
                want.is_met_by(self.known.key(seen.version), is_from_registry)
            }
            None => false,
        }
    }

    /// Returns `true` if a dependency sees what meets it, or need not see anything.
    pub(crate) fn is_met(&self, ask: Ask) -> bool {
        match self.tree.seen(ask) {
            Some(to) => self.meets(ask, to),
            None => ask.is_optional_peer(),
        }
    }

    /// Adds a place for a dependency in a folder, and its dependencies.
    pub(crate) fn add(&mut self, folder: usize, asked: usize, version: usize) -> Result<usize> {
        let ask = self.tree.ask(asked);
        let link = self.same_above(folder, ask, version);
        let from = self.tree.asks.len();
        let place = Place {
            name: ask.name,
            version,
            up: Some(folder),
            by: Some(asked),
            context: ask.context,
            link,
            old: self.tree.standing(folder, ask.name),
            is_top: false,
            is_gone: false,
            is_settled: false,
            from,
            to: from,
            depth: 0,
        };
        let alloc = self.known.alloc;
        let name = self.known.texts.text(ask.name);
        let text = self.tree.folder_in(alloc, folder, name)?;
        let number = self.tree.add_place(place, text)?;
        self.tree.stand(number)?;
        if link.is_none() {
            self.enter(number)?;
        }
        Ok(number)
    }

    /// Returns the outermost package above that is the same: a link to it stands in its place.
    fn same_above(&self, folder: usize, ask: Ask, version: usize) -> Option<usize> {
        let mut found = None;
        let mut at = Some(folder);
        for _ in 0..self.tree.places.len() {
            let Some(number) = at else {
                return found;
            };
            let place = self.tree.place(number);
            if place.is_top {
                return found;
            }
            if place.name == ask.name && place.version == version && place.context == ask.context {
                found = Some(number);
            }
            at = place.up;
        }
        found
    }
}
