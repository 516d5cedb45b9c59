//! One attempt to build a tree.

use crate::Result;
use crate::ask::{Ask, NOTHING};
use crate::builder::Builder;
use crate::place::Place;
use crate::settling::Unmet;
use crate::tops::Top;
use crate::tree::Tree;
use npm_overrides::Kind;

impl<'v> Builder<'v> {
    /// Builds a tree from nothing. Returns what cannot be met, if something cannot.
    pub(crate) fn attempt(&mut self, tops: &[Top<'v>]) -> Result<Option<Unmet>> {
        self.tree = Tree::new(self.known.alloc);
        for top in tops {
            self.add_top(*top)?;
        }
        self.sort_workspaces()?;
        for number in 0..self.tree.places.len() {
            self.enter(number)?;
        }
        for _ in 0..u64::MAX {
            if self.search.total == 0 {
                return Ok(None);
            }
            let Some((turn, number)) = self.tree.queue.pop_first() else {
                break;
            };
            drop(turn);
            if let Some(unmet) = self.settle(number)? {
                return Ok(Some(unmet));
            }
            if let Some(place) = self.tree.places.get_mut(number) {
                place.is_settled = true;
            }
        }
        self.prune()?;
        Ok(None)
    }

    /// Adds the root or a workspace.
    fn add_top(&mut self, top: Top<'v>) -> Result<()> {
        let name = self.known.texts.number(top.name)?;
        let is_root = self.tree.places.is_empty();
        let place = Place {
            name,
            version: top.version,
            up: if is_root { None } else { Some(0) },
            by: None,
            context: 0,
            link: None,
            old: None,
            is_top: true,
            is_gone: false,
            is_settled: false,
            from: 0,
            to: 0,
            depth: 0,
        };
        let folder = String::from_str(self.known.alloc, top.folder)?;
        let number = self.tree.add_place(place, folder)?;
        self.tree.stand(number)
    }

    /// Puts the workspaces in the order of their names' bytes.
    fn sort_workspaces(&mut self) -> Result<()> {
        let mut named = Vec::new(self.known.alloc);
        for number in 1..self.tree.places.len() {
            let name = self.known.texts.text(self.tree.place(number).name);
            named.push(Named { name, number })?;
        }
        named.sort()?;
        for one in &named {
            self.tree.workspaces.push(one.number)?;
        }
        Ok(())
    }

    /// The root asks for its workspaces, from one on, up to a name. Returns the next one.
    pub(crate) fn ask_for_workspaces(&mut self, from: usize, last: Option<&str>) -> Result<usize> {
        for at in from..self.tree.workspaces.len() {
            let workspace = self.tree.workspaces.get(at).copied().unwrap_or(0);
            let name = self.tree.place(workspace).name;
            if let Some(last) = last {
                if self.known.texts.text(name) > last {
                    return Ok(at);
                }
            }
            self.add_ask(Ask {
                name,
                kind: Kind::Needed,
                is_bundled: false,
                is_left: false,
                is_done: false,
                workspace: Some(workspace),
                ..NOTHING
            })?;
        }
        Ok(self.tree.workspaces.len())
    }
}

/// A workspace by its name.
#[derive(PartialEq, Eq, PartialOrd, Ord, Drop)]
struct Named<'v> {
    name: &'v str,
    number: usize,
}
