//! The tree as it is handed out.

use crate::Result;
use crate::answer::Manifest;
use crate::ask::Ask;
use crate::builder::Builder;
use crate::place::Place;
use crate::reach::is_marked;
use npm_trees::{Ask as Told, Kind, Place as Stood, Stands, Tree};

impl<'v> Builder<'v> {
    /// The places that are reached from the root, with numbers of their own.
    pub(crate) fn finished(&self, manifests: &[Manifest<'v>]) -> Result<Tree<'v>> {
        let alloc = self.known.alloc;
        let is_reached = self.reached()?;
        let mut numbers = Vec::with_capacity(alloc, is_reached.len())?;
        let mut places = Vec::new(alloc);
        let mut asks = Vec::new(alloc);
        let mut left_out = Vec::new(alloc);
        for (number, place) in self.tree.places.iter().enumerate() {
            numbers.push(places.len())?;
            if is_marked(&is_reached, number) {
                let stood = self.stood(*place, number, &numbers, manifests);
                places.push(stood)?;
            }
        }
        for (number, place) in self.tree.places.iter().enumerate() {
            if is_marked(&is_reached, number) {
                for at in place.from..place.to {
                    let ask = self.tree.ask(at);
                    if self.is_left_out(ask) {
                        left_out.push(asks.len())?;
                    }
                    asks.push(self.told(ask, &numbers))?;
                }
            }
        }
        Ok(Tree {
            places,
            asks,
            left_out,
        })
    }

    /// Returns `true` for an optional dependency that sees nothing.
    fn is_left_out(&self, ask: Ask) -> bool {
        ask.can_be_left() && !ask.is_bundled && self.tree.seen(ask).is_none()
    }

    /// A place.
    fn stood(
        &self,
        place: Place,
        number: usize,
        numbers: &[usize],
        manifests: &[Manifest<'v>],
    ) -> Stood<'v> {
        let stands = match place.link {
            Some(link) => Stands::Link {
                to: renumbered(numbers, link),
            },
            None => self.stands(place, number, manifests),
        };
        Stood {
            name: self.known.texts.text(place.name),
            up: match place.up {
                Some(up) => Some(renumbered(numbers, up)),
                None => None,
            },
            stands,
            rules: place.context,
        }
    }

    /// What stands in a place that is no link.
    fn stands(&self, place: Place, number: usize, manifests: &[Manifest<'v>]) -> Stands<'v> {
        match manifests.get(number) {
            Some(manifest) => Stands::Top {
                at: manifest.at,
                manifest: manifest.value,
            },
            None => Stands::Package {
                document: self.document_number(place.version),
                version: self.known.key(place.version),
            },
        }
    }

    /// The number of the document of a version.
    fn document_number(&self, version: usize) -> usize {
        let name = self.known.package_name(version);
        match self.known.by_package.get(&self.known.texts.text(name)) {
            Some(number) => *number,
            None => usize::MAX,
        }
    }

    /// A dependency.
    fn told(&self, ask: Ask, numbers: &[usize]) -> Told<'v> {
        Told {
            from: renumbered(numbers, ask.from),
            name: self.known.texts.text(ask.name),
            kind: kind_of(ask.kind),
            spec: self.known.texts.text(ask.spec),
            rules: ask.context,
            bundled: ask.is_bundled,
            workspace: match ask.workspace {
                Some(workspace) => Some(renumbered(numbers, workspace)),
                None => None,
            },
        }
    }
}

fn renumbered(numbers: &[usize], number: usize) -> usize {
    numbers.get(number).copied().unwrap_or(usize::MAX)
}

/// The kind of a dependency.
pub(crate) fn kind_of(kind: npm_overrides::Kind) -> Kind {
    match kind {
        npm_overrides::Kind::Needed => Kind::Needed,
        npm_overrides::Kind::Dev => Kind::Dev,
        npm_overrides::Kind::Optional => Kind::Optional,
        npm_overrides::Kind::Peer => Kind::Peer,
        npm_overrides::Kind::OptionalPeer => Kind::OptionalPeer,
    }
}
