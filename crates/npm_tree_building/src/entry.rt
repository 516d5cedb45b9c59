//! The dependencies of a place, as it comes into the tree.

use crate::Result;
use crate::ask::Ask;
use crate::builder::Builder;
use crate::lessons::Need;
use crate::place::{Place, Spot};
use npm_overrides::{Kind, Owner, asks_of};

/// A dependency as a manifest and overrides say.
type Given<'v> = npm_overrides::Ask<'v>;

impl<'v> Builder<'v> {
    /// Reads the dependencies of a place, and lets it wait to be settled. The root asks for its workspaces too.
    pub(crate) fn enter(&mut self, number: usize) -> Result<()> {
        let place = self.tree.place(number);
        let from = self.tree.asks.len();
        let mut next = 0;
        for given in self.given_by(place)? {
            if number == 0 {
                next = self.ask_for_workspaces(next, Some(given.name))?;
            }
            self.add_given(number, place, given)?;
        }
        if number == 0 {
            self.ask_for_workspaces(next, None)?;
        }
        let to = self.tree.asks.len();
        let depth = match place.up {
            Some(up) if !place.is_top => self.tree.place(up).depth.saturating_add(1),
            Some(_) => 1,
            None => 0,
        };
        if let Some(place) = self.tree.places.get_mut(number) {
            place.from = from;
            place.to = to;
            place.depth = depth;
        }
        self.tree.join_queue(number)
    }

    /// What a place asks for.
    fn given_by(&self, place: Place) -> Result<Vec<Given<'v>>> {
        let Some(version) = self.known.version(place.version) else {
            return Ok(Vec::new(self.known.alloc));
        };
        let owner = match (place.is_top, place.up) {
            (false, _) => Owner::Package,
            (true, Some(_)) => Owner::Workspace,
            (true, None) => Owner::Root,
        };
        let around = match place.by {
            Some(by) => self.tree.place(self.tree.ask(by).from).context,
            None => place.context,
        };
        asks_of(
            self.known.alloc,
            &self.known.rules,
            version.manifest,
            owner,
            place.context,
            around,
        )
    }

    /// Adds a dependency of a place, unless the root asks for a workspace by the name.
    fn add_given(&mut self, from: usize, place: Place, given: Given<'v>) -> Result<()> {
        let name = self.known.texts.number(given.name)?;
        if self.tree.asked_by(from, name).is_some() {
            return Ok(());
        }
        let spec = self.known.texts.number(given.spec)?;
        let more = self.tree.more.len();
        let mut ask = Ask {
            from,
            name,
            spec,
            want: self.known.want_of(name, spec)?,
            kind: given.kind,
            is_peer: is_peer(given.kind) && !place.is_top,
            is_bundled: given.bundled,
            is_left: false,
            is_done: false,
            context: given.rules,
            workspace: None,
            more_from: more,
            more_to: more,
        };
        let version = place.version;
        self.recall(&mut ask, Need { version, name })?;
        self.add_ask(ask)
    }

    /// Tells a dependency what earlier attempts taught. One that no version meets is left out, if it is optional.
    fn recall(&mut self, ask: &mut Ask, need: Need) -> Result<()> {
        if ask.can_be_left() {
            let is_left = self.known.lessons.is_left(need);
            ask.is_left = is_left || self.known.offered(ask.want, 0)?.is_none();
            ask.is_done = ask.is_left;
        }
        if !ask.is_peer {
            return Ok(());
        }
        for at in 0..usize::MAX {
            let Some(spec) = self.known.lessons.hint_at(need, at) else {
                break;
            };
            let want = self.known.want_of(ask.name, spec)?;
            self.tree.more.push(want)?;
            ask.more_to = self.tree.more.len();
        }
        Ok(())
    }

    /// Adds a dependency.
    pub(crate) fn add_ask(&mut self, ask: Ask) -> Result<()> {
        let number = self.tree.asks.len();
        let spot = Spot {
            folder: ask.from,
            name: ask.name,
        };
        self.tree.asks.push(ask)?;
        self.tree.asked.insert(spot, number)?;
        if !ask.is_bundled {
            self.tree.add_asker(ask.name, number)?;
        }
        Ok(())
    }
}

fn is_peer(kind: Kind) -> bool {
    match kind {
        Kind::Peer | Kind::OptionalPeer => true,
        _ => false,
    }
}
