//! What is learnt from dependencies that cannot be met.

use crate::Result;
use crate::builder::Builder;
use crate::lessons::Need;
use crate::settling::Unmet;
use serde_json::Value;

impl<'v> Builder<'v> {
    /// Learns from what cannot be met, so that the work begins anew. Returns `false` if there is nothing to learn.
    pub(crate) fn learn(&mut self, unmet: &Unmet) -> Result<bool> {
        if self.learn_peers(unmet)? || self.leave_one_of(unmet)? || self.leave_above(unmet.from)? {
            return Ok(true);
        }
        self.refuse(unmet)
    }

    /// What a dependency's peer asks for must be met by the package's own peer of this name too.
    fn learn_peers(&mut self, unmet: &Unmet) -> Result<bool> {
        let mut is_new = false;
        if self.tree.place(unmet.from).is_top {
            return Ok(false);
        }
        for at in &unmet.asks {
            let want = self.tree.ask(*at).want;
            if let Some(version) = self.known.offered(want, 0)? {
                if self.learn_peers_of(unmet.from, version)? {
                    is_new = true;
                }
            }
        }
        Ok(is_new)
    }

    /// The same for the peers of a version.
    fn learn_peers_of(&mut self, from: usize, version: usize) -> Result<bool> {
        let mut is_new = false;
        let Some(known) = self.known.version(version) else {
            return Ok(false);
        };
        let peers = known.manifest.get("peerDependencies");
        let Some(peers) = peers.and_then(Value::as_object) else {
            return Ok(false);
        };
        for (name, spec) in peers.iter() {
            if let Some(spec) = spec.as_str() {
                let name = self.known.texts.number(name.as_str())?;
                let spec = self.known.texts.number(spec)?;
                if self.has_peer(from, name) && self.hint(from, name, spec)? {
                    is_new = true;
                }
            }
        }
        Ok(is_new)
    }

    fn has_peer(&self, from: usize, name: usize) -> bool {
        match self.tree.asked_by(from, name) {
            Some(ask) => self.tree.ask(ask).is_peer,
            None => false,
        }
    }

    fn hint(&mut self, from: usize, name: usize, spec: usize) -> Result<bool> {
        let version = self.tree.place(from).version;
        let alloc = self.known.alloc;
        let need = Need { version, name };
        self.known.lessons.hint(alloc, need, spec)
    }

    /// Leaves out the first of the dependencies that is optional.
    fn leave_one_of(&mut self, unmet: &Unmet) -> Result<bool> {
        for at in &unmet.asks {
            let ask = self.tree.ask(*at);
            if ask.can_be_left() {
                let need = self.need_of(ask);
                self.known.lessons.leave(need)?;
                return Ok(true);
            }
        }
        Ok(false)
    }

    /// Leaves out the nearest optional dependency that leads to a package.
    fn leave_above(&mut self, from: usize) -> Result<bool> {
        let mut at = from;
        for _ in 0..self.tree.places.len() {
            let Some(by) = self.tree.place(at).by else {
                return Ok(false);
            };
            let ask = self.tree.ask(by);
            if ask.can_be_left() {
                let need = self.need_of(ask);
                if self.known.lessons.leave(need)? {
                    return Ok(true);
                }
            }
            at = ask.from;
        }
        Ok(false)
    }

    /// Refuses the version for the dependency that it was placed for, if there are versions of all that it asks for.
    fn refuse(&mut self, unmet: &Unmet) -> Result<bool> {
        let place = self.tree.place(unmet.from);
        let Some(by) = place.by else {
            return Ok(false);
        };
        let Some(first) = unmet.asks.first() else {
            return Ok(false);
        };
        let want = self.tree.ask(*first).want;
        if place.is_top || self.known.offered(want, 0)?.is_none() {
            return Ok(false);
        }
        let need = self.need_of(self.tree.ask(by));
        let alloc = self.known.alloc;
        self.known.lessons.refuse(alloc, need, place.version)
    }
}
