//! Names that are asked for.
ghost use Rattle.std.specs.Prelude.{◌≡◌, ℕ, List, OnOk, [], ◌∷◌, false, map};
ghost use Rattle.npm_resolve.specs.Asks.{AskValue, ask_value};
ghost use Rattle.npm_resolve.specs.Documents.{ArePeers};
ghost use Rattle.npm_resolve.specs.Rules as Counting;
ghost use Rattle.npm_resolve.specs.Private.Gathering.{AreAdded, IsNoted, is_seen};

use crate::Result;
use crate::candidates::{Omits, Options, Owner, Reach, asks_of, candidates_of};
use crate::rules::rules_of;
use npm_texts::registry_spec;
use serde_json::Value;
use std::alloc::{AllocError, Global};
use std::collections::{BTreeSet, VecDeque};
use version_solving::Ask;

/// A name, and the package that it is asked for as.
#[derive(Drop)]
pub(crate) struct Request {
    pub(crate) name: String,
    pub(crate) package: String,
}

/// Names that are asked for: those that wait to be read, in their order, and all that were seen.
#[derive(Drop)]
pub(crate) struct Requests {
    pub(crate) queue: VecDeque<Request>,
    pub(crate) seen: BTreeSet<String>,
}

impl Requests {
    pub(crate) fn new(alloc: Global) -> Requests
        ensures queue { result.queue.items ≡ [] }
        ensures seen { (name : List ℕ) → is_seen result name ≡ false }
    {
        Requests {
            queue: VecDeque::new(alloc),
            seen: BTreeSet::new(alloc),
        }
    }

    /// Adds what the candidates of a document ask for, by the rules of the root.
    pub(crate) fn add_peers<'v>(
        &mut self,
        alloc: Global,
        packument: &'v Value,
        manifests: &'v [Value],
        options: &Options<'_>,
        reach: Reach,
        omits: Omits,
    ) -> Result<()>
        ensures { OnOk result ((peers : List AskValue) × ArePeers options.now reach (Counting.rules_of manifests.now) omits packument.now peers
            × AreAdded peers self.old self.new) }
    {
        let rules = rules_of(alloc, manifests)?;
        for candidate in &candidates_of(alloc, packument, options)? {
            let owner = Owner::Version(reach);
            let found = asks_of(alloc, candidate.manifest, owner, &rules, omits)?;
            self.add_all(alloc, &found.asks)?;
        }
        Ok(())
    }

    /// Adds what is asked for.
    pub(crate) fn add_all(&mut self, alloc: Global, asks: &[Ask<'_>]) -> Result<()>
        ensures { OnOk result (AreAdded (map ask_value asks.now) self.old self.new) }
    {
        for ask in asks {
            self.add_ask(alloc, *ask)?;
        }
        Ok(())
    }

    /// Adds an ask.
    fn add_ask(&mut self, alloc: Global, ask: Ask<'_>) -> Result<()>
        ensures { OnOk result (AreAdded (ask_value ask.entry ∷ []) self.old self.new) }
    {
        match registry_spec(ask.name, ask.spec) {
            Some(request) => self.add(alloc, ask.name, request.name),
            None => Ok(()),
        }
    }

    /// Adds a name, unless it was seen before.
    fn add(&mut self, alloc: Global, name: &str, of_package: &str) -> Result<()>
        ensures { OnOk result (IsNoted name.now of_package.now self.old self.new) }
    {
        if self.seen.contains(name) {
            return Ok(());
        }
        let text = String::from_str(alloc, name)?;
        self.seen.insert(text)?;
        let request = Request {
            name: String::from_str(alloc, name)?,
            package: String::from_str(alloc, of_package)?,
        };
        match self.queue.push_back(request) {
            Ok(()) => Ok(()),
            Err(_) => Err(AllocError),
        }
    }
}
