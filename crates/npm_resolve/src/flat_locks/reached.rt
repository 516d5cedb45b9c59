//! Names that the dependencies of a root lead to.
ghost use Rattle.std.specs.Prelude.{◌≡◌, ◌↔◌, ℕ, IfOk, List, OnOk, [], false, map, true};
ghost use Rattle.serde_json.specs.View.{view};
ghost use Rattle.npm_packages.specs.PackageValue.{asked_value};
ghost use Rattle.npm_resolve.specs.Installed.{installed_value};
ghost use Rattle.npm_resolve.specs.Reached as Reaching;
ghost use Rattle.npm_resolve.specs.Reached.{Asks, IsReached};
ghost use Rattle.npm_resolve.specs.Private.Reaching.{AreAdded, IsAskedBy, IsNoted, IsNotedIf, is_seen};

use crate::Result;
use crate::flat_locks::installed::{Installed, found};
use npm_packages::{Asked, asked_of};
use serde_json::Value;
use std::alloc::{AllocError, Global};
use std::collections::{BTreeSet, VecDeque};

/// Groups of dependencies that lead nowhere.
#[derive(Clone, Copy, Debug, PartialEq, Eq, Drop)]
pub(crate) struct Groups {
    /// Those that count in development alone.
    pub(crate) dev: bool,
    /// Those that need not be found.
    pub(crate) optional: bool,
    pub(crate) peer: bool,
}

/// Names that are reached: those whose dependencies wait to be read, and all.
#[derive(Drop)]
pub(crate) struct Reached {
    pub(crate) waiting: VecDeque<String>,
    pub(crate) seen: BTreeSet<String>,
}

/// Returns the names that are reached from a root by dependencies that are in none of these groups.
pub(crate) fn reached_from(
    alloc: Global,
    root: &Value,
    installed: &[Installed<'_>],
    groups: Groups,
) -> Result<Reached>
    ensures { IfOk result (λ reached. (name : List ℕ) → (is_seen reached name ≡ true)
        ↔ IsReached (view root.now) (map installed_value installed.now) groups name) }
{
    let mut reached = Reached::new(alloc);
    reached.add_dependencies(alloc, root, false, groups)?;
    for _ in 0..u64::MAX {
        let Some(name) = reached.waiting.pop_front() else {
            return Ok(reached);
        };
        reached.add_named(alloc, installed, name.as_str(), groups)?;
    }
    // No memory has so many names.
    Err(AllocError)
}

impl Reached {
    fn new(alloc: Global) -> Reached
        ensures waiting { result.waiting.items ≡ [] }
        ensures seen { (name : List ℕ) → is_seen result name ≡ false }
    {
        Reached {
            waiting: VecDeque::new(alloc),
            seen: BTreeSet::new(alloc),
        }
    }

    /// Returns `true` if the name is reached.
    pub(crate) fn has(&self, name: &str) -> bool
        ensures { result ≡ is_seen self.now name.now }
    {
        self.seen.contains(name)
    }

    /// Adds the dependencies of the package that is installed under a name, if one is.
    fn add_named(
        &mut self,
        alloc: Global,
        installed: &[Installed<'_>],
        name: &str,
        groups: Groups,
    ) -> Result<()>
        ensures { OnOk result (AreAdded (IsAskedBy (map installed_value installed.now) groups name.now) self.old self.new) }
    {
        match found(installed, name) {
            Some(asker) => self.add_dependencies(alloc, asker.manifest, true, groups),
            None => Ok(()),
        }
    }

    /// Adds the dependencies of a manifest that are in none of these groups.
    fn add_dependencies(
        &mut self,
        alloc: Global,
        asker: &Value,
        is_installed: bool,
        groups: Groups,
    ) -> Result<()>
        ensures { OnOk result (AreAdded (Asks (view asker.now) is_installed groups) self.old self.new) }
    {
        let all = asked_of(alloc, asker, is_installed)?;
        for (name, asked) in all.iter() {
            self.add_if(alloc, leads(groups, *asked), *name)?;
        }
        Ok(())
    }

    /// Adds a name, if it is asked for.
    fn add_if(&mut self, alloc: Global, is_asked: bool, name: &str) -> Result<()>
        ensures { OnOk result (IsNotedIf is_asked name.now self.old self.new) }
    {
        if is_asked {
            self.add(alloc, name)
        } else {
            Ok(())
        }
    }

    /// Adds a name, unless it was seen before.
    fn add(&mut self, alloc: Global, name: &str) -> Result<()>
        ensures { OnOk result (IsNoted name.now self.old self.new) }
    {
        if self.seen.contains(name) {
            return Ok(());
        }
        let text = String::from_str(alloc, name)?;
        self.seen.insert(text)?;
        let waiting = String::from_str(alloc, name)?;
        match self.waiting.push_back(waiting) {
            Ok(()) => Ok(()),
            Err(_) => Err(AllocError),
        }
    }
}

/// Returns `true` for a dependency that is in none of these groups.
fn leads(groups: Groups, asked: Asked<'_>) -> bool
    ensures { result ≡ Reaching.leads groups (asked_value asked.entry) }
{
    !(groups.dev && asked.is_dev)
        && !(groups.optional && !asked.is_needed)
        && !(groups.peer && asked.is_peer)
}
