//! Names without a document that rule versions out.
ghost use Rattle.std.specs.Prelude.{◌≡◌, ℕ, List, IfOk, OnOk, bytes_eq, false, map};
ghost use Rattle.std.specs.List.{list_any};
ghost use Rattle.version_solving.specs.declared.ask.Ask.{Ask};
ghost use Rattle.version_solving.specs.declared.ask.Asker.{Asker};
ghost use Rattle.version_solving.specs.declared.ask.Listed.{Listed};
ghost use Rattle.npm_resolve.specs.Missing as Missing;
ghost use Rattle.npm_resolve.specs.Texts.{text};
ghost use Rattle.npm_resolve.specs.Private.Needing.{AreNeeded, has};

use crate::Result;
use std::alloc::Global;
use std::collections::BTreeSet;
use version_solving::{Ask, Asker, Listed};

/// Returns those of the names without a document that a version needs, which is never selected then.
pub(crate) fn missing_among<'v>(
    alloc: Global,
    listed: &[Listed<'v>],
    absent: &[Listed<'v>],
) -> Result<Vec<&'v str>>
    ensures { IfOk result (λ missing. map text missing.items
        ≡ Missing.missing_among listed.now (map (λ (one : Listed). one.name.now) absent.now)) }
{
    let needed = needed_by(alloc, listed)?;
    let mut missing = Vec::new(alloc);
    for one in absent {
        if needed.has(one.name) {
            missing.push(one.name)?;
        }
    }
    Ok(missing)
}

/// The names that versions need.
fn needed_by(alloc: Global, listed: &[Listed<'_>]) -> Result<Needed>
    ensures { IfOk result (λ needed. (name : List ℕ) → has needed name ≡ Missing.is_needed_by listed.now name) }
{
    let mut needed = Needed::new(alloc);
    needed.add_listed(alloc, listed)?;
    Ok(needed)
}

/// Names that versions need.
#[derive(Drop)]
struct Needed {
    names: BTreeSet<String>,
}

impl Needed {
    fn new(alloc: Global) -> Needed
        ensures { (name : List ℕ) → has result name ≡ false }
    {
        Needed {
            names: BTreeSet::new(alloc),
        }
    }

    /// Returns `true` for a name that a version needs.
    fn has(&self, name: &str) -> bool
        ensures { result ≡ has self.now name.now }
    {
        self.names.contains(name)
    }

    /// Adds the names that versions of listed names need.
    fn add_listed(&mut self, alloc: Global, listed: &[Listed<'_>]) -> Result<()>
        ensures { OnOk result (AreNeeded (λ name. list_any (Missing.is_needed_of name) listed.now) self.old self.new) }
    {
        for one in listed {
            self.add_askers(alloc, &one.candidates)?;
        }
        Ok(())
    }

    /// Adds the names that versions need.
    fn add_askers(&mut self, alloc: Global, askers: &[Asker<'_>]) -> Result<()>
        ensures { OnOk result (AreNeeded (λ name. list_any (Missing.is_needed_in name) askers.now) self.old self.new) }
    {
        for asker in askers {
            self.add_asks(alloc, &asker.asks)?;
        }
        Ok(())
    }

    /// Adds the names that are needed.
    fn add_asks(&mut self, alloc: Global, asks: &[Ask<'_>]) -> Result<()>
        ensures { OnOk result (AreNeeded (λ name. list_any (Missing.needs name) asks.now) self.old self.new) }
    {
        for ask in asks {
            self.add_ask(alloc, *ask)?;
        }
        Ok(())
    }

    /// Adds a name, if it is needed.
    fn add_ask(&mut self, alloc: Global, ask: Ask<'_>) -> Result<()>
        ensures { OnOk result (AreNeeded (λ name. Missing.needs name ask.entry) self.old self.new) }
    {
        if ask.needed {
            self.add(alloc, ask.name)
        } else {
            Ok(())
        }
    }

    /// Adds a name.
    fn add(&mut self, alloc: Global, name: &str) -> Result<()>
        ensures { OnOk result (AreNeeded (bytes_eq name.now) self.old self.new) }
    {
        if self.names.contains(name) {
            return Ok(());
        }
        let text = String::from_str(alloc, name)?;
        self.names.insert(text)?;
        Ok(())
    }
}
