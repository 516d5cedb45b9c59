//! The advisories by the names of packages.
ghost use Rattle.std.specs.Prelude.{◌≡◌, ◌++◌, [], ◌∷◌, ℕ, List, OnOk};
ghost use Rattle.std.specs.Option.{option_map_or};
ghost use Rattle.npm_advisories.specs.Index.{at_name};
ghost use Rattle.npm_advisories.specs.Private.Index.{named};

use crate::Result;
use crate::advisory::Advisory;
use std::alloc::Global;
use std::collections::BTreeMap;

/// The advisories by the names of packages, those of a name in the order of the file.
#[derive(Drop)]
pub(crate) struct Index<'v> {
    by_name: BTreeMap<&'v str, Vec<Advisory<'v>>>,
}

impl<'v> Index<'v> {
    pub(crate) fn new(alloc: Global) -> Index<'v>
        ensures { (name : List ℕ) → at_name result name ≡ [] }
    {
        Index {
            by_name: BTreeMap::new(alloc),
        }
    }

    /// Adds an advisory behind those of the same name.
    pub(crate) fn add(&mut self, alloc: Global, advisory: Advisory<'v>) -> Result<()>
        ensures { OnOk result ((name : List ℕ) → at_name self.new name
            ≡ at_name self.old name ++ named name (advisory.entry ∷ [])) }
    {
        let name = advisory.name;
        let list = self.by_name.entry(name)?.or_insert(Vec::new(alloc));
        list.push(advisory)?;
        Ok(())
    }

    /// Returns the advisories about the package with this name, if there are any. Does not allocate.
    pub(crate) fn at(&self, name: &str) -> Option<&[Advisory<'v>]>
        ensures { option_map_or (λ list. list.now) result [] ≡ at_name self.now name.now }
    {
        Some(self.by_name.get(name)?.as_slice())
    }
}
