//! The names of packages that are wanted: those of installed packages.
//!
//! See docs/DECISIONS.md, "An advisory about a package that is not installed is not read".
ghost use Rattle.std.specs.Prelude.{◌≡◌, ◌||◌, List, OnOk, bytes_eq, false, ℕ};
ghost use Rattle.npm_advisories.specs.Index.{has_name};

use crate::Result;
use std::alloc::Global;
use std::collections::BTreeMap;

/// The names of packages that are wanted.
#[derive(Drop)]
pub(crate) struct Names<'v> {
    set: BTreeMap<&'v str, ()>,
}

impl<'v> Names<'v> {
    /// Returns no names. Does not allocate.
    pub(crate) fn new(alloc: Global) -> Names<'v>
        ensures { (name : List ℕ) → has_name result name ≡ false }
    {
        Names {
            set: BTreeMap::new(alloc),
        }
    }

    /// Adds a name.
    pub(crate) fn add(&mut self, name: &'v str) -> Result<()>
        ensures { OnOk result ((other : List ℕ) → has_name self.new other
            ≡ (has_name self.old other || bytes_eq name.now other)) }
    {
        self.set.insert(name, ())?;
        Ok(())
    }

    /// Returns `true` if the package with this name is wanted.
    pub(crate) fn has(&self, name: &str) -> bool
        ensures { result ≡ has_name self.now name.now }
    {
        self.set.contains_key(name)
    }
}
