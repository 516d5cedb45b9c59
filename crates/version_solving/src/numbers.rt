//! The numbers of names.
ghost use Rattle.std.specs.Prelude.{◌≡◌, ℕ, List, IfOk};
ghost use Rattle.version_solving.specs.Naming.{number_of};
ghost use Rattle.version_solving.specs.Private.Numbers.{AreNumbers};
ghost use Rattle.version_solving.specs.declared.ask.Listed.{Listed};

use crate::Result;
use crate::ask::Listed;
use std::alloc::Global;
use std::collections::BTreeMap;

/// The places of names in a list.
#[derive(Drop)]
pub(crate) struct Numbers<'v> {
    pub(crate) by_name: BTreeMap<&'v str, usize>,
    /// The length of the list: the number of every name that it does not have.
    pub(crate) absent: usize,
}

impl<'v> Numbers<'v> {
    /// Returns the places of the names in this list. If a name is there twice, its first place counts.
    pub(crate) fn of(alloc: Global, listed: &[Listed<'v>]) -> Result<Numbers<'v>>
        ensures { IfOk result (AreNumbers listed.now) }
    {
        let mut by_name = BTreeMap::new(alloc);
        for place in (0..listed.len()).rev() {
            by_name.insert(listed[place].name, place)?;
        }
        Ok(Numbers {
            by_name,
            absent: listed.len(),
        })
    }

    /// Returns the number of a name.
    pub(crate) fn get(&self, name: &'v str) -> usize
        ensures { (listed : List Listed) → AreNumbers listed self.now → result ≡ number_of listed name.now }
    {
        match self.by_name.get(&name) {
            Some(place) => *place,
            None => self.absent,
        }
    }
}
