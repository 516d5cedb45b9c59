//! The numbers of ranges.
ghost use Rattle.std.specs.Prelude.{IfOk, IfSome, OnOk};
ghost use Rattle.version_solving.specs.Naming.{IsRangeAt};
ghost use Rattle.version_solving.specs.Private.Growth.{Extends};

use crate::Result;
use std::alloc::Global;
use std::collections::BTreeMap;

/// A range of a name: the number of the name, and the text of the range.
#[derive(Clone, Copy, Debug, PartialEq, Eq, Drop)]
pub struct Wanted<'v> {
    pub name: usize,
    pub spec: &'v str,
}

/// Ranges by their numbers.
#[derive(Drop)]
pub(crate) struct AllWanted<'v> {
    pub(crate) list: Vec<Wanted<'v>>,
    /// Where a range is in the list. What it says is checked, so no fact about it is needed.
    seen: BTreeMap<(usize, &'v str), usize>,
}

impl<'v> AllWanted<'v> {
    pub(crate) fn new(alloc: Global) -> AllWanted<'v> {
        AllWanted {
            list: Vec::new(alloc),
            seen: BTreeMap::new(alloc),
        }
    }

    /// Returns the number of a range, which is added if it is new.
    pub(crate) fn number_of(&mut self, wanted: Wanted<'v>) -> Result<usize>
        ensures number { IfOk result (λ number. IsRangeAt self.new.list.items number wanted.entry.name wanted.entry.spec.now) }
        ensures extends { OnOk result (Extends self.old.list.items self.new.list.items) }
    {
        if let Some(number) = self.known(wanted) {
            return Ok(number);
        }
        let number = self.list.len();
        self.seen.insert((wanted.name, wanted.spec), number)?;
        self.list.push(wanted)?;
        Ok(number)
    }

    /// The number of a range that is in the list.
    fn known(&self, wanted: Wanted<'v>) -> Option<usize>
        ensures { IfSome result (λ number. IsRangeAt self.now.list.items number wanted.entry.name wanted.entry.spec.now) }
    {
        let number = *self.seen.get(&(wanted.name, wanted.spec))?;
        let found = self.list.get(number)?;
        if found.name == wanted.name && found.spec == wanted.spec {
            Some(number)
        } else {
            None
        }
    }
}
