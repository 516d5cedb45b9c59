//! Places that were found, each once.
ghost use Rattle.std.specs.Prelude.{◌≡◌, ◌↔◌, [], Contains, IsTrue, OnOk, Some, slice_get};
ghost use Rattle.npm_trees.specs.Private.Reaching.{AreAdded, AreMarked, Has};

use crate::Result;
use std::alloc::Global;
use std::collections::BTreeSet;

/// Places that were found, in their order.
#[derive(Drop)]
pub(crate) struct Found {
    pub(crate) order: Vec<usize>,
    pub(crate) marked: BTreeSet<usize>,
}

impl Found {
    pub(crate) fn new(alloc: Global) -> Found
        ensures marked { AreMarked result }
        ensures none { result.order.items ≡ [] }
    {
        Found {
            order: Vec::new(alloc),
            marked: BTreeSet::new(alloc),
        }
    }

    /// Returns `true` if the place was found.
    pub(crate) fn has(&self, number: usize) -> bool
        requires { AreMarked self.now }
        ensures { IsTrue result ↔ Has self.now number }
    {
        self.marked.contains(&number)
    }

    /// Returns the place that was found at this step.
    pub(crate) fn at(&self, step: usize) -> Option<usize>
        ensures { result ≡ slice_get self.now.order.items step }
    {
        match self.order.get(step) {
            Some(number) => Some(*number),
            None => None,
        }
    }

    pub(crate) fn add_all(&mut self, numbers: &[usize]) -> Result<()>
        requires { AreMarked self.old }
        ensures { OnOk result (AreAdded (Contains numbers.now) self.old self.new) }
    {
        for number in numbers {
            self.add(*number)?;
        }
        Ok(())
    }

    pub(crate) fn add_some(&mut self, number: Option<usize>) -> Result<()>
        requires { AreMarked self.old }
        ensures { OnOk result (AreAdded (λ other. number ≡ Some other) self.old self.new) }
    {
        match number {
            Some(number) => self.add(number),
            None => Ok(()),
        }
    }

    /// Adds a place, unless it was found before.
    fn add(&mut self, number: usize) -> Result<()>
        requires { AreMarked self.old }
        ensures { OnOk result (AreAdded (λ other. number ≡ other) self.old self.new) }
    {
        if self.marked.contains(&number) {
            return Ok(());
        }
        self.marked.insert(number)?;
        self.order.push(number)?;
        Ok(())
    }
}
