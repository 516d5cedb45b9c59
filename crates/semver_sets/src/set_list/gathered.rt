//! The sets of a list, as they come one after another.
ghost use Rattle.std.specs.Prelude.{◌≡◌, ◌≢◌, ◌++◌, ◌∷◌, [], IfOk, IfSome, List, None, OnOk};
ghost use Rattle.semver_cuts.specs.Ends.{Ends};
ghost use Rattle.semver_sets.specs.Private.RangeViews.{listed_set};
ghost use Rattle.semver_sets.specs.RangeSets.{sets_of_some, sets_seen};
ghost use Rattle.semver_texts.specs.Version.{VersionValue};

use crate::set_list::Sets;
use crate::set_list::copy::copy_of;
use crate::set_list::indexed::IndexedSets;
use semver_cuts::algebra::Gather;
use semver_cuts::{Cut, Span};
use semver_texts::end::EndVersion;
use std::alloc::{AllocError, Global};
use std::marker::Model;

/// The sets so far: none, one, or several. A contract sees their list.
///
/// Usually there is one, which needs no list.
// `#[inline(always)]` in this file: a set is then built in the place of the result.
#[derive(Drop)]
pub struct Gathered {
    // the only set
    one: Option<Span<EndVersion>>,
    // all sets, if there are several
    several: Vec<Span<EndVersion>>,
}

impl Model for Gathered {
    ghost Value = { List (Ends VersionValue) };

    ghost view = { λ g. listed_set g.one ++ g.several.items };

    ghost invariant = { λ g. g.several.items ≢ [] → g.one ≡ None };
}

impl Gathered {
    /// Returns no sets. Does not allocate.
    #[inline(always)]
    pub fn new(alloc: Global) -> Gathered
        ensures { result ≡ [] }
    {
        Gathered {
            one: None,
            several: Vec::new(alloc),
        }
    }

    /// Adds one more set.
    ///
    /// # Errors
    ///
    /// Returns `AllocError` if an allocation fails.
    ///
    /// # Memory
    ///
    /// Allocates a list for the second set, which grows with the number of sets.
    #[inline(always)]
    pub fn add(&mut self, set: Span<EndVersion>) -> Result<(), AllocError>
        ensures { OnOk result (self.new ≡ self.old ++ set ∷ []) }
    {
        if self.one.is_none() && self.several.is_empty() {
            self.one = Some(set);
            return Ok(());
        }
        self.add_to_list(set)
    }

    // Adds a set that is not the first. `inline(never)`: usually there is one.
    #[inline(never)]
    fn add_to_list(&mut self, set: Span<EndVersion>) -> Result<(), AllocError>
        ensures { OnOk result (self.new ≡ self.old ++ set ∷ []) }
    {
        if let Some(one) = self.one.take() {
            self.several.push(one)?;
        }
        self.several.push(set)?;
        Ok(())
    }

    /// Returns the sets with the index of their list, or `None` if there are none.
    ///
    /// # Errors
    ///
    /// Returns `AllocError` if an allocation fails.
    ///
    /// # Memory
    ///
    /// Allocates the index if there are several sets.
    #[inline(always)]
    pub fn into_sets(self) -> Result<Option<Sets>, AllocError>
        ensures sets { IfOk result (λ answer. sets_of_some answer ≡ self) }
        ensures some { IfOk result (λ answer. IfSome answer (λ sets. sets_seen sets ≢ [])) }
    {
        let Gathered { one, several } = self;
        match one {
            Some(set) => Ok(Some(Sets::One(set))),
            None if several.is_empty() => Ok(None),
            None => Ok(Some(Sets::Many(IndexedSets::of(*several.allocator(), several)?))),
        }
    }
}

impl<'a> Gather<'a, EndVersion> for Gathered {
    ghost gathered = { λ sets. sets };

    #[inline(always)]
    fn gather(
        &mut self,
        lower: &'a Cut<EndVersion>,
        upper: &'a Cut<EndVersion>,
    ) -> Result<(), AllocError> {
        let set = copy_of(lower, upper)?;
        self.add(set)
    }
}
