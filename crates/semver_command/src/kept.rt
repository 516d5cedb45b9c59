//! What is kept of the versions that were read.
ghost use Rattle.std.specs.Prelude.{◌≡◌, ◌≢◌, ◌++◌, ◌∷◌, [], List, OnOk, IsTrue, ◌↔◌};
ghost use Rattle.std.specs.Bool.{MatchBool};
ghost use Rattle.std.specs.Option.{option_copied};
ghost use Rattle.node_semver.specs.Versions.{VersionValue};
ghost use Rattle.semver_command.specs.Kept.{AreInOrder, IsBest, IsBestOf, IsBetter, IsKept, IsListed, ending_of};
ghost use Rattle.semver_command.specs.declared.asked.Listing.{Listing};
ghost use Rattle.semver_command.specs.declared.asked.Options.{Options};

use crate::answer::is_nothing;
use crate::asked::Listing;
use crate::ending::Ending;
use crate::stopped::Stopped;
use crate::writing::write_item;
use node_semver::Version;
use std::alloc::Global;
use std::cmp::Ordering;
use std::io::Write;

/// What is kept of the versions that were read.
#[derive(Drop)]
pub enum Kept {
    /// All of them.
    All(Vec<Version>),
    /// The least of them.
    Least(Option<Version>),
    /// The greatest of them.
    Greatest(Option<Version>),
    /// None: each was written. `true` if there was none yet.
    Written(bool),
}

impl Kept {
    /// Returns the value that is kept before the first version.
    pub fn new(alloc: Global, listing: Listing) -> Kept
        ensures { IsKept listing [] result }
    {
        match listing {
            Listing::Ordered => Kept::All(Vec::new(alloc)),
            Listing::Unsorted => Kept::Written(true),
            Listing::Least => Kept::Least(None),
            Listing::Greatest => Kept::Greatest(None),
        }
    }

    /// Adds a version.
    pub fn add<W: Write>(
        &mut self,
        alloc: Global,
        version: Version,
        is_json: bool,
        writer: &mut W,
    ) -> Result<(), Stopped>
        ensures { OnOk result ((listing : Listing) (versions : List VersionValue)
            → IsKept listing versions self.old → IsKept listing (versions ++ (version ∷ [])) self.new) }
    {
        match self {
            Kept::All(versions) => {
                if versions.push(version).is_err() {
                    return Err(Stopped::Memory);
                }
            }
            Kept::Least(best) => keep_best(best, version, true),
            Kept::Greatest(best) => keep_best(best, version, false),
            Kept::Written(is_first) => {
                write_item(alloc, writer, &version, is_json, *is_first)?;
                *is_first = false;
            }
        }
        Ok(())
    }

    /// Puts the versions in ascending order of precedence, or in descending order.
    pub fn put_in_order(&mut self, reverse: bool)
        ensures { (options : Options) (versions : List VersionValue) → IsKept options.listing versions self.old
            → options.reverse ≡ reverse → IsListed options versions self.new }
    {
        match self {
            Kept::All(versions) => put_in_order(versions, reverse),
            Kept::Least(_) | Kept::Greatest(_) | Kept::Written(_) => {}
        }
    }

    /// Returns `true` if there was no version.
    fn is_nothing(&self) -> bool
        ensures { (options : Options) (versions : List VersionValue)
            → IsListed options versions self.now → MatchBool result (versions ≡ []) (versions ≢ []) }
    {
        match self {
            Kept::All(versions) => is_nothing(versions),
            Kept::Least(best) => best.is_none(),
            Kept::Greatest(best) => best.is_none(),
            Kept::Written(is_nothing) => *is_nothing,
        }
    }

    /// Returns `Nothing` if there was no version.
    pub fn ending(&self) -> Ending
        ensures { (options : Options) (versions : List VersionValue)
            → IsListed options versions self.now → result ≡ ending_of versions }
    {
        if self.is_nothing() {
            Ending::Nothing
        } else {
            Ending::Written
        }
    }
}

/// Puts the versions in ascending order of precedence, or in descending order.
fn put_in_order(versions: &mut Vec<Version>, reverse: bool)
    ensures { AreInOrder reverse versions.old.items versions.new.items }
{
    versions.sort_unstable();
    if reverse {
        versions.reverse();
    }
}

/// Keeps the version in the place of the best one so far if it is better, or if there is none.
fn keep_best(best: &mut Option<Version>, version: Version, is_least: bool)
    ensures { (versions : List VersionValue) → IsBest is_least versions best.old
        → IsBest is_least (versions ++ (version ∷ [])) best.new }
{
    if is_new_best(best.as_ref(), &version, is_least) {
        *best = Some(version);
    }
}

/// Returns `true` if the version is better than the best one so far, or if there is none.
fn is_new_best(best: Option<&Version>, version: &Version, is_least: bool) -> bool
    ensures { (versions : List VersionValue) → IsBest is_least versions (option_copied best.entry)
        → MatchBool result (IsBestOf is_least (versions ++ (version.now ∷ [])) version.now)
        (IsBest is_least (versions ++ (version.now ∷ [])) (option_copied best.entry)) }
{
    match best {
        Some(best) => is_better(version, best, is_least),
        None => true,
    }
}

/// Returns `true` if the first version is less than the second, or with `is_least` unset greater.
fn is_better(version: &Version, best: &Version, is_least: bool) -> bool
    ensures { IsTrue result ↔ IsBetter is_least version.now best.now }
{
    let order = version.cmp(best);
    if is_least {
        order == Ordering::Less
    } else {
        order == Ordering::Greater
    }
}
