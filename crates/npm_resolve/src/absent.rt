//! Names without a document.
ghost use Rattle.std.specs.Prelude.{◌≡◌, ◌++◌, ℕ, List, [], IfOk, IsTrue, OnOk, All, map};
ghost use Rattle.version_solving.specs.declared.ask.Listed.{Listed};
ghost use Rattle.npm_resolve.specs.Instance.{AreAbsent, AreAskersNamed, IsAskNamed, IsNamed};
ghost use Rattle.npm_resolve.specs.Missing as Missing;
ghost use Rattle.npm_resolve.specs.Private.Naming.{AreNamesAdded};
ghost use Rattle.npm_resolve.specs.Texts.{text};

use crate::Result;
use crate::missing::missing_among;
use std::alloc::Global;
use std::collections::BTreeMap;
use version_solving::{Ask, Asker, Listed};

/// All names, and those without a document that versions need.
#[derive(Drop)]
pub(crate) struct Named<'v> {
    pub(crate) names: Vec<Listed<'v>>,
    pub(crate) missing: Vec<&'v str>,
}

/// Returns a list of names, and behind it each name that is asked for and is not there. It has no candidates.
pub(crate) fn with_absent<'v>(
    alloc: Global,
    asks: &[Ask<'v>],
    listed: Vec<Listed<'v>>,
) -> Result<Named<'v>>
    ensures { IfOk result (λ named. (absent : List Listed) × AreAbsent asks.now listed.entry.items absent
        × (named.names.items ≡ listed.entry.items ++ absent)
        × (map text named.missing.items ≡ Missing.missing_among listed.entry.items (map (λ (one : Listed). one.name.now) absent))) }
{
    let mut absent = absent_of(alloc, asks, &listed)?;
    let missing = missing_among(alloc, &listed, &absent)?;
    let mut names = listed;
    names.append(&mut absent)?;
    Ok(Named { names, missing })
}

/// The names that are asked for and are not in a list.
fn absent_of<'v>(alloc: Global, asks: &[Ask<'v>], listed: &[Listed<'v>]) -> Result<Vec<Listed<'v>>>
    ensures { IfOk result (λ absent. AreAbsent asks.now listed.now absent.items) }
{
    let mut names = Names::of(alloc, listed)?;
    names.add_all(alloc, listed, asks)?;
    for one in listed {
        names.add_askers(alloc, listed, &one.candidates)?;
    }
    Ok(names.absent)
}

/// Names that a list does not have.
#[derive(Drop)]
struct Names<'v> {
    absent: Vec<Listed<'v>>,
    /// Where a name is in the list, or among those that it does not have. What it says is checked, so no fact about it is needed.
    places: BTreeMap<&'v str, usize>,
}

impl<'v> Names<'v> {
    /// No names beside those of a list.
    fn of(alloc: Global, listed: &[Listed<'v>]) -> Result<Names<'v>>
        ensures { IfOk result (λ names. names.absent.items ≡ []) }
    {
        let mut places = BTreeMap::new(alloc);
        for (place, one) in listed.iter().enumerate() {
            places.insert(one.name, place)?;
        }
        Ok(Names {
            absent: Vec::new(alloc),
            places,
        })
    }

    /// Adds the names that candidates ask for.
    fn add_askers(
        &mut self,
        alloc: Global,
        listed: &[Listed<'v>],
        askers: &[Asker<'v>],
    ) -> Result<()>
        ensures { OnOk result (AreNamesAdded listed.now (λ names. AreAskersNamed names askers.now) self.old self.new) }
    {
        for asker in askers {
            self.add_all(alloc, listed, &asker.asks)?;
        }
        Ok(())
    }

    /// Adds the names that are asked for.
    fn add_all(&mut self, alloc: Global, listed: &[Listed<'v>], asks: &[Ask<'v>]) -> Result<()>
        ensures { OnOk result (AreNamesAdded listed.now (λ names. All (IsAskNamed names) asks.now) self.old self.new) }
    {
        for ask in asks {
            self.add(alloc, listed, ask.name)?;
        }
        Ok(())
    }

    /// Adds a name, unless it is there.
    fn add(&mut self, alloc: Global, listed: &[Listed<'v>], name: &'v str) -> Result<()>
        ensures { OnOk result (AreNamesAdded listed.now (λ names. IsNamed names name.now) self.old self.new) }
    {
        if self.is_known(listed, name) {
            return Ok(());
        }
        self.places.insert(name, self.absent.len())?;
        self.absent.push(Listed {
            name,
            candidates: Vec::new(alloc),
        })?;
        Ok(())
    }

    /// Returns `true` if the name is found in the list, or among those that it does not have.
    fn is_known(&self, listed: &[Listed<'v>], name: &'v str) -> bool
        ensures { IsTrue result → IsNamed (listed.now ++ self.now.absent.items) name.now }
    {
        match self.places.get(&name) {
            Some(place) => {
                has_name(listed, *place, name) || has_name(&self.absent, *place, name)
            }
            None => false,
        }
    }
}

/// Returns `true` if a list has the name at a place.
fn has_name(listed: &[Listed<'_>], place: usize, name: &str) -> bool
    ensures { IsTrue result → IsNamed listed.now name.now }
{
    match listed.get(place) {
        Some(one) => one.name == name,
        None => false,
    }
}
