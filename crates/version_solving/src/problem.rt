//! Demands by numbers.
ghost use Rattle.std.specs.Prelude.{IfOk, List, OnOk};
ghost use Rattle.version_solving.specs.Naming.{AreCandidatesOf, AreDemandsOf, ArePackagesOf, IsDemandOf, IsNumbered};
ghost use Rattle.version_solving.specs.Private.Growth.{Extends};
ghost use Rattle.version_solving.specs.Private.Numbers.{AreNumbers};
ghost use Rattle.version_solving.specs.declared.ask.Listed.{Listed};

use crate::ask::{Ask, Asker, Listed};
use crate::numbers::Numbers;
use crate::wanted::{AllWanted, Wanted};
use crate::{Candidate, Demand, Package, Result};
use std::alloc::Global;

/// Demands and packages by numbers, and the ranges that the numbers stand for.
#[derive(Drop)]
pub struct Numbered<'v> {
    pub root: Vec<Demand>,
    pub packages: Vec<Package>,
    pub ranges: Vec<Wanted<'v>>,
}

/// Returns the demands of a root and of listed candidates by numbers. The number of a name is its place in the list; a name that is
/// not there has the length of the list, a number without candidates. Equal ranges of a name have one number.
///
/// # Memory
///
/// Allocates a demand for each ask, and an entry for each name and for each range. Texts are borrowed.
pub fn by_number<'v>(alloc: Global, root: &[Ask<'v>], listed: &[Listed<'v>]) -> Result<Numbered<'v>>
    ensures { IfOk result (IsNumbered root.now listed.now) }
{
    let numbers = Numbers::of(alloc, listed)?;
    let mut all = AllWanted::new(alloc);
    let packages = packages_of(alloc, &numbers, &mut all, listed)?;
    let root = demands_of(alloc, &numbers, &mut all, root)?;
    Ok(Numbered {
        root,
        packages,
        ranges: all.list,
    })
}

/// The packages of all names.
fn packages_of<'v>(
    alloc: Global,
    numbers: &Numbers<'v>,
    all: &mut AllWanted<'v>,
    listed: &[Listed<'v>],
) -> Result<Vec<Package>>
    ensures packages { IfOk result (λ packages. (names : List Listed) → AreNumbers names numbers.now
        → ArePackagesOf names all.new.list.items listed.now packages.items) }
    ensures extends { OnOk result (Extends all.old.list.items all.new.list.items) }
{
    let mut packages = Vec::with_capacity(alloc, listed.len())?;
    for one in listed {
        packages.push(package_of(alloc, numbers, all, &one.candidates)?)?;
    }
    Ok(packages)
}

/// The package of candidates that ask this.
fn package_of<'v>(
    alloc: Global,
    numbers: &Numbers<'v>,
    all: &mut AllWanted<'v>,
    askers: &[Asker<'v>],
) -> Result<Package>
    ensures made { IfOk result (λ made. (names : List Listed) → AreNumbers names numbers.now
        → AreCandidatesOf names all.new.list.items askers.now made.candidates.items) }
    ensures extends { OnOk result (Extends all.old.list.items all.new.list.items) }
{
    let mut candidates = Vec::with_capacity(alloc, askers.len())?;
    for one in askers {
        let demands = demands_of(alloc, numbers, all, &one.asks)?;
        candidates.push(Candidate { demands })?;
    }
    Ok(Package { candidates })
}

/// The demands of asks.
fn demands_of<'v>(
    alloc: Global,
    numbers: &Numbers<'v>,
    all: &mut AllWanted<'v>,
    asks: &[Ask<'v>],
) -> Result<Vec<Demand>>
    ensures demands { IfOk result (λ demands. (names : List Listed) → AreNumbers names numbers.now
        → AreDemandsOf names all.new.list.items asks.now demands.items) }
    ensures extends { OnOk result (Extends all.old.list.items all.new.list.items) }
{
    let mut demands = Vec::with_capacity(alloc, asks.len())?;
    for ask in asks {
        demands.push(demand_of(numbers, all, *ask)?)?;
    }
    Ok(demands)
}

/// The demand of an ask.
fn demand_of<'v>(numbers: &Numbers<'v>, all: &mut AllWanted<'v>, ask: Ask<'v>) -> Result<Demand>
    ensures demand { IfOk result (λ demand. (names : List Listed) → AreNumbers names numbers.now
        → IsDemandOf names all.new.list.items ask.entry demand) }
    ensures extends { OnOk result (Extends all.old.list.items all.new.list.items) }
{
    let name = numbers.get(ask.name);
    let range = all.number_of(Wanted {
        name,
        spec: ask.spec,
    })?;
    Ok(Demand {
        name,
        range,
        needed: ask.needed,
    })
}
