//! Which candidate would fit in place of a demand.
ghost use Rattle.std.specs.Prelude.{◌≡◌, ◌↔◌, ◌<◌, ◌++◌, [], ◌∷◌, ℕ, false, true, IfOk, OnOk, IsTrue, All, Contains, Some, length};
ghost use Rattle.std.specs.List.{AllZip};
ghost use Rattle.version_solving.specs.Documents.{allowed_in, problem_of};
ghost use Rattle.version_solving.specs.Fitting.{IsChange, IsFirst};
ghost use Rattle.version_solving.specs.Private.Changes as Changes;
ghost use Rattle.version_solving.specs.Private.Changes.{AreAllBelow, AreBelow, HaveRanges};
ghost use Rattle.version_solving.specs.declared.documents.Package.{Package};

use crate::blamed::place_of;
use crate::{Candidate, Demand, Documents, Outcome, Range, Result, solve};
use std::alloc::Global;

/// What would fit in place of a demand.
#[derive(Clone, Copy, Debug, PartialEq, Eq, Drop)]
pub enum Change {
    /// This candidate of the name: the first one outside the range that a selection has which meets the other demands.
    First(usize),
    /// No candidate outside the range.
    Nothing,
    /// The steps were used up before either was known.
    Undecided,
}

/// Returns for each of these demands of a root which candidate outside its range would fit in its place.
///
/// It solves one problem for each of these demands: that of the other demands of the root. It returns `Undecided` for all of them if a
/// demand has a range that is not in the documents.
///
/// The documents get one range more at a time. They are the same after this, unless an allocation fails.
///
/// # Memory
///
/// Allocates the list, one list of demands and one range at a time, and what `solve` allocates.
pub fn changes(
    alloc: Global,
    root: &[Demand],
    documents: &mut Documents,
    demands: &[Demand],
    steps: u64,
) -> Result<Vec<Change>>
    requires { All (Contains root.now) demands.now }
    ensures changes { IfOk result (λ changes. AllZip (IsChange (problem_of root.now documents.old)) demands.now changes.items) }
    ensures ranges { OnOk result (documents.new.ranges.items ≡ documents.old.ranges.items) }
    ensures packages { OnOk result (documents.new.packages ≡ documents.old.packages) }
{
    let mut found = Vec::with_capacity(alloc, demands.len())?;
    for demand in demands {
        found.push(change_of(alloc, root, documents, *demand, steps)?)?;
    }
    Ok(found)
}

/// Which candidate would fit in place of a demand of the root.
fn change_of(
    alloc: Global,
    root: &[Demand],
    documents: &mut Documents,
    demand: Demand,
    steps: u64,
) -> Result<Change>
    requires { Contains root.now demand }
    ensures change { IfOk result (IsChange (problem_of root.now documents.old) demand) }
    ensures ranges { OnOk result (documents.new.ranges.items ≡ documents.old.ranges.items) }
    ensures packages { OnOk result (documents.new.packages ≡ documents.old.packages) }
{
    let place = place_of(root, demand);
    let mut others = Vec::from_slice(alloc, &root[..place])?;
    others.extend_from_slice(&root[place + 1..])?;
    if have_ranges(&others, documents) {
        first_outside(alloc, &others, documents, demand, steps)
    } else {
        Ok(Change::Undecided)
    }
}

/// Which candidate outside the range of a demand would fit with other demands.
fn first_outside(
    alloc: Global,
    others: &[Demand],
    documents: &mut Documents,
    demand: Demand,
    steps: u64,
) -> Result<Change>
    requires { HaveRanges others.now documents.old }
    ensures change { IfOk result (IsFirst (problem_of others.now documents.old) demand.name demand.range) }
    ensures ranges { OnOk result (documents.new.ranges.items ≡ documents.old.ranges.items) }
    ensures packages { OnOk result (documents.new.packages ≡ documents.old.packages) }
{
    let outside = outside_of(alloc, documents, demand)?;
    let front = Demand {
        name: demand.name,
        range: documents.ranges.len(),
        needed: true,
    };
    let mut demands = Vec::new(alloc);
    demands.push(front)?;
    demands.extend_from_slice(others)?;
    documents.ranges.push(outside)?;
    let outcome = solve(alloc, &demands, documents, steps)?;
    documents.ranges.pop();
    Ok(change_in(&outcome))
}

/// The first choice of what was found.
fn change_in(outcome: &Outcome) -> Change
    ensures { result ≡ Changes.change_in outcome.now }
{
    match outcome {
        Outcome::Selected(choices) => match choices.get(0) {
            Some(choice) => Change::First(choice.candidate),
            None => Change::Nothing,
        },
        Outcome::NoSelection => Change::Nothing,
        Outcome::Undecided => Change::Undecided,
    }
}

/// The candidates of its name that a demand does not allow.
fn outside_of(alloc: Global, documents: &Documents, demand: Demand) -> Result<Range>
    ensures { IfOk result (λ outside. (candidate : ℕ) → allowed_in (Some outside) candidate ≡ true
        ↔ (candidate < (problem_of [] documents.now).count demand.name × (problem_of [] documents.now).allows demand.range candidate ≡ false)) }
{
    let mut allowed = Vec::new(alloc);
    for candidate in 0..documents.count(demand.name) {
        allowed.push(!documents.allows(demand.range, candidate))?;
    }
    Ok(Range { allowed })
}

/// Returns `true` if each demand has a range that is there.
fn have_ranges(demands: &[Demand], documents: &Documents) -> bool
    ensures { IsTrue result → HaveRanges demands.now documents.now }
{
    let number = documents.ranges.len();
    if !are_below(demands, number) {
        return false;
    }
    for package in &documents.packages {
        if !are_all_below(&package.candidates, number) {
            return false;
        }
    }
    true
}

/// Returns `true` if the demands of candidates have ranges below a number.
fn are_all_below(candidates: &[Candidate], number: usize) -> bool
    ensures { IsTrue result → AreAllBelow number candidates.now }
{
    for candidate in candidates {
        if !are_below(&candidate.demands, number) {
            return false;
        }
    }
    true
}

/// Returns `true` if demands have ranges below a number.
fn are_below(demands: &[Demand], number: usize) -> bool
    ensures { IsTrue result → AreBelow number demands.now }
{
    for demand in demands {
        if demand.range >= number {
            return false;
        }
    }
    true
}
