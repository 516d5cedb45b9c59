//! Whether demands can be met, by any selection.
ghost use Rattle.std.specs.Prelude.{◌≡◌, [], All, IfOk, IfSome, IsTrue, false, true};
ghost use Rattle.version_solving.specs.Documents.{problem_of};
ghost use Rattle.version_solving.specs.Culprits.{CanBeMet};
ghost use Rattle.version_solving.specs.Solving.{Fits, Holds, NoneFits};
ghost use Rattle.version_solving.specs.Private.Paths.{IsAllowed, in_table};

use crate::agenda::chosen;
use crate::certificate::Claim;
use crate::lessons::is_refuted;
use crate::told::{Told, any_of};
use crate::{Choice, Demand, Documents, Result};
use std::alloc::Global;

/// Returns whether demands of a root can be met, or `None` if that takes more steps than it may.
pub(crate) fn can_be_met(
    alloc: Global,
    root: &[Demand],
    documents: &Documents,
    steps: u64,
) -> Result<Option<bool>>
    ensures met { IfOk result (λ found. IfSome found (λ can. can ≡ true → CanBeMet (problem_of root.now documents.now) root.now)) }
    ensures none { IfOk result (λ found. IfSome found (λ can. can ≡ false → NoneFits (problem_of root.now documents.now) [])) }
{
    let Told { claim, lessons } = any_of(alloc, root, documents, steps)?;
    match claim {
        Claim::Fitting(choices) => {
            let table = table_of(alloc, documents, &choices)?;
            Ok(if is_fitting(root, documents, &table) {
                Some(true)
            } else {
                None
            })
        }
        Claim::NoSelection => {
            let is = is_refuted(alloc, root, documents, &lessons)?;
            Ok(if is { Some(false) } else { None })
        }
        Claim::Selected(_) | Claim::Undecided => Ok(None),
    }
}

/// The table of choices.
fn table_of(
    alloc: Global,
    documents: &Documents,
    choices: &[Choice],
) -> Result<Vec<Option<usize>>> {
    let mut table = Vec::with_capacity(alloc, documents.packages.len())?;
    for _ in &documents.packages {
        table.push(None)?;
    }
    for choice in choices {
        if let Some(place) = table.get_mut(choice.name) {
            *place = Some(choice.candidate);
        }
    }
    Ok(table)
}

/// Returns `true` if a demand holds.
fn holds(documents: &Documents, demand: Demand, table: &[Option<usize>]) -> bool
    ensures { IsTrue result → Holds (problem_of [] documents.now) (in_table table.now) demand }
{
    match chosen(table, demand.name) {
        Some(candidate) => documents.allows(demand.range, candidate),
        None => !demand.needed,
    }
}

/// Returns `true` if all demands hold.
fn all_hold(documents: &Documents, demands: &[Demand], table: &[Option<usize>]) -> bool
    ensures { IsTrue result → All (Holds (problem_of [] documents.now) (in_table table.now)) demands.now }
{
    for demand in demands {
        if !holds(documents, *demand, table) {
            return false;
        }
    }
    true
}

/// Returns `true` if the candidate of a name, if one is chosen, is there, and all that it demands holds.
fn is_allowed(documents: &Documents, name: usize, table: &[Option<usize>]) -> bool
    ensures { IsTrue result → IfSome (in_table table.now name) (IsAllowed (problem_of [] documents.now) (in_table table.now) name) }
{
    match chosen(table, name) {
        Some(candidate) => {
            candidate < documents.count(name)
                && all_hold(documents, documents.demands(name, candidate), table)
        }
        None => true,
    }
}

/// Returns `true` if what is chosen fits.
fn is_fitting(root: &[Demand], documents: &Documents, table: &[Option<usize>]) -> bool
    ensures { IsTrue result → Fits (problem_of root.now documents.now) (in_table table.now) }
{
    for name in 0..table.len() {
        if !is_allowed(documents, name, table) {
            return false;
        }
    }
    all_hold(documents, root, table)
}
