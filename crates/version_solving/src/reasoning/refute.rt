//! How the lines are found.
ghost use Rattle.std.specs.Prelude.{IfOk, IfSome};
ghost use Rattle.version_solving.specs.Documents.{problem_of};
ghost use Rattle.version_solving.specs.Reasons.{IsProof};

use crate::reasoning::fewer::{fewer, trimmed, turned};
use crate::reasoning::needed::needed_lines;
use crate::reasoning::order::{Order, weights_of};
use crate::reasoning::path::{Path, Step};
use crate::{Demand, Documents, Reason, is_proof};
use std::alloc::{AllocError, Global};

/// The steps that a second search for lines may take.
const FEW: u64 = 2_048;

/// So many lines are few enough.
const SHORT: usize = 32;

/// Returns why demands of a root cannot be met together: lines each of which is true of the root or of the documents or follows
/// from lines above it. The last line says that no selection fits.
///
/// Lines are sought in documents with as few demands as are needed, in several orders. Those are returned that are the fewest.
///
/// Returns `None` if a search for them takes more steps than it may, and where a selection fits.
pub fn reasons(
    alloc: Global,
    root: &[Demand],
    documents: &Documents,
    steps: u64,
) -> Result<Option<Vec<Reason>>, AllocError>
    ensures proof { IfOk result (λ found. IfSome found (λ lines. IsProof (problem_of root.now documents.now) lines.items)) }
{
    match refuted(alloc, root, documents, steps)? {
        Some(lines) if is_proof(root, documents, &lines) => Ok(Some(lines)),
        _ => Ok(None),
    }
}

/// Returns lines, the last of which has no terms. What they say is checked by the caller.
fn refuted(
    alloc: Global,
    root: &[Demand],
    documents: &Documents,
    steps: u64,
) -> Result<Option<Vec<Reason>>, AllocError> {
    let Some(few) = fewer(alloc, root, documents, steps)? else {
        return Ok(None);
    };
    let Some(lines) = of_few(alloc, root, documents, few, steps)? else {
        return Ok(None);
    };
    if lines.len() < SHORT {
        return Ok(Some(lines));
    }
    let others = of_turned(alloc, root, documents, steps)?;
    Ok(fewer_of(Some(lines), others))
}

/// The fewest lines that are found in documents, and in those with few demands.
fn of_few(
    alloc: Global,
    root: &[Demand],
    documents: &Documents,
    few: Documents,
    steps: u64,
) -> Result<Option<Vec<Reason>>, AllocError> {
    let first = of_both(alloc, root, documents, &few, steps.min(FEW))?;
    let trimmed = trimmed(alloc, root, few, steps)?;
    let second = fewest(alloc, root, &trimmed, steps.min(FEW))?;
    match fewer_of(first, second) {
        Some(lines) => Ok(Some(lines)),
        None => found_by(alloc, root, &trimmed, Order::FewCandidates, steps),
    }
}

/// The fewest lines that are found in one of two documents.
fn of_both(
    alloc: Global,
    root: &[Demand],
    one: &Documents,
    other: &Documents,
    steps: u64,
) -> Result<Option<Vec<Reason>>, AllocError> {
    let first = found_by(alloc, root, one, Order::FewCandidates, steps)?;
    let second = found_by(alloc, root, other, Order::FewCandidates, steps)?;
    Ok(fewer_of(first, second))
}

/// The fewest lines that are found where the demands of candidates are read from the last one on.
fn of_turned(
    alloc: Global,
    root: &[Demand],
    documents: &Documents,
    steps: u64,
) -> Result<Option<Vec<Reason>>, AllocError> {
    let turned = turned(alloc, documents)?;
    match fewer(alloc, root, &turned, steps)? {
        Some(few) => {
            let trimmed = trimmed(alloc, root, few, steps)?;
            fewest(alloc, root, &trimmed, steps.min(FEW))
        }
        None => Ok(None),
    }
}

/// The fewest lines that are found in one of the orders.
fn fewest(
    alloc: Global,
    root: &[Demand],
    documents: &Documents,
    steps: u64,
) -> Result<Option<Vec<Reason>>, AllocError> {
    let mut best = None;
    for order in [Order::FewCandidates, Order::ManyAsk, Order::FewAsk] {
        let lines = found_by(alloc, root, documents, order, steps)?;
        best = fewer_of(best, lines);
    }
    Ok(best)
}

/// The fewer lines of two, if there are any.
fn fewer_of(one: Option<Vec<Reason>>, other: Option<Vec<Reason>>) -> Option<Vec<Reason>> {
    match (one, other) {
        (Some(one), Some(other)) => Some(if other.len() < one.len() { other } else { one }),
        (Some(one), None) => Some(one),
        (None, other) => other,
    }
}

/// The lines that a search in an order finds.
fn found_by(
    alloc: Global,
    root: &[Demand],
    documents: &Documents,
    order: Order,
    steps: u64,
) -> Result<Option<Vec<Reason>>, AllocError> {
    let weights = weights_of(alloc, root, documents, order)?;
    let mut path = Path::new(alloc, documents, weights)?;
    let Some(first) = path.next(alloc, root, documents) else {
        return Ok(None);
    };
    let mut tried = first;
    for _ in 0..steps {
        match path.step(alloc, root, documents, tried)? {
            Step::Next(next) => tried = next,
            Step::Fitting => return Ok(None),
            Step::Refuted => return Ok(Some(needed_lines(alloc, path.into_reasons())?)),
        }
    }
    Ok(None)
}
