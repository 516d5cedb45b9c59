//! Which demands of a root cannot be met together.
ghost use Rattle.std.specs.Prelude.{◌≡◌, ◌+◌, ◌<◌, ◌++◌, [], IfOk, IfSome, All, Contains, length, reverse, true};
ghost use Rattle.version_solving.specs.Documents.{problem_of};
ghost use Rattle.version_solving.specs.Solving.{NoneFits};
ghost use Rattle.version_solving.specs.Culprits.{AreCulprits};
ghost use Rattle.version_solving.specs.Private.Missed.{AreMissed, AreTooMany};

use crate::certificate::Step;
use crate::told::any_of;
use crate::witness::can_be_met;
use crate::{Demand, Documents};
use std::alloc::{AllocError, Global};

/// Returns demands of a root that no selection fits: together they cannot be met, and without any one of them the others can.
///
/// They are sought among the demands from which the search found that nothing fits, which are few. Parts of the root can be harder to
/// solve than the whole.
///
/// Returns `None` if a search for one of these answers takes more steps than it may.
pub fn culprits(
    alloc: Global,
    root: &[Demand],
    documents: &Documents,
    steps: u64,
) -> Result<Option<Vec<Demand>>, AllocError>
    requires { NoneFits (problem_of root.now documents.now) [] }
    ensures culprits { IfOk result (λ found. IfSome found (λ demands. AreCulprits (problem_of root.now documents.now) demands.items)) }
{
    let few = too_many(alloc, root, documents, steps)?;
    least_of(alloc, &few, documents, steps)
}

/// Returns demands of the root that cannot be met together: those from which the search found that nothing fits.
fn too_many(
    alloc: Global,
    root: &[Demand],
    documents: &Documents,
    steps: u64,
) -> Result<Vec<Demand>, AllocError>
    requires { NoneFits (problem_of root.now documents.now) [] }
    ensures { IfOk result (λ demands. AreTooMany (problem_of root.now documents.now) demands.items) }
{
    let mut kept = Vec::from_slice(alloc, root)?;
    for _ in root {
        let fewer = asked_of(alloc, &kept, documents, steps)?;
        if kept.len() <= fewer.len() {
            break;
        }
        match can_be_met(alloc, &fewer, documents, steps)? {
            Some(false) => kept = fewer,
            Some(true) | None => break,
        }
    }
    Ok(kept)
}

/// Returns the demands of a root from which the search finds that nothing fits.
fn asked_of(
    alloc: Global,
    root: &[Demand],
    documents: &Documents,
    steps: u64,
) -> Result<Vec<Demand>, AllocError>
    ensures { IfOk result (λ demands. All (Contains root.now) demands.items) }
{
    let told = any_of(alloc, root, documents, steps)?;
    let mut demands = Vec::new(alloc);
    if let Some(last) = told.lessons.last() {
        for (place, demand) in root.iter().enumerate() {
            if is_asked(&last.steps, place) {
                demands.push(*demand)?;
            }
        }
    }
    Ok(demands)
}

/// Returns `true` if a step is that of the demand at a place.
fn is_asked(steps: &[Step], place: usize) -> bool {
    for step in steps {
        if let Step::Ask(other) = step {
            if *other == place {
                return true;
            }
        }
    }
    false
}

/// Returns the culprits of demands that cannot be met together.
fn least_of(
    alloc: Global,
    root: &[Demand],
    documents: &Documents,
    steps: u64,
) -> Result<Option<Vec<Demand>>, AllocError>
    requires { NoneFits (problem_of root.now documents.now) [] }
    ensures culprits { IfOk result (λ found. IfSome found (λ demands. AreCulprits (problem_of root.now documents.now) demands.items)) }
{
    let mut kept = Vec::new(alloc);
    for at in (0..root.len()).rev() {
        if !keep_if_missed(alloc, root, documents, steps, at, &mut kept)? {
            return Ok(None);
        }
    }
    kept.reverse();
    Ok(Some(kept))
}

/// Keeps a demand if the demands before it, with those that are kept, can be met without it. Returns `false` if that is undecided.
fn keep_if_missed(
    alloc: Global,
    root: &[Demand],
    documents: &Documents,
    steps: u64,
    at: usize,
    kept: &mut Vec<Demand>,
) -> Result<bool, AllocError>
    requires at { at < length root.now }
    requires missed { AreMissed (problem_of root.now documents.now) (at + 1) kept.old.items }
    ensures missed { IfOk result (λ is_decided. is_decided ≡ true → AreMissed (problem_of root.now documents.now) at kept.new.items) }
{
    let others = joined(alloc, &root[..at], kept)?;
    match can_be_met(alloc, &others, documents, steps)? {
        Some(true) => {
            kept.push(root[at])?;
            Ok(true)
        }
        Some(false) => Ok(true),
        None => Ok(false),
    }
}

/// Returns the first demands, and then the others in reverse.
fn joined(alloc: Global, first: &[Demand], others: &[Demand]) -> Result<Vec<Demand>, AllocError>
    ensures { IfOk result (λ demands. demands.items ≡ first.now ++ reverse others.now) }
{
    let mut demands = Vec::from_slice(alloc, first)?;
    let mut rest = Vec::from_slice(alloc, others)?;
    rest.reverse();
    demands.extend_from_slice(&rest)?;
    Ok(demands)
}
