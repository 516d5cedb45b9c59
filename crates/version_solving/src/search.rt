//! The answer, which is checked.
ghost use Rattle.std.specs.Prelude.{[], IfOk};
ghost use Rattle.version_solving.specs.Documents.{problem_of};
ghost use Rattle.version_solving.specs.Outcomes.{IfNoSelection, IfSelected};
ghost use Rattle.version_solving.specs.Solving.{IsTheSelection, NoneFits};

use crate::certificate::{Claim, Lesson, Move};
use crate::lessons::{are_lessons, is_refuted};
use crate::replay::replayed;
use crate::told::{Told, claim_of};
use crate::{Demand, Documents, Outcome, Result};
use std::alloc::Global;

/// Returns the selection that fits, with the best candidates first, or that none fits.
///
/// Names are chosen in the order in which they are first needed. Each choice is the first candidate with which a selection that
/// fits exists, the earlier choices kept.
///
/// What the search finds is checked. If a check failed, the answer would be that neither is known.
pub fn solve(alloc: Global, root: &[Demand], documents: &Documents, steps: u64) -> Result<Outcome>
    ensures selection { IfOk result (λ outcome. IfSelected outcome (IsTheSelection (problem_of root.now documents.now))) }
    ensures none { IfOk result (λ outcome. IfNoSelection outcome (NoneFits (problem_of root.now documents.now) [])) }
{
    let Told { claim, lessons } = claim_of(alloc, root, documents, steps)?;
    match claim {
        Claim::Selected(moves) => selected(alloc, root, documents, &lessons, &moves),
        Claim::NoSelection => refuted(alloc, root, documents, &lessons),
        Claim::Fitting(_) | Claim::Undecided => Ok(Outcome::Undecided),
    }
}

/// The selection, if the moves make it.
fn selected(
    alloc: Global,
    root: &[Demand],
    documents: &Documents,
    lessons: &[Lesson],
    moves: &[Move],
) -> Result<Outcome>
    ensures selection { IfOk result (λ outcome. IfSelected outcome (IsTheSelection (problem_of root.now documents.now))) }
    ensures none { IfOk result (λ outcome. IfNoSelection outcome (NoneFits (problem_of root.now documents.now) [])) }
{
    if !are_lessons(alloc, root, documents, lessons)? {
        return Ok(Outcome::Undecided);
    }
    match replayed(alloc, root, documents, lessons, moves)? {
        Some(choices) => Ok(Outcome::Selected(choices)),
        None => Ok(Outcome::Undecided),
    }
}

/// That nothing fits, if the lessons say so.
pub(crate) fn refuted(
    alloc: Global,
    root: &[Demand],
    documents: &Documents,
    lessons: &[Lesson],
) -> Result<Outcome>
    ensures selection { IfOk result (λ outcome. IfSelected outcome (IsTheSelection (problem_of root.now documents.now))) }
    ensures none { IfOk result (λ outcome. IfNoSelection outcome (NoneFits (problem_of root.now documents.now) [])) }
{
    if is_refuted(alloc, root, documents, lessons)? {
        Ok(Outcome::NoSelection)
    } else {
        Ok(Outcome::Undecided)
    }
}
