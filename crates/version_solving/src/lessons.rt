//! Whether lessons are true.
ghost use Rattle.std.specs.Prelude.{◌≡◌, ◌-◌, [], All, IfOk, IsSomeAnd, IsTrue, length, slice_get, true};
ghost use Rattle.version_solving.specs.Documents.{problem_of};
ghost use Rattle.version_solving.specs.Solving.{NoneFits, Selection};
ghost use Rattle.version_solving.specs.Private.Values.{AreForbidden, AreLessons, IsMet, Spares};

use crate::certificate::{Lesson, Term};
use crate::ruled::Ruled;
use crate::{Demand, Documents, Result};
use std::alloc::Global;

/// What is ruled out where the terms are met.
fn supposed(alloc: Global, documents: &Documents, terms: &[Term]) -> Result<Ruled>
    ensures { IfOk result (λ ruled. (s : Selection) → All (IsMet s) terms.now → Spares ruled.rows.items s) }
{
    let mut ruled = Ruled::new(alloc, documents)?;
    for term in terms {
        ruled.suppose(alloc, term)?;
    }
    Ok(ruled)
}

/// Returns `true` if the steps of a lesson say that its terms are never met together.
fn is_lesson(
    alloc: Global,
    root: &[Demand],
    documents: &Documents,
    above: &[Lesson],
    lesson: &Lesson,
) -> Result<bool>
    requires { AreLessons (problem_of root.now documents.now) above.now }
    ensures { IfOk result (λ is. is ≡ true → AreForbidden (problem_of root.now documents.now) lesson.now.terms.items) }
{
    let mut ruled = supposed(alloc, documents, &lesson.terms)?;
    ruled.apply_all(alloc, root, documents, above, &lesson.steps)
}

/// Returns `true` if each lesson follows from those above it.
pub fn are_lessons(
    alloc: Global,
    root: &[Demand],
    documents: &Documents,
    lessons: &[Lesson],
) -> Result<bool>
    ensures { IfOk result (λ are. are ≡ true → AreLessons (problem_of root.now documents.now) lessons.now) }
{
    for place in 0..lessons.len() {
        if !is_lesson(alloc, root, documents, &lessons[..place], &lessons[place])? {
            return Ok(false);
        }
    }
    Ok(true)
}

/// Returns `true` if the last lesson has no terms.
fn is_last_empty(lessons: &[Lesson]) -> bool
    ensures { IsTrue result → IsSomeAnd (slice_get lessons.now (length lessons.now - 1)) (λ lesson. lesson.terms.items ≡ []) }
{
    match lessons.last() {
        Some(lesson) => lesson.terms.is_empty(),
        None => false,
    }
}

/// Returns `true` if lessons say that nothing fits.
pub fn is_refuted(
    alloc: Global,
    root: &[Demand],
    documents: &Documents,
    lessons: &[Lesson],
) -> Result<bool>
    ensures { IfOk result (λ is. is ≡ true → NoneFits (problem_of root.now documents.now) []) }
{
    if !is_last_empty(lessons) {
        return Ok(false);
    }
    are_lessons(alloc, root, documents, lessons)
}
