//! A path: the steps that lead to a value, from the outermost one inwards.
ghost use Rattle.std.specs.Prelude.{◌≡◌, IfOk, map, true};
ghost use Rattle.json_places.specs.Steps.{member_steps, step_value, steps_seen};

use std::alloc::{AllocError, Global};
use std::cmp::Ordering;

/// A step from a value to one inside it.
#[derive(Clone, Copy, Debug, PartialEq, Eq, PartialOrd, Ord, Drop)]
pub enum Step<'a> {
    /// To the member of this name, of an object.
    Member(&'a str),
    /// To the item at this position of a list, counted from 0.
    Item(usize),
}

/// The steps that lead to a value, from the outermost one inwards: the members `packages` and `node_modules/a` lead to the member
/// `node_modules/a` of the object `packages`. Paths are ordered by their steps, first by the first one: members come before items,
/// members are ordered by the bytes of their names, and items by their positions.
#[derive(Debug, PartialEq, Eq, PartialOrd, Ord, Drop)]
pub struct Path<'a> {
    pub steps: Vec<Step<'a>>,
    /// Which of the caller's subjects the path is for.
    pub subject: usize,
    /// Of the paths of a subject, those with a lower rank are preferred.
    pub rank: usize,
}

impl<'a> Path<'a> {
    /// Returns the path of members with these names.
    ///
    /// # Errors
    ///
    /// An allocation failed.
    pub fn of_members(
        alloc: Global,
        names: &[&'a str],
        subject: usize,
        rank: usize,
    ) -> Result<Path<'a>, AllocError>
        ensures steps { IfOk result (λ path. steps_seen path.steps.items ≡ member_steps (map (λ name. name.now) names.now)) }
        ensures subject { IfOk result (λ path. path.subject ≡ subject) }
        ensures rank { IfOk result (λ path. path.rank ≡ rank) }
    {
        let steps = member_steps(alloc, names)?;
        Ok(Path {
            steps,
            subject,
            rank,
        })
    }
}

/// The steps to members with these names.
fn member_steps<'a>(alloc: Global, names: &[&'a str]) -> Result<Vec<Step<'a>>, AllocError>
    ensures { IfOk result (λ steps. steps_seen steps.items ≡ member_steps (map (λ name. name.now) names.now)) }
{
    let mut steps = Vec::new(alloc);
    for name in names {
        steps.push(Step::Member(*name))?;
    }
    Ok(steps)
}

/// How the step at this depth of a path compares with a step. A path that ends before is less.
pub(crate) fn compared(path: &Path<'_>, depth: usize, step: Step<'_>) -> Ordering {
    match path.steps.get(depth) {
        Some(own) => own.cmp(&step),
        None => Ordering::Less,
    }
}

/// Whether the two steps are the same. A member and an item never are.
pub(crate) fn is_same_step(one: Step<'_>, other: Step<'_>) -> bool
    ensures { result ≡ true → step_value one.entry ≡ step_value other.entry }
{
    match (one, other) {
        (Step::Member(one), Step::Member(other)) => one == other,
        (Step::Item(one), Step::Item(other)) => one == other,
        _ => false,
    }
}
