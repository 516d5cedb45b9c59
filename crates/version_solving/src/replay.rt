//! Whether choices are the selection.
ghost use Rattle.std.specs.Prelude.{◌≡◌, ◌==◌, ◌<◌, ◌++◌, ◌∷◌, if◌then◌else◌, ℕ, [], All, IfOk, IfSome, IsTrue, OnOk, Some, reverse, true};
ghost use Rattle.version_solving.specs.Documents.{problem_of};
ghost use Rattle.version_solving.specs.Solving.{IsTheSelection, next_name};
ghost use Rattle.version_solving.specs.Private.Values.{AreLessons, is_out};
ghost use Rattle.version_solving.specs.Private.Paths.{Allows, AreRuled, IsNext, IsPath, in_table, made};

use crate::agenda::{first_open, first_violated};
use crate::certificate::{Lesson, Move};
use crate::ruled::Ruled;
use crate::{Choice, Demand, Documents, Result};
use std::alloc::Global;

/// The choices so far, for each name the candidate that is chosen, and the demands of the root and of the choices.
#[derive(Drop)]
pub struct Path {
    pub choices: Vec<Choice>,
    pub table: Vec<Option<usize>>,
    pub demands: Vec<Demand>,
    /// The demands before this place need no further name.
    pub from: usize,
}

impl Path {
    fn new(alloc: Global, root: &[Demand], documents: &Documents) -> Result<Path>
        ensures path { IfOk result (IsPath (problem_of root.now documents.now)) }
        ensures choices { IfOk result (λ path. path.choices.items ≡ []) }
    {
        Ok(Path {
            choices: Vec::new(alloc),
            table: Vec::new(alloc),
            demands: Vec::from_slice(alloc, root)?,
            from: 0,
        })
    }

    /// Returns the name that is chosen next, if one is.
    fn next(&mut self, root: &[Demand], documents: &Documents) -> Option<usize>
        requires { IsPath (problem_of root.now documents.now) self.old }
        ensures path { IsPath (problem_of root.now documents.now) self.new }
        ensures choices { self.new.choices.items ≡ self.old.choices.items }
        ensures name { result ≡ next_name (problem_of root.now documents.now) (made self.old) }
    {
        let found = first_open(&self.demands, &self.table, self.from)?;
        self.from = found.place;
        Some(found.name)
    }

    /// Adds a choice.
    fn push(&mut self, root: &[Demand], documents: &Documents, choice: Choice) -> Result<()>
        requires path { IsPath (problem_of root.now documents.now) self.old }
        requires next { IsNext (problem_of root.now documents.now) (made self.old) choice }
        ensures path { OnOk result (IsPath (problem_of root.now documents.now) self.new) }
        ensures choices { OnOk result (self.new.choices.items ≡ self.old.choices.items ++ choice ∷ []) }
    {
        self.choices.push(choice)?;
        let demands = documents.demands(choice.name, choice.candidate);
        self.demands.extend_from_slice(demands)?;
        note(&mut self.table, choice)
    }

    /// Returns `true` if each demand allows what is chosen.
    fn is_allowed(&self, documents: &Documents) -> bool
        ensures { IsTrue result → All (Allows (problem_of [] documents.now) (in_table self.now.table.items)) self.now.demands.items }
    {
        first_violated(documents, &self.demands, &self.table).is_none()
    }
}

/// Adds a choice to a table.
fn note(table: &mut Vec<Option<usize>>, choice: Choice) -> Result<()>
    ensures { OnOk result ((name : ℕ) → in_table table.new.items name ≡ (if choice.name == name then Some choice.candidate else in_table table.old.items name)) }
{
    while table.len() <= choice.name {
        table.push(None)?;
    }
    table[choice.name] = Some(choice.candidate);
    Ok(())
}

/// Returns `true` if a choice is there, and each better candidate is ruled out.
fn is_best(documents: &Documents, ruled: &Ruled, choice: Choice) -> bool
    ensures there { IsTrue result → choice.candidate < (problem_of [] documents.now).count choice.name }
    ensures first { IsTrue result → (better : ℕ) → better < choice.candidate → is_out ruled.now.rows.items choice.name (Some better) ≡ true }
{
    for candidate in 0..choice.candidate {
        if !ruled.is_out(choice.name, Some(candidate)) {
            return false;
        }
    }
    choice.candidate < documents.count(choice.name)
}

/// Makes a choice. Returns `false` if it is not the next one.
fn choose(
    alloc: Global,
    root: &[Demand],
    documents: &Documents,
    path: &mut Path,
    ruled: &mut Ruled,
    choice: Choice,
) -> Result<bool>
    requires path { IsPath (problem_of root.now documents.now) path.old }
    requires ruled { AreRuled (problem_of root.now documents.now) (made path.old) ruled.old.rows.items }
    ensures path { IfOk result (λ is. is ≡ true → IsPath (problem_of root.now documents.now) path.new) }
    ensures ruled { IfOk result (λ is. is ≡ true → AreRuled (problem_of root.now documents.now) (made path.new) ruled.new.rows.items) }
{
    let Some(next) = path.next(root, documents) else {
        return Ok(false);
    };
    if next != choice.name || !is_best(documents, ruled, choice) {
        return Ok(false);
    }
    path.push(root, documents, choice)?;
    ruled.keep(alloc, documents, choice)?;
    Ok(true)
}

/// Makes the moves, and returns the choices if they are the selection.
pub fn replayed(
    alloc: Global,
    root: &[Demand],
    documents: &Documents,
    lessons: &[Lesson],
    moves: &[Move],
) -> Result<Option<Vec<Choice>>>
    requires { AreLessons (problem_of root.now documents.now) lessons.now }
    ensures { IfOk result (λ found. IfSome found (λ choices. IsTheSelection (problem_of root.now documents.now) (reverse choices.items))) }
{
    let mut path = Path::new(alloc, root, documents)?;
    let mut ruled = Ruled::new(alloc, documents)?;
    for one in moves {
        match one {
            Move::Step(step) => {
                let _is_over = ruled.apply(alloc, root, documents, lessons, *step)?;
            }
            Move::Choose(choice) => {
                if !choose(alloc, root, documents, &mut path, &mut ruled, *choice)? {
                    return Ok(None);
                }
            }
        }
    }
    if path.next(root, documents).is_none() && path.is_allowed(documents) {
        Ok(Some(path.choices))
    } else {
        Ok(None)
    }
}
