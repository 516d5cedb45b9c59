//! The demands that lessons rest on.
ghost use Rattle.version_solving.specs.Documents.{problem_of};
ghost use Rattle.version_solving.specs.Private.Values.{AreLessons};

use crate::certificate::{Lesson, Step};
use crate::excluded::name_of;
use crate::lessons::are_lessons;
use crate::ruled::Ruled;
use crate::values::is_hopeless;
use crate::{Demand, Documents, Result};
use std::alloc::Global;

/// A candidate of a name, and another name of which something is said.
#[derive(Clone, Copy, PartialEq, Eq, Drop)]
pub struct Said {
    pub candidate: usize,
    pub asked: usize,
}

/// For each name the demands of its candidates that are used.
#[derive(Drop)]
pub struct Used {
    pub by_name: Vec<Vec<Said>>,
}

impl Used {
    fn new(alloc: Global, documents: &Documents) -> Result<Used> {
        let mut by_name = Vec::with_capacity(alloc, documents.packages.len())?;
        for _ in &documents.packages {
            by_name.push(Vec::new(alloc))?;
        }
        Ok(Used { by_name })
    }

    /// Adds what a candidate of a name says, unless it is there.
    fn add(&mut self, name: usize, said: Said) -> Result<()> {
        if let Some(list) = self.by_name.get_mut(name) {
            if !list.contains(&said) {
                list.push(said)?;
            }
        }
        Ok(())
    }
}

/// Returns the demands that lessons rest on, or `None` if the lessons are not true.
pub fn used_of(
    alloc: Global,
    root: &[Demand],
    documents: &Documents,
    lessons: &[Lesson],
) -> Result<Option<Used>> {
    if !are_lessons(alloc, root, documents, lessons)? {
        return Ok(None);
    }
    let mut used = Used::new(alloc, documents)?;
    for lesson in lessons {
        add_lesson(alloc, root, documents, lessons, lesson, &mut used)?;
    }
    Ok(Some(used))
}

/// Adds the demands that a lesson rests on.
fn add_lesson(
    alloc: Global,
    root: &[Demand],
    documents: &Documents,
    lessons: &[Lesson],
    lesson: &Lesson,
    used: &mut Used,
) -> Result<()>
    requires { AreLessons (problem_of root.now documents.now) lessons.now }
{
    let mut ruled = Ruled::new(alloc, documents)?;
    for term in &lesson.terms {
        ruled.suppose(alloc, term)?;
    }
    for step in &lesson.steps {
        add_askers(documents, &ruled, *step, used)?;
        let name = name_of(root, *step);
        let open = open_of(alloc, documents, &ruled, name)?;
        let is_over = ruled.apply(alloc, root, documents, lessons, *step)?;
        add_ruled_out(documents, &ruled, *step, &open, used)?;
        if is_over {
            break;
        }
    }
    Ok(())
}

/// The candidates of a name that are not ruled out.
fn open_of(alloc: Global, documents: &Documents, ruled: &Ruled, name: usize) -> Result<Vec<usize>> {
    let mut open = Vec::new(alloc);
    for candidate in 0..documents.count(name) {
        if !ruled.is_out(name, Some(candidate)) {
            open.push(candidate)?;
        }
    }
    Ok(open)
}

/// Adds what the candidates that are left say, if a step rests on it.
fn add_askers(documents: &Documents, ruled: &Ruled, step: Step, used: &mut Used) -> Result<()> {
    if let Step::Forward(asker, asked) = step {
        for candidate in 0..documents.count(asker) {
            if !ruled.is_out(asker, Some(candidate)) {
                used.add(asker, Said { candidate, asked })?;
            }
        }
    }
    Ok(())
}

/// Adds what the candidates say that a step rules out for that.
fn add_ruled_out(
    documents: &Documents,
    ruled: &Ruled,
    step: Step,
    open: &[usize],
    used: &mut Used,
) -> Result<()> {
    for candidate in open {
        let candidate = *candidate;
        match step {
            Step::Own(name) if ruled.is_out(name, Some(candidate)) => {
                add_own(documents, name, candidate, used)?;
            }
            Step::Backward(name, asked) if ruled.is_out(name, Some(candidate)) => {
                used.add(name, Said { candidate, asked })?;
            }
            _ => {}
        }
    }
    Ok(())
}

/// Adds what a candidate demands that cannot hold.
fn add_own(documents: &Documents, name: usize, candidate: usize, used: &mut Used) -> Result<()> {
    for demand in documents.demands(name, candidate) {
        if is_hopeless(documents, name, candidate, *demand) {
            let asked = demand.name;
            used.add(name, Said { candidate, asked })?;
        }
    }
    Ok(())
}
