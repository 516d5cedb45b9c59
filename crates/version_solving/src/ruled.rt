//! What is ruled out, a step at a time.
ghost use Rattle.std.specs.Prelude.{◌≡◌, ◌<◌, ℕ, [], Contains, IfOk, IfSome, IsTrue, None, OnOk, Option, Some, false, true};
ghost use Rattle.version_solving.specs.Documents.{problem_of};
ghost use Rattle.version_solving.specs.Solving.{Fits, Selection};
ghost use Rattle.version_solving.specs.Private.Values.{AreLessons, IsExcluded, IsMet, IsReady, Spares, has, is_out, name_of};

use crate::certificate::{Lesson, Step, Term, Values};
use crate::excluded::name_of;
use crate::{Choice, Demand, Documents, Result};
use std::alloc::Global;

/// For each name with a package the values that are ruled out.
#[derive(Drop)]
pub struct Ruled {
    pub rows: Vec<Values>,
}

impl Ruled {
    /// Rules nothing out.
    pub fn new(alloc: Global, documents: &Documents) -> Result<Ruled>
        ensures { IfOk result (λ ruled. (s : Selection) → Spares ruled.rows.items s) }
    {
        let mut rows = Vec::with_capacity(alloc, documents.packages.len())?;
        for _ in &documents.packages {
            rows.push(Values {
                none: false,
                candidates: Vec::new(alloc),
            })?;
        }
        Ok(Ruled { rows })
    }

    /// Returns `true` if a value of a name is ruled out.
    pub fn is_out(&self, name: usize, value: Option<usize>) -> bool
        ensures { result ≡ is_out self.now.rows.items name value }
    {
        match self.rows.get(name) {
            Some(row) => row.has(value),
            None => false,
        }
    }

    /// Replaces what is ruled out of a name.
    fn put(&mut self, name: usize, row: Values)
        ensures { (s : Selection) → Spares self.old.rows.items s → has row (s name) ≡ false → Spares self.new.rows.items s }
    {
        if name < self.rows.len() {
            self.rows[name] = row;
        }
    }
}

/// Returns `true` if a set has all values of a name.
fn is_full(documents: &Documents, name: usize, set: &Values) -> bool
    ensures { IsTrue result → (s : Selection) → Fits (problem_of [] documents.now) s → has set.now (s name) ≡ true }
{
    if !set.none {
        return false;
    }
    for candidate in 0..documents.count(name) {
        if !set.has(Some(candidate)) {
            return false;
        }
    }
    true
}

// ---- a step

impl Ruled {
    /// Returns `true` if a value of the name of a step is ruled out after it.
    fn is_out_after(
        &self,
        root: &[Demand],
        documents: &Documents,
        lessons: &[Lesson],
        step: Step,
        value: Option<usize>,
    ) -> bool
        requires lessons { AreLessons (problem_of root.now documents.now) lessons.now }
        requires ready { IsReady (problem_of [] documents.now) self.now.rows.items lessons.now step }
        ensures { IsTrue result → IsExcluded (problem_of root.now documents.now) self.now.rows.items (name_of root.now step) value }
    {
        let name = name_of(root, step);
        self.is_out(name, value) || self.excludes(root, documents, lessons, step, value)
    }

    /// What is ruled out of the name of a step after it.
    fn row_after(
        &self,
        alloc: Global,
        root: &[Demand],
        documents: &Documents,
        lessons: &[Lesson],
        step: Step,
    ) -> Result<Values>
        requires lessons { AreLessons (problem_of root.now documents.now) lessons.now }
        requires ready { IsReady (problem_of [] documents.now) self.now.rows.items lessons.now step }
        ensures { IfOk result (λ row. (s : Selection) → Fits (problem_of root.now documents.now) s → Spares self.now.rows.items s → has row (s (name_of root.now step)) ≡ false) }
    {
        let name = name_of(root, step);
        let count = documents.count(name);
        let mut candidates = Vec::with_capacity(alloc, count)?;
        for candidate in 0..count {
            let value = Some(candidate);
            candidates.push(self.is_out_after(root, documents, lessons, step, value))?;
        }
        let none = self.is_out_after(root, documents, lessons, step, None);
        Ok(Values { none, candidates })
    }

    /// Makes a step. Returns `true` if then nothing is left of its name.
    pub fn apply(
        &mut self,
        alloc: Global,
        root: &[Demand],
        documents: &Documents,
        lessons: &[Lesson],
        step: Step,
    ) -> Result<bool>
        requires { AreLessons (problem_of root.now documents.now) lessons.now }
        ensures keeps { OnOk result ((s : Selection) → Fits (problem_of root.now documents.now) s → Spares self.old.rows.items s → Spares self.new.rows.items s) }
        ensures over { IfOk result (λ is_over. is_over ≡ true → (s : Selection) → Fits (problem_of root.now documents.now) s → Spares self.old.rows.items s → ⊥) }
    {
        if !self.is_ready(documents, lessons, step) {
            return Ok(false);
        }
        let row = self.row_after(alloc, root, documents, lessons, step)?;
        let name = name_of(root, step);
        let is_over = is_full(documents, name, &row);
        self.put(name, row);
        Ok(is_over)
    }

    /// Makes steps until nothing is left of a name. Returns `true` if that is so.
    pub fn apply_all(
        &mut self,
        alloc: Global,
        root: &[Demand],
        documents: &Documents,
        lessons: &[Lesson],
        steps: &[Step],
    ) -> Result<bool>
        requires { AreLessons (problem_of root.now documents.now) lessons.now }
        ensures { IfOk result (λ is_over. is_over ≡ true → (s : Selection) → Fits (problem_of root.now documents.now) s → Spares self.old.rows.items s → ⊥) }
    {
        for step in steps {
            if self.apply(alloc, root, documents, lessons, *step)? {
                return Ok(true);
            }
        }
        Ok(false)
    }

    /// Rules out all values of the name of a term that the term does not have.
    pub fn suppose(&mut self, alloc: Global, term: &Term) -> Result<()>
        ensures { OnOk result ((s : Selection) → IsMet s term.now → Spares self.old.rows.items s → Spares self.new.rows.items s) }
    {
        let mut candidates = Vec::with_capacity(alloc, term.values.candidates.len())?;
        for is_there in &term.values.candidates {
            candidates.push(!*is_there)?;
        }
        self.put(
            term.name,
            Values {
                none: !term.values.none,
                candidates,
            },
        );
        Ok(())
    }
}

// ---- a choice

impl Ruled {
    /// Rules out all other values of the name of a choice.
    pub fn keep(&mut self, alloc: Global, documents: &Documents, choice: Choice) -> Result<()>
        ensures { OnOk result ((s : Selection) → s choice.name ≡ Some choice.candidate → Spares self.old.rows.items s → Spares self.new.rows.items s) }
    {
        let count = documents.count(choice.name);
        let mut candidates = Vec::with_capacity(alloc, count)?;
        for candidate in 0..count {
            candidates.push(candidate != choice.candidate)?;
        }
        self.put(
            choice.name,
            Values {
                none: true,
                candidates,
            },
        );
        Ok(())
    }
}
