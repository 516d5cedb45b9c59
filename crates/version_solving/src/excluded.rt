//! What a step rules out.
ghost use Rattle.std.specs.Prelude.{◌≡◌, ◌<◌, ℕ, List, [], All, IfSome, IsTrue, None, Some, true};
ghost use Rattle.version_solving.specs.Documents.{problem_of};
ghost use Rattle.version_solving.specs.Solving.{Fits, Selection};
ghost use Rattle.version_solving.specs.declared.certificate.Term.{Term};
ghost use Rattle.version_solving.specs.declared.certificate.Values.{Values};
ghost use Rattle.version_solving.specs.Private.Values.{AreLessons, AreOthersMet, IsExcluded, IsGone, IsHeld, IsMet, IsReady, IsSilent, Spares, has, is_out, name_of};

use crate::certificate::{Lesson, Step, Term};
use crate::ruled::Ruled;
use crate::values::{against, is_barred, is_hopeless};
use crate::{Demand, Documents};

impl Ruled {
    /// Returns `true` if a candidate is ruled out, or does not allow a value of another name.
    fn is_out_or_bars(
        &self,
        documents: &Documents,
        asker: usize,
        candidate: usize,
        name: usize,
        value: Option<usize>,
    ) -> bool
        ensures { IsTrue result → IsSilent (problem_of [] documents.now) self.now.rows.items asker candidate name value }
    {
        self.is_out(asker, Some(candidate))
            || is_barred(documents, documents.demands(asker, candidate), name, value)
    }

    /// Returns `true` if a value of a name is ruled out, or demands do not allow it.
    fn is_gone(
        &self,
        documents: &Documents,
        demands: &[Demand],
        name: usize,
        value: Option<usize>,
    ) -> bool
        ensures { IsTrue result → IsGone (problem_of [] documents.now) self.now.rows.items demands.now name value }
    {
        self.is_out(name, value) || is_barred(documents, demands, name, value)
    }

    /// Returns `true` if a value is ruled out of the name of a term, or the term has it.
    fn is_out_or_in(&self, term: &Term, value: Option<usize>) -> bool
        ensures { IsTrue result → IsHeld self.now.rows.items term.now value }
    {
        self.is_out(term.name, value) || term.values.has(value)
    }

    /// Returns `true` if an asker is needed, and none of its candidates that is left allows a value of a name.
    fn excludes_forward(
        &self,
        documents: &Documents,
        asker: usize,
        name: usize,
        value: Option<usize>,
    ) -> bool
        ensures { IsTrue result → IsExcluded (problem_of [] documents.now) self.now.rows.items name value }
    {
        if !self.is_out(asker, None) {
            return false;
        }
        for candidate in 0..documents.count(asker) {
            if !self.is_out_or_bars(documents, asker, candidate, name, value) {
                return false;
            }
        }
        true
    }

    /// Returns `true` if a candidate allows nothing that is left of another name.
    fn excludes_backward(
        &self,
        documents: &Documents,
        asker: usize,
        candidate: usize,
        name: usize,
    ) -> bool
        ensures { IsTrue result → IsExcluded (problem_of [] documents.now) self.now.rows.items asker (Some candidate) }
    {
        let demands = documents.demands(asker, candidate);
        if !self.is_gone(documents, demands, name, None) {
            return false;
        }
        for value in 0..documents.count(name) {
            if !self.is_gone(documents, demands, name, Some(value)) {
                return false;
            }
        }
        true
    }
}

/// Returns `true` if a candidate demands what cannot hold together with it.
fn excludes_own(documents: &Documents, name: usize, candidate: usize) -> bool
    ensures { IsTrue result → (rows : List Values) → IsExcluded (problem_of [] documents.now) rows name (Some candidate) }
{
    for demand in documents.demands(name, candidate) {
        if is_hopeless(documents, name, candidate, *demand) {
            return true;
        }
    }
    false
}

/// Returns `true` if all terms of a name have a value.
fn have_value(terms: &[Term], name: usize, value: Option<usize>) -> bool
    ensures { IsTrue result → All (λ (t : Term). t.name ≡ name → has t.values value ≡ true) terms.now }
{
    for term in terms {
        if term.name == name && !term.values.has(value) {
            return false;
        }
    }
    true
}

impl Ruled {
    /// Returns `true` if a term has all that is left of its name.
    fn is_held(&self, documents: &Documents, term: &Term) -> bool
        ensures { IsTrue result → (s : Selection) → Fits (problem_of [] documents.now) s → Spares self.now.rows.items s → IsMet s term.now }
    {
        if !self.is_out_or_in(term, None) {
            return false;
        }
        for candidate in 0..documents.count(term.name) {
            if !self.is_out_or_in(term, Some(candidate)) {
                return false;
            }
        }
        true
    }

    /// Returns `true` if the terms of all other names have all that is left of their names.
    fn are_others_held(&self, documents: &Documents, terms: &[Term], name: usize) -> bool
        ensures { IsTrue result → AreOthersMet (problem_of [] documents.now) self.now.rows.items name terms.now }
    {
        for term in terms {
            if term.name != name && !self.is_held(documents, term) {
                return false;
            }
        }
        true
    }

    /// Returns `true` if a step may be made.
    pub fn is_ready(&self, documents: &Documents, lessons: &[Lesson], step: Step) -> bool
        ensures { IsTrue result → IsReady (problem_of [] documents.now) self.now.rows.items lessons.now step }
    {
        let Step::Learnt(number, name) = step else {
            return true;
        };
        match lessons.get(number) {
            Some(lesson) => self.are_others_held(documents, &lesson.terms, name),
            None => false,
        }
    }

    /// Returns `true` if a step rules out a value of its name.
    pub fn excludes(
        &self,
        root: &[Demand],
        documents: &Documents,
        lessons: &[Lesson],
        step: Step,
        value: Option<usize>,
    ) -> bool
        requires lessons { AreLessons (problem_of root.now documents.now) lessons.now }
        requires ready { IsReady (problem_of [] documents.now) self.now.rows.items lessons.now step }
        ensures { IsTrue result → IsExcluded (problem_of root.now documents.now) self.now.rows.items (name_of root.now step) value }
    {
        match step {
            Step::Ask(place) => match root.get(place) {
                Some(demand) => against(documents, *demand, value),
                None => false,
            },
            Step::Own(name) => match value {
                Some(candidate) => excludes_own(documents, name, candidate),
                None => false,
            },
            Step::Forward(asker, name) => self.excludes_forward(documents, asker, name, value),
            Step::Backward(name, asked) => match value {
                Some(candidate) => self.excludes_backward(documents, name, candidate, asked),
                None => false,
            },
            Step::Learnt(number, name) => match lessons.get(number) {
                Some(lesson) => have_value(&lesson.terms, name, value),
                None => false,
            },
        }
    }
}

/// The name whose values a step rules out.
pub fn name_of(root: &[Demand], step: Step) -> usize
    ensures { result ≡ name_of root.now step }
{
    match step {
        Step::Ask(place) => match root.get(place) {
            Some(demand) => demand.name,
            None => 0,
        },
        Step::Own(name) => name,
        Step::Forward(_, name) => name,
        Step::Backward(name, _) => name,
        Step::Learnt(_, name) => name,
    }
}
