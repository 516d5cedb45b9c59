//! The choices so far, and what ruled other candidates out.

use crate::reasoning::check::is_ruled_out;
use crate::reasoning::demands::{Entry, add_wanter, first_violated};
use crate::reasoning::known::Known;
use crate::reasoning::terms::name_of;
use crate::{Demand, Documents, Reason, Source, Term, Wish};
use std::alloc::{AllocError, Global};

/// A candidate of a name that is needed, and the lines that rule out the candidates before it.
#[derive(Drop)]
pub struct Try {
    pub name: usize,
    pub candidate: usize,
    pub wanter: Entry,
    pub lines: Vec<usize>,
}

/// The choices, for each name the candidate that is chosen, and the lines that are known.
#[derive(Drop)]
pub struct Path {
    pub tries: Vec<Try>,
    pub table: Vec<Option<usize>>,
    pub known: Known,
    /// For each name what it weighs: of the names that are needed the lightest is chosen.
    pub weights: Vec<usize>,
}

/// What a step found.
#[derive(Drop)]
pub enum Step {
    /// The candidate that is tried next.
    Next(Try),
    /// The choices fit.
    Fitting,
    /// The last line says that nothing fits.
    Refuted,
}

/// Adds a line, unless it is there.
fn add_line(lines: &mut Vec<usize>, line: usize) -> Result<(), AllocError> {
    if !lines.contains(&line) {
        lines.push(line)?;
    }
    Ok(())
}

/// Adds the terms of other names, unless they are there.
fn add_others(terms: &mut Vec<Term>, others: &[Term], name: usize) -> Result<(), AllocError> {
    for other in others {
        if name_of(*other) != name && !terms.contains(other) {
            terms.push(*other)?;
        }
    }
    Ok(())
}

impl Path {
    pub fn new(
        alloc: Global,
        documents: &Documents,
        weights: Vec<usize>,
    ) -> Result<Path, AllocError> {
        let mut table = Vec::new(alloc);
        for _ in &documents.packages {
            table.push(None)?;
        }
        Ok(Path {
            tries: Vec::new(alloc),
            table,
            known: Known::new(alloc, documents)?,
            weights,
        })
    }

    /// Returns the first candidate of a name that is needed, if one is: of the names that are needed the lightest, and of several the one
    /// that is needed first.
    pub fn next(&self, alloc: Global, root: &[Demand], documents: &Documents) -> Option<Try> {
        let mut wanter = None;
        add_wanter(&mut wanter, &self.weights, root, &self.table, None);
        for tried in &self.tries {
            let demands = documents.demands(tried.name, tried.candidate);
            add_wanter(
                &mut wanter,
                &self.weights,
                demands,
                &self.table,
                Some(tried.name),
            );
        }
        let wanter = wanter?;
        Some(Try {
            name: wanter.demand.name,
            candidate: 0,
            wanter,
            lines: Vec::new(alloc),
        })
    }

    /// Returns a demand of a name, or one that its candidate makes, that does not allow what is chosen.
    fn violated(&self, root: &[Demand], documents: &Documents, name: usize) -> Option<Entry> {
        if let Some(demand) = first_violated(documents, root, &self.table, Some(name)) {
            return Some(Entry {
                owner: None,
                demand,
            });
        }
        for tried in &self.tries {
            let demands = documents.demands(tried.name, tried.candidate);
            let of_name = if tried.name == name { None } else { Some(name) };
            if let Some(demand) = first_violated(documents, demands, &self.table, of_name) {
                let owner = Some(tried.name);
                return Some(Entry { owner, demand });
            }
        }
        None
    }

    /// Returns a line that rules out the candidate that was chosen last.
    fn conflict(
        &mut self,
        alloc: Global,
        root: &[Demand],
        documents: &Documents,
        name: usize,
        candidate: usize,
    ) -> Result<Option<usize>, AllocError> {
        if let Some(line) = self
            .known
            .ruling_out(documents, &self.table, name, Some(candidate))
        {
            return Ok(Some(line));
        }
        match self.violated(root, documents, name) {
            Some(entry) => {
                let line = self.known.add_demand(alloc, documents, entry)?;
                Ok(Some(line))
            }
            None => Ok(None),
        }
    }

    /// Returns a line that rules out that no candidate of a name is chosen.
    fn need(
        &mut self,
        alloc: Global,
        documents: &Documents,
        wanter: Entry,
    ) -> Result<usize, AllocError> {
        let name = wanter.demand.name;
        if let Some(line) = self.known.ruling_out(documents, &self.table, name, None) {
            return Ok(line);
        }
        match wanter.owner {
            Some(owner) => {
                let wish = Wish {
                    name,
                    range: None,
                    needed: true,
                };
                self.known.add_wish(alloc, documents, owner, wish)
            }
            None => self.known.add_demand(alloc, documents, wanter),
        }
    }

    /// Chooses a candidate.
    fn push(&mut self, tried: Try) -> Result<(), AllocError> {
        if let Some(place) = self.table.get_mut(tried.name) {
            *place = Some(tried.candidate);
        }
        self.tries.push(tried)?;
        Ok(())
    }

    /// Takes the last choice back.
    fn pop(&mut self) -> Option<Try> {
        let last = self.tries.pop()?;
        if let Some(place) = self.table.get_mut(last.name) {
            *place = None;
        }
        Some(last)
    }

    /// Returns the terms of other names in lines.
    fn others(&self, alloc: Global, name: usize, lines: &[usize]) -> Result<Vec<Term>, AllocError> {
        let mut terms = Vec::new(alloc);
        for line in lines {
            if let Some(reason) = self.known.reasons.get(*line) {
                add_others(&mut terms, &reason.terms, name)?;
            }
        }
        Ok(terms)
    }

    /// Returns `true` if a line has a term of a name.
    fn has_name(&self, line: usize, name: usize) -> bool {
        match self.known.reasons.get(line) {
            Some(reason) => reason.terms.iter().any(|term| name_of(*term) == name),
            None => false,
        }
    }

    /// Takes choices back until one takes part in a line, and returns the candidate after it.
    fn step_back(&mut self, line: usize) -> Result<Step, AllocError> {
        for _ in 0..self.tries.len() {
            let Some(mut last) = self.pop() else {
                return Ok(Step::Refuted);
            };
            if self.has_name(line, last.name) {
                add_line(&mut last.lines, line)?;
                last.candidate = last.candidate.saturating_add(1);
                return Ok(Step::Next(last));
            }
        }
        Ok(Step::Refuted)
    }

    /// Adds what follows from the lines that rule out all candidates of a name, and steps back.
    fn give_up(
        &mut self,
        alloc: Global,
        documents: &Documents,
        tried: Try,
    ) -> Result<Step, AllocError> {
        let name = tried.name;
        let wanter = tried.wanter;
        let mut lines = tried.lines;
        if !is_ruled_out(documents, &self.known.reasons, name, &lines, None) {
            let line = self.need(alloc, documents, wanter)?;
            add_line(&mut lines, line)?;
        }
        let terms = self.others(alloc, name, &lines)?;
        let line = self
            .known
            .add(documents, Source::Lines(name, lines), terms)?;
        self.step_back(line)
    }

    /// Returns the lines that are known.
    pub fn into_reasons(self) -> Vec<Reason> {
        let known = self.known;
        known.reasons
    }

    /// Tries a candidate.
    pub fn step(
        &mut self,
        alloc: Global,
        root: &[Demand],
        documents: &Documents,
        tried: Try,
    ) -> Result<Step, AllocError> {
        let name = tried.name;
        let candidate = tried.candidate;
        if candidate >= documents.count(name) {
            return self.give_up(alloc, documents, tried);
        }
        self.push(tried)?;
        if let Some(line) = self.conflict(alloc, root, documents, name, candidate)? {
            return self.step_back(line);
        }
        match self.next(alloc, root, documents) {
            Some(next) => Ok(Step::Next(next)),
            None => Ok(Step::Fitting),
        }
    }
}
