//! The lines that are known so far.

use crate::reasoning::check::wish_of;
use crate::reasoning::demands::{Entry, chosen};
use crate::reasoning::terms::{is_of, name_of};
use crate::{Documents, Reason, Source, Term, Wish};
use std::alloc::{AllocError, Global};

/// Lines, and for each name the numbers of those with a term of it. Names without a package share the last place.
#[derive(Drop)]
pub struct Known {
    pub reasons: Vec<Reason>,
    pub places: Vec<Vec<usize>>,
}

/// Returns the place of a name.
fn place_of(documents: &Documents, name: usize) -> usize {
    name.min(documents.packages.len())
}

/// Returns `true` if what is chosen is of a term. Of the name that is looked at, another selection counts.
fn is_met(
    documents: &Documents,
    table: &[Option<usize>],
    term: Term,
    name: usize,
    selected: Option<usize>,
) -> bool {
    if name_of(term) == name {
        return is_of(documents, term, selected);
    }
    match chosen(table, name_of(term)) {
        Some(candidate) => is_of(documents, term, Some(candidate)),
        None => false,
    }
}

/// Returns `true` if what is chosen is of all terms.
fn are_met(
    documents: &Documents,
    table: &[Option<usize>],
    terms: &[Term],
    name: usize,
    selected: Option<usize>,
) -> bool {
    for term in terms {
        if !is_met(documents, table, *term, name, selected) {
            return false;
        }
    }
    true
}

impl Known {
    pub fn new(alloc: Global, documents: &Documents) -> Result<Known, AllocError> {
        let mut places = Vec::new(alloc);
        for _ in &documents.packages {
            places.push(Vec::new(alloc))?;
        }
        places.push(Vec::new(alloc))?;
        Ok(Known {
            reasons: Vec::new(alloc),
            places,
        })
    }

    /// Adds a line, and returns its number.
    pub fn add(
        &mut self,
        documents: &Documents,
        source: Source,
        terms: Vec<Term>,
    ) -> Result<usize, AllocError> {
        let line = self.reasons.len();
        for term in &terms {
            if let Some(place) = self.places.get_mut(place_of(documents, name_of(*term))) {
                place.push(line)?;
            }
        }
        self.reasons.push(Reason { source, terms })?;
        Ok(line)
    }

    /// Adds that the root, or candidates of a name, make a demand.
    pub fn add_demand(
        &mut self,
        alloc: Global,
        documents: &Documents,
        entry: Entry,
    ) -> Result<usize, AllocError> {
        let wish = wish_of(entry.demand);
        match entry.owner {
            Some(name) => self.add_wish(alloc, documents, name, wish),
            None => {
                let mut terms = Vec::new(alloc);
                terms.push(Term::Against(wish))?;
                self.add(documents, Source::Root(entry.demand), terms)
            }
        }
    }

    /// Adds that candidates of a name make a wish.
    pub fn add_wish(
        &mut self,
        alloc: Global,
        documents: &Documents,
        name: usize,
        wish: Wish,
    ) -> Result<usize, AllocError> {
        let mut terms = Vec::new(alloc);
        terms.push(Term::Making(name, wish))?;
        terms.push(Term::Against(wish))?;
        self.add(documents, Source::Candidates(name, wish), terms)
    }

    /// Returns a line that rules out what is selected of a name, with the choices so far.
    pub fn ruling_out(
        &self,
        documents: &Documents,
        table: &[Option<usize>],
        name: usize,
        selected: Option<usize>,
    ) -> Option<usize> {
        let places = self.places.get(place_of(documents, name))?;
        for line in places {
            if let Some(reason) = self.reasons.get(*line) {
                if are_met(documents, table, &reason.terms, name, selected) {
                    return Some(*line);
                }
            }
        }
        None
    }
}
