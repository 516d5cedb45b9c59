//! Nogoods: values of several names that are never selected together.
use crate::Result;
use crate::certificate::Step;
use crate::words::{number, put_number};
use std::alloc::Global;

/// Values of a name.
#[derive(Clone, Copy, Drop)]
pub(crate) struct Term {
    pub(crate) name: usize,
    pub(crate) bits: usize,
}

pub(crate) const NO_TERM: Term = Term {
    name: usize::MAX,
    bits: 0,
};

/// Where the terms of a nogood are, and the steps from which it follows, the last one first.
#[derive(Clone, Copy, Drop)]
pub(crate) struct Nogood {
    pub(crate) from: usize,
    pub(crate) to: usize,
    pub(crate) steps_from: usize,
    pub(crate) steps_to: usize,
}

const NO_NOGOOD: Nogood = Nogood {
    from: 0,
    to: 0,
    steps_from: 0,
    steps_to: 0,
};

/// All nogoods. The first two terms of each are watched: a list for each name has the watches of it.
#[derive(Drop)]
pub(crate) struct Nogoods {
    pub(crate) list: Vec<Nogood>,
    pub(crate) terms: Vec<Term>,
    pub(crate) bits: Vec<u64>,
    pub(crate) steps: Vec<Step>,
    /// For each name the number after its first watch, or 0; and the same for what comes after each watch. A nogood has two watches.
    pub(crate) heads: Vec<usize>,
    next: Vec<usize>,
}

impl Nogoods {
    pub(crate) fn new(alloc: Global, names: usize) -> Result<Nogoods> {
        let mut heads = Vec::with_capacity(alloc, names)?;
        for _ in 0..names {
            heads.push(0)?;
        }
        Ok(Nogoods {
            list: Vec::new(alloc),
            terms: Vec::new(alloc),
            bits: Vec::new(alloc),
            steps: Vec::new(alloc),
            heads,
            next: Vec::new(alloc),
        })
    }

    pub(crate) fn nogood(&self, at: usize) -> Nogood {
        match self.list.get(at) {
            Some(nogood) => *nogood,
            None => NO_NOGOOD,
        }
    }

    pub(crate) fn term(&self, at: usize) -> Term {
        match self.terms.get(at) {
            Some(term) => *term,
            None => NO_TERM,
        }
    }

    pub(crate) fn next(&self, watch: usize) -> usize {
        number(&self.next, watch)
    }

    /// Puts a watch before those of a name.
    pub(crate) fn watch(&mut self, watch: usize, name: usize) {
        let first = number(&self.heads, name);
        put_number(&mut self.next, watch, first);
        put_number(&mut self.heads, name, watch.wrapping_add(1));
    }

    /// Exchanges two terms.
    pub(crate) fn exchange(&mut self, one: usize, other: usize) {
        let first = self.term(one);
        let second = self.term(other);
        if let Some(place) = self.terms.get_mut(one) {
            *place = second;
        }
        if let Some(place) = self.terms.get_mut(other) {
            *place = first;
        }
    }

    /// Adds a nogood of the terms and steps from these places on, and watches its first two terms.
    pub(crate) fn add(&mut self, from: usize, steps_from: usize) -> Result<usize> {
        let place = self.list.len();
        let to = self.terms.len();
        let steps_to = self.steps.len();
        self.list.push(Nogood {
            from,
            to,
            steps_from,
            steps_to,
        })?;
        self.next.push(0)?;
        self.next.push(0)?;
        if to.wrapping_sub(from) >= 2 {
            let watch = place.wrapping_mul(2);
            self.watch(watch, self.term(from).name);
            self.watch(watch.wrapping_add(1), self.term(from.wrapping_add(1)).name);
        }
        Ok(place)
    }
}
