//! A search for places: what is to do, and the choices that can be made anew.

use crate::Result;
use std::alloc::Global;

/// What is to do.
#[derive(Clone, Copy, Drop)]
pub(crate) enum Goal {
    /// A package is placed for a dependency, so that it is seen from a place. `is_pick`: npm's pick alone.
    Place(usize, usize, bool),
    /// The peers of a place are placed with it, from a dependency on.
    Peers(usize, usize),
    /// A dependency is met now.
    Check(usize),
    /// The dependencies in the list, from one on, are placed together.
    Rest(usize),
}

/// A goal, and the one after it.
#[derive(Clone, Copy, Drop)]
pub(crate) struct Cell {
    pub(crate) goal: Goal,
    pub(crate) next: Option<usize>,
}

/// The ways to place a package for a dependency that are left.
#[derive(Clone, Copy, Drop)]
pub(crate) struct Ways {
    pub(crate) ask: usize,
    /// The version of the older lock file, which comes first.
    pub(crate) first: Option<usize>,
    /// The folder in which what stands there gives way.
    pub(crate) top: Option<usize>,
    /// The folders, by number, and the one that is tried.
    pub(crate) to: usize,
    pub(crate) at: usize,
    /// How many versions were tried there.
    pub(crate) tried: usize,
    pub(crate) is_pick: bool,
}

/// A choice that can be made anew.
#[derive(Clone, Copy, Drop)]
pub(crate) enum Left {
    Ways(Ways),
    /// A dependency in the list, and how many ways were tried.
    Together(usize, usize),
}

/// A choice that can be made anew, and what was there before it.
#[derive(Clone, Copy, Drop)]
pub(crate) struct Choice {
    pub(crate) left: Left,
    pub(crate) places: usize,
    pub(crate) cells: usize,
    pub(crate) folders: usize,
    pub(crate) next: Option<usize>,
}

/// How a step ends.
#[derive(Clone, Copy, Drop)]
pub(crate) enum Turn {
    /// The next goal; with none all is done.
    Next(Option<usize>),
    /// Nothing is left to be tried.
    Failed,
    /// The steps are used up.
    Spent,
}

/// The stacks of a search.
#[derive(Drop)]
pub(crate) struct Search {
    pub(crate) cells: Vec<Cell>,
    pub(crate) choices: Vec<Choice>,
    pub(crate) folders: Vec<usize>,
    /// The dependencies that are placed together.
    pub(crate) list: Vec<usize>,
    /// The steps that are left for this search, and for all.
    pub(crate) steps: u64,
    pub(crate) total: u64,
}

impl Search {
    pub(crate) fn new(alloc: Global, total: u64) -> Search {
        Search {
            cells: Vec::new(alloc),
            choices: Vec::new(alloc),
            folders: Vec::new(alloc),
            list: Vec::new(alloc),
            steps: 0,
            total,
        }
    }

    /// Begins a search.
    pub(crate) fn begin(&mut self, steps: u64) {
        self.cells.clear();
        self.choices.clear();
        self.folders.clear();
        self.steps = steps;
    }

    /// Adds a goal before others.
    pub(crate) fn before(&mut self, goal: Goal, next: Option<usize>) -> Result<Option<usize>> {
        let number = self.cells.len();
        self.cells.push(Cell { goal, next })?;
        Ok(Some(number))
    }

    /// Takes a step. Returns `false` if none is left.
    pub(crate) fn take_step(&mut self) -> bool {
        if self.steps == 0 || self.total == 0 {
            return false;
        }
        self.steps = self.steps.saturating_sub(1);
        self.total = self.total.saturating_sub(1);
        true
    }
}
