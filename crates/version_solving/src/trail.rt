//! What is left of each name, and how it came to be so.
use crate::nogoods::Nogoods;
use crate::tables::Tables;
use crate::words::{add, copy, greatest, is_empty, keep, least, number, put_number, within, word};
use crate::{Documents, Result};
use std::alloc::Global;

/// Why values were ruled out.
#[derive(Clone, Copy, Drop)]
pub(crate) enum Reason {
    /// Another value was chosen.
    Choice,
    /// A demand of the root, by its place.
    Ask(usize),
    /// What the candidates of the name demand cannot hold.
    Own,
    /// The asker of a pair allows no more.
    Forward(usize),
    /// What is left of the other name of a pair is not allowed.
    Backward(usize),
    /// A nogood.
    Learnt(usize),
}

/// Values of a name were ruled out.
#[derive(Clone, Copy, Drop)]
pub(crate) struct Event {
    pub(crate) name: usize,
    pub(crate) reason: Reason,
    /// Where the set before it is.
    pub(crate) before: usize,
    /// The number after the last event of the same name before it, or 0.
    pub(crate) previous: usize,
}

pub(crate) const NO_EVENT: Event = Event {
    name: usize::MAX,
    reason: Reason::Choice,
    before: 0,
    previous: 0,
};

/// What the search knows.
#[derive(Drop)]
pub(crate) struct Search {
    pub(crate) tables: Tables,
    /// The values that are left of each name, and all of them.
    pub(crate) left: Vec<u64>,
    pub(crate) full: Vec<u64>,
    /// For each name the number after its last event, or 0.
    pub(crate) last: Vec<usize>,
    pub(crate) events: Vec<Event>,
    pub(crate) olds: Vec<u64>,
    /// The number of events when each level began. The first level is that of the root.
    pub(crate) starts: Vec<usize>,
    /// The names whose values changed.
    pub(crate) queue: Vec<usize>,
    pub(crate) is_queued: Vec<bool>,
    /// Sets that are made for one step.
    pub(crate) kept: Vec<u64>,
    pub(crate) other: Vec<u64>,
    pub(crate) gone: Vec<u64>,
    pub(crate) nogoods: Nogoods,
    /// In an analysis: what must be known of each name, and the number after the event at which it became known, or 0.
    pub(crate) goals: Vec<u64>,
    pub(crate) places: Vec<usize>,
    /// The names that an analysis has met.
    pub(crate) met: Vec<usize>,
    /// How many places are at the level of the conflict, and where it begins.
    pub(crate) upper: usize,
    pub(crate) start: usize,
    /// How many conflicts there were, and for each name the number of the last one that it took part in.
    pub(crate) conflicts: usize,
    pub(crate) heat: Vec<usize>,
    /// For each name the value that was the best one left when a level was taken back, or 0.
    pub(crate) phase: Vec<usize>,
    pub(crate) fuel: u64,
    pub(crate) is_stopped: bool,
    /// Whether names that are not needed are looked at, too.
    pub(crate) is_eager: bool,
}

/// A list of zeros.
fn zeros(alloc: Global, count: usize) -> Result<Vec<usize>> {
    let mut list = Vec::with_capacity(alloc, count)?;
    for _ in 0..count {
        list.push(0)?;
    }
    Ok(list)
}

/// Words without a bit.
fn no_words(alloc: Global, count: usize) -> Result<Vec<u64>> {
    let mut list = Vec::with_capacity(alloc, count)?;
    for _ in 0..count {
        list.push(0)?;
    }
    Ok(list)
}

/// As many `false`.
fn no_marks(alloc: Global, count: usize) -> Result<Vec<bool>> {
    let mut list = Vec::with_capacity(alloc, count)?;
    for _ in 0..count {
        list.push(false)?;
    }
    Ok(list)
}

/// All values of each name.
fn full_of(alloc: Global, tables: &Tables) -> Result<Vec<u64>> {
    let mut full = no_words(alloc, tables.size)?;
    for name in &tables.names {
        for value in 0..name.count.saturating_add(1) {
            add(&mut full, name.first, value);
        }
    }
    Ok(full)
}

impl Search {
    pub(crate) fn new(alloc: Global, documents: &Documents, steps: u64) -> Result<Search> {
        let tables = Tables::new(alloc, documents)?;
        let names = tables.names.len();
        let widest = tables.widest;
        let full = full_of(alloc, &tables)?;
        let left = Vec::from_slice(alloc, &full)?;
        let goals = Vec::from_slice(alloc, &full)?;
        Ok(Search {
            tables,
            left,
            full,
            last: zeros(alloc, names)?,
            events: Vec::new(alloc),
            olds: Vec::new(alloc),
            starts: zeros(alloc, 1)?,
            queue: Vec::new(alloc),
            is_queued: no_marks(alloc, names)?,
            kept: no_words(alloc, widest)?,
            other: no_words(alloc, widest)?,
            gone: no_words(alloc, widest)?,
            nogoods: Nogoods::new(alloc, names)?,
            goals,
            places: zeros(alloc, names)?,
            met: Vec::new(alloc),
            upper: 0,
            start: 0,
            conflicts: 0,
            heat: zeros(alloc, names)?,
            phase: zeros(alloc, names)?,
            fuel: steps,
            is_stopped: false,
            is_eager: false,
        })
    }

    pub(crate) fn event(&self, at: usize) -> Event {
        match self.events.get(at) {
            Some(event) => *event,
            None => NO_EVENT,
        }
    }

    /// Returns `true` if a name must be selected.
    pub(crate) fn is_needed(&self, name: usize) -> bool {
        word(&self.left, self.tables.name(name).first) & 1 == 0
    }

    /// The least value that is left of a name.
    pub(crate) fn least(&self, name: usize) -> usize {
        let known = self.tables.name(name);
        least(&self.left, known.first, known.width)
    }

    /// The greatest value that is left of a name.
    pub(crate) fn greatest(&self, name: usize) -> usize {
        let known = self.tables.name(name);
        greatest(&self.left, known.first, known.width)
    }

    /// Forgets which values were the best ones.
    pub(crate) fn forget_phases(&mut self) {
        for phase in &mut self.phase {
            *phase = 0;
        }
    }

    /// Notes that the values of a name changed.
    pub(crate) fn touch(&mut self, name: usize) -> Result<()> {
        if let Some(mark) = self.is_queued.get_mut(name) {
            if !*mark {
                *mark = true;
                self.queue.push(name)?;
            }
        }
        Ok(())
    }

    /// Keeps the values of a name that are in `kept`. Returns `true` if none is left.
    pub(crate) fn narrow(&mut self, name: usize, reason: Reason) -> Result<bool> {
        let known = self.tables.name(name);
        if within(&self.left, known.first, &self.kept, 0, known.width) {
            return Ok(false);
        }
        if self.fuel == 0 {
            self.is_stopped = true;
            return Ok(false);
        }
        self.fuel -= 1;
        let before = self.olds.len();
        self.olds
            .extend_from_slice(words_of(&self.left, known.first, known.width))?;
        keep(&mut self.left, known.first, &self.kept, 0, known.width);
        let previous = number(&self.last, name);
        self.events.push(Event {
            name,
            reason,
            before,
            previous,
        })?;
        let count = self.events.len();
        put_number(&mut self.last, name, count);
        self.touch(name)?;
        Ok(is_empty(&self.left, known.first, known.width))
    }

    /// Takes back all levels above one.
    pub(crate) fn undo(&mut self, level: usize) {
        let above = level.wrapping_add(1);
        if above >= self.starts.len() {
            return;
        }
        let from = number(&self.starts, above);
        for at in (from..self.events.len()).rev() {
            let event = self.event(at);
            let known = self.tables.name(event.name);
            let best = self.least(event.name);
            put_number(&mut self.phase, event.name, best);
            copy(
                &mut self.left,
                known.first,
                &self.olds,
                event.before,
                known.width,
            );
            put_number(&mut self.last, event.name, event.previous);
            self.olds.truncate(event.before);
        }
        self.events.truncate(from);
        self.starts.truncate(above);
    }

    /// Forgets which names changed.
    pub(crate) fn clear_queue(&mut self) {
        for name in &self.queue {
            if let Some(mark) = self.is_queued.get_mut(*name) {
                *mark = false;
            }
        }
        self.queue.clear();
    }
}

/// So many words from a place on.
fn words_of(words: &[u64], first: usize, width: usize) -> &[u64] {
    match words.get(first..first.wrapping_add(width)) {
        Some(found) => found,
        None => &[],
    }
}
