//! The search: names are chosen in the order in which they are first needed.
use crate::certificate::Step;
use crate::trail::{Reason, Search};
use crate::words::{add, clear, has, number, within, word};
use crate::{Choice, Demand, Documents, Result};
use std::alloc::Global;

/// After more conflicts names that are not needed are looked at, too: that takes longer, and finds more.
const CALM: usize = 64;

/// A choice, and what was there before it.
#[derive(Clone, Copy, Drop)]
pub(crate) struct Chosen {
    pub(crate) choice: Choice,
    level: usize,
    agenda: usize,
    at: usize,
    pub(crate) events: usize,
}

/// The names that are needed, in the order in which they were first needed, and the choices.
#[derive(Drop)]
pub(crate) struct Seeker {
    pub(crate) search: Search,
    agenda: Vec<usize>,
    at: usize,
    is_taken: Vec<bool>,
    pub(crate) chosen: Vec<Chosen>,
}

impl Seeker {
    pub(crate) fn new(alloc: Global, documents: &Documents, steps: u64) -> Result<Seeker> {
        let search = Search::new(alloc, documents, steps)?;
        let mut is_taken = Vec::with_capacity(alloc, documents.packages.len())?;
        for _ in &documents.packages {
            is_taken.push(false)?;
        }
        Ok(Seeker {
            search,
            agenda: Vec::new(alloc),
            at: 0,
            is_taken,
            chosen: Vec::new(alloc),
        })
    }

    /// Restricts to the demands of the root. Returns `true` if they cannot be met.
    fn begin(&mut self, root: &[Demand], documents: &Documents) -> Result<bool> {
        for (place, demand) in root.iter().enumerate() {
            if self.search.is_stopped {
                return Ok(false);
            }
            if documents.count(demand.name) == 0 {
                if demand.needed {
                    self.search.nogoods.steps.push(Step::Ask(place))?;
                    let from = self.search.nogoods.terms.len();
                    let steps_from = self.search.nogoods.steps.len().wrapping_sub(1);
                    let _last = self.search.nogoods.add(from, steps_from)?;
                    return Ok(true);
                }
                continue;
            }
            if demand.needed {
                self.agenda.push(demand.name)?;
            }
            self.search.keep_allowed(documents, *demand);
            let failed = self.search.narrow(demand.name, Reason::Ask(place))?;
            if failed {
                self.search.clear_queue();
                return self.learn(root, documents, Some(demand.name));
            }
        }
        let failed = self.search.propagate(documents)?;
        self.learn(root, documents, failed)
    }

    /// Learns from a conflict until there is none. Returns `true` if nothing fits.
    fn learn(
        &mut self,
        root: &[Demand],
        documents: &Documents,
        failed: Option<usize>,
    ) -> Result<bool> {
        let mut failed = failed;
        for _ in 0..u64::MAX {
            let Some(name) = failed else {
                break;
            };
            let learnt = self.search.analyze(root, documents, name)?;
            let nogood = self.search.nogoods.nogood(learnt.nogood);
            if nogood.from == nogood.to {
                return Ok(true);
            }
            self.go_back(learnt.level);
            failed = self.search.rule_out(nogood.from, learnt.nogood)?;
            if failed.is_some() {
                self.search.clear_queue();
            } else {
                failed = self.search.propagate(documents)?;
            }
        }
        Ok(false)
    }

    /// Takes back all levels above one, and the choices that were made there.
    fn go_back(&mut self, level: usize) {
        self.search.undo(level);
        for _ in 0..self.chosen.len() {
            let Some(last) = self.chosen.last() else {
                return;
            };
            if last.level <= level {
                return;
            }
            let last = *last;
            self.at = last.at;
            self.agenda.truncate(last.agenda);
            if let Some(mark) = self.is_taken.get_mut(last.choice.name) {
                *mark = false;
            }
            self.chosen.pop();
        }
    }

    /// Takes all levels back after some conflicts, and looks at names that are not needed, too. Returns `true` if nothing fits.
    fn look_closer(&mut self, root: &[Demand], documents: &Documents) -> Result<bool> {
        if self.search.is_eager || self.search.conflicts <= CALM {
            return Ok(false);
        }
        self.go_back(0);
        let failed = self.search.look_at_all(documents)?;
        self.learn(root, documents, failed)
    }

    /// The next name to be chosen, if one is left.
    fn next(&mut self) -> Option<usize> {
        for at in self.at..self.agenda.len() {
            let name = number(&self.agenda, at);
            if let Some(false) = self.is_taken.get(name) {
                self.at = at;
                return Some(name);
            }
        }
        None
    }

    /// Chooses the best candidate that is left of a name. Returns a name of which then nothing is left, if there is one.
    fn choose(&mut self, documents: &Documents, name: usize) -> Result<Option<usize>> {
        let value = self.search.least(name);
        let candidate = value.wrapping_sub(1);
        let events = self.search.events.len();
        let is_free = self.search.keep_one(name, value);
        let levels = self.search.starts.len();
        let level = if is_free {
            levels
        } else {
            levels.wrapping_sub(1)
        };
        self.chosen.push(Chosen {
            choice: Choice { name, candidate },
            level,
            agenda: self.agenda.len(),
            at: self.at,
            events,
        })?;
        if let Some(mark) = self.is_taken.get_mut(name) {
            *mark = true;
        }
        for demand in documents.demands(name, candidate) {
            if demand.needed {
                self.agenda.push(demand.name)?;
            }
        }
        if !is_free {
            return Ok(None);
        }
        self.search.starts.push(events)?;
        let _failed = self.search.narrow(name, Reason::Choice)?;
        self.search.propagate(documents)
    }

    /// Searches. Returns `None` if nothing fits.
    pub(crate) fn seek(&mut self, root: &[Demand], documents: &Documents) -> Result<Option<bool>> {
        if self.begin(root, documents)? {
            return Ok(None);
        }
        for _ in 0..u64::MAX {
            if self.search.is_stopped {
                return Ok(Some(false));
            }
            if self.look_closer(root, documents)? {
                return Ok(None);
            }
            let Some(name) = self.next() else {
                break;
            };
            let failed = self.choose(documents, name)?;
            if self.learn(root, documents, failed)? {
                return Ok(None);
            }
        }
        Ok(Some(true))
    }

    /// Searches for any selection: names that took part in the latest conflicts are chosen first. It begins anew after some conflicts, with
    /// the best candidates first and the last ones by turns. Returns `None` if nothing fits.
    pub(crate) fn seek_any(
        &mut self,
        root: &[Demand],
        documents: &Documents,
    ) -> Result<Option<bool>> {
        if self.begin(root, documents)? {
            return Ok(None);
        }
        let mut limit = CALM;
        let mut last = self.search.conflicts;
        let mut is_turned = false;
        for _ in 0..u64::MAX {
            if self.search.is_stopped {
                return Ok(Some(false));
            }
            if self.look_closer(root, documents)? {
                return Ok(None);
            }
            if last.saturating_add(limit) < self.search.conflicts {
                last = self.search.conflicts;
                limit = limit.saturating_add(limit / 2);
                self.search.undo(0);
                self.search.forget_phases();
                is_turned = !is_turned;
            }
            let Some(name) = self.search.hottest() else {
                break;
            };
            let failed = self.search.decide(documents, name, is_turned)?;
            if self.learn(root, documents, failed)? {
                return Ok(None);
            }
        }
        Ok(Some(true))
    }
}

impl Search {
    /// The name that took part in the latest conflict, of those that are needed and of which more than one value is left.
    fn hottest(&self) -> Option<usize> {
        let mut best = None;
        let mut most = 0;
        for name in 0..self.tables.names.len() {
            let heat = number(&self.heat, name);
            if (best.is_none() || most < heat) && self.is_needed(name) && self.has_several(name) {
                best = Some(name);
                most = heat;
            }
        }
        best
    }

    /// Returns `true` if more than one value of a name is left.
    fn has_several(&self, name: usize) -> bool {
        let known = self.tables.name(name);
        let mut is_one = false;
        for k in 0..known.width {
            let here = word(&self.left, known.first.wrapping_add(k));
            if here & here.wrapping_sub(1) != 0 || here != 0 && is_one {
                return true;
            }
            is_one = is_one || here != 0;
        }
        false
    }

    /// Chooses the value of a name that was the best one when it was taken back, or the best one that is left, or the last one.
    fn decide(
        &mut self,
        documents: &Documents,
        name: usize,
        is_turned: bool,
    ) -> Result<Option<usize>> {
        let known = self.tables.name(name);
        let before = number(&self.phase, name);
        let value = if before != 0 && has(&self.left, known.first, before) {
            before
        } else if is_turned {
            self.greatest(name)
        } else {
            self.least(name)
        };
        let events = self.events.len();
        self.starts.push(events)?;
        let _several = self.keep_one(name, value);
        let _failed = self.narrow(name, Reason::Choice)?;
        self.propagate(documents)
    }

    /// Makes `kept` what a demand allows of its name.
    fn keep_allowed(&mut self, documents: &Documents, demand: Demand) {
        let known = self.tables.name(demand.name);
        clear(&mut self.kept, 0, known.width);
        if !demand.needed {
            add(&mut self.kept, 0, 0);
        }
        for candidate in 0..known.count {
            if documents.allows(demand.range, candidate) {
                add(&mut self.kept, 0, candidate.wrapping_add(1));
            }
        }
    }

    /// Makes `kept` one value of a name. Returns `true` if more are left of the name.
    fn keep_one(&mut self, name: usize, value: usize) -> bool {
        let known = self.tables.name(name);
        clear(&mut self.kept, 0, known.width);
        add(&mut self.kept, 0, value);
        !within(&self.left, known.first, &self.kept, 0, known.width)
    }
}
