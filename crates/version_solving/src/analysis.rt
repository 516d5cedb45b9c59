//! What is learnt from a conflict.
use crate::certificate::Step;
use crate::nogoods::{NO_TERM, Term};
use crate::trail::{Event, Reason, Search};
use crate::words::{clear, copy, drop_all, join, keep, meets, number, put_number, remove, within};
use crate::{Demand, Documents, Result};

/// A nogood, and the level at which it rules something out.
#[derive(Clone, Copy, Drop)]
pub(crate) struct Learnt {
    pub(crate) nogood: usize,
    pub(crate) level: usize,
}

impl Search {
    /// The level of an event.
    fn level_of(&self, at: usize) -> usize {
        for level in (0..self.starts.len()).rev() {
            if number(&self.starts, level) <= at {
                return level;
            }
        }
        0
    }

    /// Finds when the goal of a name was reached.
    fn find_place(&mut self, name: usize) -> Result<()> {
        let known = self.tables.name(name);
        let mut at = number(&self.last, name);
        for _ in 0..self.events.len() {
            if at == 0 {
                break;
            }
            let event = self.event(at - 1);
            if !within(
                &self.olds,
                event.before,
                &self.goals,
                known.first,
                known.width,
            ) {
                break;
            }
            at = event.previous;
        }
        let old = number(&self.places, name);
        if old > self.start {
            self.upper = self.upper.wrapping_sub(1);
        }
        if at > self.start {
            self.upper = self.upper.wrapping_add(1);
        }
        put_number(&mut self.places, name, at);
        if old == 0 && at != 0 {
            self.met.push(name)?;
        }
        Ok(())
    }

    /// Sets the level of the analysis to that of an event.
    fn begin_at(&mut self, level: usize) {
        self.start = number(&self.starts, level);
        self.upper = 0;
        for name in &self.met {
            if number(&self.places, *name) > self.start {
                self.upper = self.upper.wrapping_add(1);
            }
        }
    }

    /// What values of a name are ruled out by the pair where what is left of the other name is in `other`. Both sets are made:
    /// `other` is as large as it can be, and the values in `kept` are those that it rules out. They have those in `gone`.
    fn explain_forward(&mut self, place: usize) {
        let pair = self.tables.pair(place);
        let asker = self.tables.name(pair.asker);
        let asked = self.tables.name(pair.asked);
        copy(&mut self.kept, 0, &self.full, asked.first, asked.width);
        clear(&mut self.other, 0, asker.width);
        let mut next = pair.groups;
        for _ in 0..self.tables.groups.len() {
            if next == 0 {
                break;
            }
            let group = self.tables.group(next - 1);
            if !meets(&self.gone, 0, &self.tables.bits, group.allowed, asked.width) {
                drop_all(
                    &mut self.kept,
                    0,
                    &self.tables.bits,
                    group.allowed,
                    asked.width,
                );
                join(
                    &mut self.other,
                    0,
                    &self.tables.bits,
                    group.asking,
                    asker.width,
                );
            }
            next = group.older;
        }
    }

    /// The same for a pair that ruled out candidates of the asker.
    fn explain_backward(&mut self, place: usize) {
        let pair = self.tables.pair(place);
        let asker = self.tables.name(pair.asker);
        let asked = self.tables.name(pair.asked);
        copy(&mut self.other, 0, &self.full, asked.first, asked.width);
        let mut next = pair.groups;
        for _ in 0..self.tables.groups.len() {
            if next == 0 {
                break;
            }
            let group = self.tables.group(next - 1);
            if meets(&self.gone, 0, &self.tables.bits, group.asking, asker.width) {
                drop_all(
                    &mut self.other,
                    0,
                    &self.tables.bits,
                    group.allowed,
                    asked.width,
                );
            }
            next = group.older;
        }
        clear(&mut self.kept, 0, asker.width);
        next = pair.groups;
        for _ in 0..self.tables.groups.len() {
            if next == 0 {
                break;
            }
            let group = self.tables.group(next - 1);
            if !meets(
                &self.other,
                0,
                &self.tables.bits,
                group.allowed,
                asked.width,
            ) {
                join(
                    &mut self.kept,
                    0,
                    &self.tables.bits,
                    group.asking,
                    asker.width,
                );
            }
            next = group.older;
        }
    }

    /// What an event ruled out of its name beyond the goal.
    fn find_gone(&mut self, event: Event) {
        let known = self.tables.name(event.name);
        copy(&mut self.gone, 0, &self.olds, event.before, known.width);
        drop_all(&mut self.gone, 0, &self.goals, known.first, known.width);
    }

    /// The values that a demand does not allow.
    fn explain_ask(&mut self, documents: &Documents, demand: Demand) {
        let known = self.tables.name(demand.name);
        copy(&mut self.kept, 0, &self.full, known.first, known.width);
        if !demand.needed {
            remove(&mut self.kept, 0, 0);
        }
        for candidate in 0..known.count {
            if documents.allows(demand.range, candidate) {
                remove(&mut self.kept, 0, candidate.wrapping_add(1));
            }
        }
    }

    /// Adds the values in `kept` to the goal of a name.
    fn widen(&mut self, name: usize) -> Result<()> {
        let known = self.tables.name(name);
        join(&mut self.goals, known.first, &self.kept, 0, known.width);
        self.find_place(name)
    }

    /// Keeps of the goal of a name the values in `other`.
    fn require(&mut self, name: usize) -> Result<()> {
        let known = self.tables.name(name);
        keep(&mut self.goals, known.first, &self.other, 0, known.width);
        self.find_place(name)
    }

    /// Replaces the goal that an event reached by goals from which it follows.
    fn resolve(&mut self, root: &[Demand], documents: &Documents, at: usize) -> Result<()> {
        let event = self.event(at);
        self.find_gone(event);
        let conflicts = self.conflicts;
        put_number(&mut self.heat, event.name, conflicts);
        match event.reason {
            Reason::Choice => Ok(()),
            Reason::Ask(place) => {
                self.nogoods.steps.push(Step::Ask(place))?;
                if let Some(demand) = root.get(place) {
                    self.explain_ask(documents, *demand);
                }
                self.widen(event.name)
            }
            Reason::Own => {
                self.nogoods.steps.push(Step::Own(event.name))?;
                let known = self.tables.name(event.name);
                copy(&mut self.kept, 0, &self.tables.bits, known.own, known.width);
                self.widen(event.name)
            }
            Reason::Forward(place) => {
                let pair = self.tables.pair(place);
                self.nogoods
                    .steps
                    .push(Step::Forward(pair.asker, pair.asked))?;
                self.explain_forward(place);
                self.widen(pair.asked)?;
                self.require(pair.asker)
            }
            Reason::Backward(place) => {
                let pair = self.tables.pair(place);
                self.nogoods
                    .steps
                    .push(Step::Backward(pair.asker, pair.asked))?;
                self.explain_backward(place);
                self.widen(pair.asker)?;
                self.require(pair.asked)
            }
            Reason::Learnt(nogood) => self.resolve_learnt(nogood, event.name),
        }
    }

    fn resolve_learnt(&mut self, place: usize, name: usize) -> Result<()> {
        self.nogoods.steps.push(Step::Learnt(place, name))?;
        let nogood = self.nogoods.nogood(place);
        for at in nogood.from..nogood.to {
            let term = self.nogoods.term(at);
            let known = self.tables.name(term.name);
            if term.name == name {
                copy(
                    &mut self.kept,
                    0,
                    &self.nogoods.bits,
                    term.bits,
                    known.width,
                );
                self.widen(name)?;
            } else {
                copy(
                    &mut self.other,
                    0,
                    &self.nogoods.bits,
                    term.bits,
                    known.width,
                );
                self.require(term.name)?;
            }
        }
        Ok(())
    }

    /// Returns `true` if the goal that an event reached follows from the goals of other names.
    fn follows(&mut self, at: usize) -> bool {
        let event = self.event(at);
        self.find_gone(event);
        match event.reason {
            Reason::Choice | Reason::Ask(_) => false,
            Reason::Own => true,
            Reason::Forward(place) => {
                self.explain_forward(place);
                self.is_reached(self.tables.pair(place).asker)
            }
            Reason::Backward(place) => {
                self.explain_backward(place);
                self.is_reached(self.tables.pair(place).asked)
            }
            Reason::Learnt(place) => self.follows_learnt(place, event.name),
        }
    }

    /// Returns `true` if the goal of a name is within `other`.
    fn is_reached(&self, name: usize) -> bool {
        let known = self.tables.name(name);
        within(&self.goals, known.first, &self.other, 0, known.width)
    }

    fn follows_learnt(&self, place: usize, name: usize) -> bool {
        let nogood = self.nogoods.nogood(place);
        for at in nogood.from..nogood.to {
            let term = self.nogoods.term(at);
            let known = self.tables.name(term.name);
            if term.name != name
                && !within(
                    &self.goals,
                    known.first,
                    &self.nogoods.bits,
                    term.bits,
                    known.width,
                )
            {
                return false;
            }
        }
        true
    }

    /// Learns why nothing is left of a name.
    pub(crate) fn analyze(
        &mut self,
        root: &[Demand],
        documents: &Documents,
        failed: usize,
    ) -> Result<Learnt> {
        self.conflicts = self.conflicts.wrapping_add(1);
        let steps_from = self.nogoods.steps.len();
        let known = self.tables.name(failed);
        clear(&mut self.goals, known.first, known.width);
        let mut level = self.level_of(number(&self.last, failed).wrapping_sub(1));
        self.met.clear();
        self.begin_at(level);
        self.find_place(failed)?;
        let last = number(&self.places, failed).wrapping_sub(1);
        self.resolve(root, documents, last)?;
        let mut first = 0;
        for at in (0..self.events.len()).rev() {
            if !self.is_open(at) {
                continue;
            }
            if at < self.start {
                level = self.level_of(at);
                self.begin_at(level);
            }
            if level > 0 && self.upper == 1 {
                first = at;
                break;
            }
            self.resolve(root, documents, at)?;
        }
        for at in (0..first).rev() {
            if self.is_open(at) && self.follows(at) {
                self.resolve(root, documents, at)?;
            }
        }
        self.add_nogood(first, steps_from)
    }

    /// Returns `true` for an event that reached a goal.
    fn is_open(&self, at: usize) -> bool {
        number(&self.places, self.event(at).name) == at.wrapping_add(1)
    }

    /// Adds the nogood of all goals. That of the first event is its first term, and the latest of the others its second.
    fn add_nogood(&mut self, first: usize, steps_from: usize) -> Result<Learnt> {
        let from = self.nogoods.terms.len();
        let name = self.event(first).name;
        self.add_term(name)?;
        let mut latest = 0;
        let mut second = 0;
        for met in 0..self.met.len() {
            let name = number(&self.met, met);
            let place = number(&self.places, name);
            if latest < place {
                latest = place;
                second = self.nogoods.terms.len();
            }
            self.add_term(name)?;
        }
        if latest != 0 {
            self.nogoods.exchange(from.wrapping_add(1), second);
        }
        let nogood = self.nogoods.add(from, steps_from)?;
        let level = if latest == 0 {
            0
        } else {
            self.level_of(latest - 1)
        };
        Ok(Learnt { nogood, level })
    }

    /// Adds the goal of a name as a term, if it has one, and forgets the goal.
    fn add_term(&mut self, name: usize) -> Result<()> {
        let known = self.tables.name(name);
        if number(&self.places, name) != 0 {
            let bits = self.nogoods.bits.len();
            for _ in 0..known.width {
                self.nogoods.bits.push(0)?;
            }
            copy(
                &mut self.nogoods.bits,
                bits,
                &self.goals,
                known.first,
                known.width,
            );
            self.nogoods.terms.push(Term { name, bits })?;
            put_number(&mut self.places, name, 0);
        }
        copy(
            &mut self.goals,
            known.first,
            &self.full,
            known.first,
            known.width,
        );
        Ok(())
    }
}
