//! What follows from what is left.
use crate::trail::{Reason, Search};
use crate::words::{clear, copy, drop_all, join, meets, within, word};
use crate::{Documents, Result};

impl Search {
    /// Rules out what follows. Returns a name of which nothing is left, if there is one.
    pub(crate) fn propagate(&mut self, documents: &Documents) -> Result<Option<usize>> {
        for at in 0..usize::MAX {
            if self.is_stopped {
                break;
            }
            let Some(next) = self.queue.get(at) else {
                break;
            };
            let name = *next;
            if let Some(mark) = self.is_queued.get_mut(name) {
                *mark = false;
            }
            if let Some(failed) = self.follow(documents, name)? {
                self.clear_queue();
                return Ok(Some(failed));
            }
        }
        self.clear_queue();
        Ok(None)
    }

    /// Looks at names that are not needed, too, from now on. Returns a name of which nothing is left, if there is one.
    pub(crate) fn look_at_all(&mut self, documents: &Documents) -> Result<Option<usize>> {
        self.is_eager = true;
        for name in 0..self.tables.names.len() {
            self.touch(name)?;
        }
        self.propagate(documents)
    }

    /// Rules out what follows from the values of one name.
    fn follow(&mut self, documents: &Documents, name: usize) -> Result<Option<usize>> {
        if self.is_eager || self.is_needed(name) {
            if let Some(failed) = self.ask(documents, name)? {
                return Ok(Some(failed));
            }
        }
        if let Some(failed) = self.answer(name)? {
            return Ok(Some(failed));
        }
        self.follow_nogoods(name)
    }

    /// Rules out what a name does not allow, and its candidates that cannot be selected.
    fn ask(&mut self, documents: &Documents, name: usize) -> Result<Option<usize>> {
        if !self.tables.name(name).is_built {
            self.tables.build(documents, name)?;
        }
        let known = self.tables.name(name);
        copy(&mut self.kept, 0, &self.full, known.first, known.width);
        drop_all(&mut self.kept, 0, &self.tables.bits, known.own, known.width);
        if self.narrow(name, Reason::Own)? {
            return Ok(Some(name));
        }
        for pair in known.pairs_from..known.pairs_to {
            if let Some(failed) = self.forward(pair)? {
                return Ok(Some(failed));
            }
        }
        for pair in known.pairs_from..known.pairs_to {
            if let Some(failed) = self.backward(pair)? {
                return Ok(Some(failed));
            }
        }
        Ok(None)
    }

    /// Rules out candidates of which none that is left of a name is allowed.
    fn answer(&mut self, name: usize) -> Result<Option<usize>> {
        let mut next = self.tables.name(name).into;
        for _ in 0..self.tables.pairs.len() {
            if next == 0 {
                break;
            }
            let pair = self.tables.pair(next - 1);
            if self.is_eager || self.is_needed(pair.asker) {
                if let Some(failed) = self.backward(next - 1)? {
                    return Ok(Some(failed));
                }
            }
            next = pair.older;
        }
        Ok(None)
    }

    /// Keeps of the asked name what the asker allows.
    fn forward(&mut self, place: usize) -> Result<Option<usize>> {
        let pair = self.tables.pair(place);
        let asker = self.tables.name(pair.asker);
        let asked = self.tables.name(pair.asked);
        if meets(
            &self.left,
            asker.first,
            &self.tables.bits,
            pair.free,
            asker.width,
        ) {
            return Ok(None);
        }
        clear(&mut self.kept, 0, asked.width);
        let mut next = pair.groups;
        for _ in 0..self.tables.groups.len() {
            if next == 0 {
                break;
            }
            let group = self.tables.group(next - 1);
            if meets(
                &self.left,
                asker.first,
                &self.tables.bits,
                group.asking,
                asker.width,
            ) {
                join(
                    &mut self.kept,
                    0,
                    &self.tables.bits,
                    group.allowed,
                    asked.width,
                );
            }
            next = group.older;
        }
        let failed = self.narrow(pair.asked, Reason::Forward(place))?;
        Ok(if failed { Some(pair.asked) } else { None })
    }

    /// Keeps of the asker what allows something that is left of the asked name.
    fn backward(&mut self, place: usize) -> Result<Option<usize>> {
        let pair = self.tables.pair(place);
        let asker = self.tables.name(pair.asker);
        let asked = self.tables.name(pair.asked);
        copy(&mut self.kept, 0, &self.full, asker.first, asker.width);
        let mut next = pair.groups;
        for _ in 0..self.tables.groups.len() {
            if next == 0 {
                break;
            }
            let group = self.tables.group(next - 1);
            if !meets(
                &self.left,
                asked.first,
                &self.tables.bits,
                group.allowed,
                asked.width,
            ) {
                drop_all(
                    &mut self.kept,
                    0,
                    &self.tables.bits,
                    group.asking,
                    asker.width,
                );
            }
            next = group.older;
        }
        let failed = self.narrow(pair.asker, Reason::Backward(place))?;
        Ok(if failed { Some(pair.asker) } else { None })
    }

    /// Rules out what follows from nogoods that watch a name.
    fn follow_nogoods(&mut self, name: usize) -> Result<Option<usize>> {
        let mut next = word_of(&self.nogoods.heads, name);
        crate::words::put_number(&mut self.nogoods.heads, name, 0);
        let mut failed = None;
        for _ in 0..usize::MAX {
            if next == 0 {
                break;
            }
            let watch = next - 1;
            next = self.nogoods.next(watch);
            if failed.is_some() {
                self.nogoods.watch(watch, name);
            } else {
                failed = self.follow_nogood(watch, name)?;
            }
        }
        Ok(failed)
    }

    /// Looks for another term to watch, and if there is none rules out what the nogood says.
    fn follow_nogood(&mut self, watch: usize, name: usize) -> Result<Option<usize>> {
        let place = watch / 2;
        let nogood = self.nogoods.nogood(place);
        let own = nogood.from.wrapping_add(watch % 2);
        let other = nogood.from.wrapping_add(1 - watch % 2);
        if !self.is_held(own) {
            self.nogoods.watch(watch, name);
            return Ok(None);
        }
        for term in nogood.from.saturating_add(2)..nogood.to {
            if !self.is_held(term) {
                self.nogoods.exchange(own, term);
                let to = self.nogoods.term(own).name;
                self.nogoods.watch(watch, to);
                return Ok(None);
            }
        }
        self.nogoods.watch(watch, name);
        self.rule_out(other, place)
    }

    /// Returns `true` if all that is left of the name of a term is in it.
    fn is_held(&self, at: usize) -> bool {
        let term = self.nogoods.term(at);
        let known = self.tables.name(term.name);
        within(
            &self.left,
            known.first,
            &self.nogoods.bits,
            term.bits,
            known.width,
        )
    }

    /// Rules out the values of a term.
    pub(crate) fn rule_out(&mut self, at: usize, nogood: usize) -> Result<Option<usize>> {
        let term = self.nogoods.term(at);
        let known = self.tables.name(term.name);
        copy(&mut self.kept, 0, &self.full, known.first, known.width);
        drop_all(
            &mut self.kept,
            0,
            &self.nogoods.bits,
            term.bits,
            known.width,
        );
        let failed = self.narrow(term.name, Reason::Learnt(nogood))?;
        Ok(if failed { Some(term.name) } else { None })
    }
}

fn word_of(numbers: &[usize], at: usize) -> usize {
    crate::words::number(numbers, at)
}
