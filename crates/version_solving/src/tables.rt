//! What documents say, by sets of values.
//!
//! A pair is what the candidates of one name, the asker, say of another name. Candidates that say the same are a group: a set of values of the
//! asker, and the set of values of the other name that these allow. The pairs of a name are made when the name is first needed.
use crate::values::is_hopeless;
use crate::words::{add, has, number, put, put_number, remove, word};
use crate::{Demand, Documents, Result};
use std::alloc::Global;

/// Where the sets of a name are, and its pairs.
#[derive(Clone, Copy, Drop)]
pub(crate) struct Name {
    pub(crate) first: usize,
    pub(crate) width: usize,
    pub(crate) count: usize,
    /// The place of the candidates that can never be selected.
    pub(crate) own: usize,
    pub(crate) pairs_from: usize,
    pub(crate) pairs_to: usize,
    /// The number after the newest pair that asks for the name, or 0.
    pub(crate) into: usize,
    pub(crate) is_built: bool,
}

const NO_NAME: Name = Name {
    first: 0,
    width: 0,
    count: 0,
    own: 0,
    pairs_from: 0,
    pairs_to: 0,
    into: 0,
    is_built: true,
};

/// What the candidates of one name say of another.
#[derive(Clone, Copy, Drop)]
pub(crate) struct Pair {
    pub(crate) asker: usize,
    pub(crate) asked: usize,
    /// The values of the asker that say nothing.
    pub(crate) free: usize,
    /// The number after the newest group, or 0.
    pub(crate) groups: usize,
    /// The number after the group of the candidate before, and after that candidate.
    recent: usize,
    latest: usize,
    /// The number after an older pair that asks for the same name, or 0.
    pub(crate) older: usize,
}

const NO_PAIR: Pair = Pair {
    asker: usize::MAX,
    asked: usize::MAX,
    free: 0,
    groups: 0,
    recent: 0,
    latest: 0,
    older: 0,
};

/// Candidates that say the same of a name.
#[derive(Clone, Copy, Drop)]
pub(crate) struct Group {
    pub(crate) asking: usize,
    pub(crate) allowed: usize,
    range: usize,
    needed: bool,
    is_shared: bool,
    /// The number after an older group, or 0.
    pub(crate) older: usize,
}

const NO_GROUP: Group = Group {
    asking: 0,
    allowed: 0,
    range: 0,
    needed: false,
    is_shared: false,
    older: 0,
};

/// Names, pairs, groups and their sets.
#[derive(Drop)]
pub(crate) struct Tables {
    pub(crate) names: Vec<Name>,
    pub(crate) pairs: Vec<Pair>,
    pub(crate) groups: Vec<Group>,
    pub(crate) bits: Vec<u64>,
    /// For each name the number after the newest pair that asks for it.
    newest: Vec<usize>,
    /// The words of all names together, and of the widest one.
    pub(crate) size: usize,
    pub(crate) widest: usize,
}

/// How many words the values of a name take.
fn width_of(count: usize) -> usize {
    (count / 64).wrapping_add(1)
}

impl Tables {
    pub(crate) fn new(alloc: Global, documents: &Documents) -> Result<Tables> {
        let mut tables = Tables {
            names: Vec::with_capacity(alloc, documents.packages.len())?,
            pairs: Vec::new(alloc),
            groups: Vec::new(alloc),
            bits: Vec::new(alloc),
            newest: Vec::with_capacity(alloc, documents.packages.len())?,
            size: 0,
            widest: 0,
        };
        for package in &documents.packages {
            tables.add_name(package.candidates.len())?;
        }
        Ok(tables)
    }

    fn add_name(&mut self, count: usize) -> Result<()> {
        let width = width_of(count);
        self.names.push(Name {
            first: self.size,
            width,
            count,
            own: 0,
            pairs_from: 0,
            pairs_to: 0,
            into: 0,
            is_built: false,
        })?;
        self.newest.push(0)?;
        self.size = self.size.wrapping_add(width);
        self.widest = self.widest.max(width);
        Ok(())
    }

    pub(crate) fn name(&self, name: usize) -> Name {
        match self.names.get(name) {
            Some(known) => *known,
            None => NO_NAME,
        }
    }

    pub(crate) fn pair(&self, pair: usize) -> Pair {
        match self.pairs.get(pair) {
            Some(known) => *known,
            None => NO_PAIR,
        }
    }

    pub(crate) fn group(&self, group: usize) -> Group {
        match self.groups.get(group) {
            Some(known) => *known,
            None => NO_GROUP,
        }
    }

    /// Adds an empty set, and returns its place.
    pub(crate) fn blank(&mut self, width: usize) -> Result<usize> {
        let place = self.bits.len();
        for _ in 0..width {
            self.bits.push(0)?;
        }
        Ok(place)
    }

    /// Makes the pairs of a name.
    pub(crate) fn build(&mut self, documents: &Documents, asker: usize) -> Result<()> {
        let mut name = self.name(asker);
        name.is_built = true;
        name.own = self.blank(name.width)?;
        name.pairs_from = self.pairs.len();
        self.put_name(asker, name);
        for candidate in 0..name.count {
            for demand in documents.demands(asker, candidate) {
                self.add_demand(documents, asker, candidate, *demand)?;
            }
        }
        name.pairs_to = self.pairs.len();
        self.put_name(asker, name);
        Ok(())
    }

    fn put_name(&mut self, name: usize, new: Name) {
        if let Some(known) = self.names.get_mut(name) {
            *known = new;
        }
    }

    fn add_demand(
        &mut self,
        documents: &Documents,
        asker: usize,
        candidate: usize,
        demand: Demand,
    ) -> Result<()> {
        if is_hopeless(documents, asker, candidate, demand) {
            let own = self.name(asker).own;
            add(&mut self.bits, own, candidate.wrapping_add(1));
        }
        if demand.name == asker || documents.count(demand.name) == 0 {
            return Ok(());
        }
        let place = self.pair_for(asker, demand.name)?;
        self.add_asking(documents, place, candidate, demand)
    }

    /// The pair of two names, which is added if it is new.
    fn pair_for(&mut self, asker: usize, asked: usize) -> Result<usize> {
        let newest = number(&self.newest, asked);
        if newest != 0 && self.pair(newest - 1).asker == asker {
            return Ok(newest - 1);
        }
        let place = self.pairs.len();
        let name = self.name(asker);
        let free = self.blank(name.width)?;
        for value in 0..name.count.saturating_add(1) {
            add(&mut self.bits, free, value);
        }
        let mut known = self.name(asked);
        self.pairs.push(Pair {
            asker,
            asked,
            free,
            groups: 0,
            recent: 0,
            latest: 0,
            older: known.into,
        })?;
        known.into = place.wrapping_add(1);
        self.put_name(asked, known);
        put_number(&mut self.newest, asked, place.wrapping_add(1));
        Ok(place)
    }

    /// Adds that a candidate makes a demand.
    fn add_asking(
        &mut self,
        documents: &Documents,
        place: usize,
        candidate: usize,
        demand: Demand,
    ) -> Result<()> {
        let value = candidate.wrapping_add(1);
        let mut pair = self.pair(place);
        let group = if pair.latest == value {
            self.both(documents, place, value, demand)?
        } else {
            self.group_for(documents, place, demand)?
        };
        pair.groups = self.pair(place).groups;
        let asking = self.group(group).asking;
        add(&mut self.bits, asking, value);
        remove(&mut self.bits, pair.free, value);
        pair.recent = group.wrapping_add(1);
        pair.latest = value;
        self.put_pair(place, pair);
        Ok(())
    }

    fn put_pair(&mut self, place: usize, new: Pair) {
        if let Some(known) = self.pairs.get_mut(place) {
            *known = new;
        }
    }

    /// The group of those that make a demand.
    fn group_for(&mut self, documents: &Documents, place: usize, demand: Demand) -> Result<usize> {
        let pair = self.pair(place);
        if pair.recent != 0 && says(self.group(pair.recent - 1), demand) {
            return Ok(pair.recent - 1);
        }
        let mut next = pair.groups;
        for _ in 0..self.groups.len() {
            if next == 0 {
                break;
            }
            let group = self.group(next - 1);
            if says(group, demand) {
                return Ok(next - 1);
            }
            next = group.older;
        }
        self.add_group(documents, place, demand, true)
    }

    /// The group of a candidate that has made another demand of the same name.
    fn both(
        &mut self,
        documents: &Documents,
        place: usize,
        value: usize,
        demand: Demand,
    ) -> Result<usize> {
        let pair = self.pair(place);
        let width = self.name(pair.asked).width;
        let before = self.group(pair.recent.wrapping_sub(1));
        remove(&mut self.bits, before.asking, value);
        let made = self.add_group(documents, place, demand, false)?;
        let allowed = self.group(made).allowed;
        for k in 0..width {
            let at = allowed.wrapping_add(k);
            let new = word(&self.bits, at) & word(&self.bits, before.allowed.wrapping_add(k));
            put(&mut self.bits, at, new);
        }
        Ok(made)
    }

    fn add_group(
        &mut self,
        documents: &Documents,
        place: usize,
        demand: Demand,
        is_shared: bool,
    ) -> Result<usize> {
        let mut pair = self.pair(place);
        let asking = self.blank(self.name(pair.asker).width)?;
        let allowed = self.blank(self.name(pair.asked).width)?;
        self.add_allowed(documents, allowed, demand);
        let made = self.groups.len();
        self.groups.push(Group {
            asking,
            allowed,
            range: demand.range,
            needed: demand.needed,
            is_shared,
            older: pair.groups,
        })?;
        pair.groups = made.wrapping_add(1);
        self.put_pair(place, pair);
        Ok(made)
    }

    /// Adds the values that a demand allows to a set.
    fn add_allowed(&mut self, documents: &Documents, first: usize, demand: Demand) {
        if !demand.needed {
            add(&mut self.bits, first, 0);
        }
        for candidate in 0..documents.count(demand.name) {
            if documents.allows(demand.range, candidate) {
                add(&mut self.bits, first, candidate.wrapping_add(1));
            }
        }
    }

    /// Returns `true` if a value is in a set.
    pub(crate) fn has(&self, first: usize, value: usize) -> bool {
        has(&self.bits, first, value)
    }
}

/// Returns `true` if a group makes a demand, and no other of the same name.
fn says(group: Group, demand: Demand) -> bool {
    group.is_shared && group.range == demand.range && group.needed == demand.needed
}
