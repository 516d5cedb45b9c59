//! Demands of the root and of chosen candidates.

use crate::words::number;
use crate::{Demand, Documents};

/// A demand, and the name whose candidate makes it. The demands of the root have no such name.
#[derive(Clone, Copy, Drop)]
pub struct Entry {
    pub owner: Option<usize>,
    pub demand: Demand,
}

/// Returns the candidate that is chosen for a name.
pub fn chosen(table: &[Option<usize>], name: usize) -> Option<usize> {
    match table.get(name) {
        Some(candidate) => *candidate,
        None => None,
    }
}

/// Returns `true` if a demand needs a name that is not chosen and is lighter than that of another demand.
fn is_nearer(
    weights: &[usize],
    demand: Demand,
    other: Option<Entry>,
    table: &[Option<usize>],
) -> bool {
    if !demand.needed || chosen(table, demand.name).is_some() {
        return false;
    }
    match other {
        Some(other) => number(weights, demand.name) < number(weights, other.demand.name),
        None => true,
    }
}

/// Replaces a demand by one of these that needs a lighter name, if there is one.
pub fn add_wanter(
    wanter: &mut Option<Entry>,
    weights: &[usize],
    demands: &[Demand],
    table: &[Option<usize>],
    owner: Option<usize>,
) {
    for demand in demands {
        if is_nearer(weights, *demand, *wanter, table) {
            *wanter = Some(Entry {
                owner,
                demand: *demand,
            });
        }
    }
}

/// Returns `true` if a candidate that a demand does not allow is chosen.
fn is_violated(documents: &Documents, demand: Demand, table: &[Option<usize>]) -> bool {
    match chosen(table, demand.name) {
        Some(candidate) => !documents.allows(demand.range, candidate),
        None => false,
    }
}

/// Returns the first demand of a name that does not allow what is chosen, or of any name if none is given.
pub fn first_violated(
    documents: &Documents,
    demands: &[Demand],
    table: &[Option<usize>],
    name: Option<usize>,
) -> Option<Demand> {
    for demand in demands {
        let is_of_name = match name {
            Some(name) => demand.name == name,
            None => true,
        };
        if is_of_name && is_violated(documents, *demand, table) {
            return Some(*demand);
        }
    }
    None
}
