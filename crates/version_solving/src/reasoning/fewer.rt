//! Documents with few demands, with which nothing fits either.

use crate::certificate::{Claim, Lesson};
use crate::reasoning::used::{Said, Used, used_of};
use crate::seek::Seeker;
use crate::told::{Told, claim_of};
use crate::{Candidate, Demand, Documents, Package, Range, Result};
use std::alloc::Global;
use std::mem;

/// The steps that the searches for fewer demands may take together.
const MOST: u64 = 100_000;

/// A demand that candidates of a name make.
#[derive(Clone, Copy, PartialEq, Eq, Drop)]
struct Asked {
    owner: usize,
    demand: Demand,
}

/// Returns documents with the demands from which a search finds that nothing fits, or `None` if it does not find that.
pub fn fewer(
    alloc: Global,
    root: &[Demand],
    documents: &Documents,
    steps: u64,
) -> Result<Option<Documents>> {
    let Told { claim, lessons } = claim_of(alloc, root, documents, steps)?;
    match claim {
        Claim::NoSelection => few_of(alloc, root, documents, &lessons),
        Claim::Selected(_) | Claim::Fitting(_) | Claim::Undecided => Ok(None),
    }
}

/// The documents with the demands that lessons rest on.
fn few_of(
    alloc: Global,
    root: &[Demand],
    documents: &Documents,
    lessons: &[Lesson],
) -> Result<Option<Documents>> {
    let Some(used) = used_of(alloc, root, documents, lessons)? else {
        return Ok(None);
    };
    let packages = packages_of(alloc, root, documents, &used)?;
    let ranges = ranges_of(alloc, root, &packages, documents)?;
    Ok(Some(Documents { packages, ranges }))
}

/// Leaves demands out, one after the other, as long as nothing fits.
pub fn trimmed(
    alloc: Global,
    root: &[Demand],
    documents: Documents,
    steps: u64,
) -> Result<Documents> {
    let mut documents = documents;
    let all = all_asked(alloc, &documents.packages)?;
    let mut left = steps.min(MOST);
    for one in all.iter().rev() {
        if left == 0 {
            break;
        }
        left = leave_out(alloc, root, &mut documents, *one, left)?;
    }
    Ok(documents)
}

/// Leaves a demand out if nothing fits then. Returns the steps that are left.
fn leave_out(
    alloc: Global,
    root: &[Demand],
    documents: &mut Documents,
    one: Asked,
    steps: u64,
) -> Result<u64> {
    let mut others = packages_without(alloc, &documents.packages, one)?;
    mem::swap(&mut documents.packages, &mut others);
    let mut seeker = Seeker::new(alloc, documents, steps)?;
    let found = seeker.seek(root, documents)?;
    if found.is_some() {
        mem::swap(&mut documents.packages, &mut others);
    }
    Ok(seeker.search.fuel)
}

// ---- what a search used

/// The packages of all names that take part, with the demands that are used.
fn packages_of(
    alloc: Global,
    root: &[Demand],
    documents: &Documents,
    used: &Used,
) -> Result<Vec<Package>> {
    let takes_part = names_of(alloc, root, used)?;
    let mut packages = Vec::with_capacity(alloc, takes_part.len())?;
    for (name, is_part) in takes_part.iter().enumerate() {
        let count = if *is_part { documents.count(name) } else { 0 };
        let mut candidates = Vec::with_capacity(alloc, count)?;
        for candidate in 0..count {
            let demands = demands_of(alloc, documents, used, name, candidate)?;
            candidates.push(Candidate { demands })?;
        }
        packages.push(Package { candidates })?;
    }
    Ok(packages)
}

/// Whether each name takes part.
fn names_of(alloc: Global, root: &[Demand], used: &Used) -> Result<Vec<bool>> {
    let mut takes_part = Vec::with_capacity(alloc, used.by_name.len())?;
    for list in &used.by_name {
        takes_part.push(!list.is_empty())?;
    }
    for demand in root {
        note(&mut takes_part, demand.name);
    }
    for list in &used.by_name {
        for said in list {
            note(&mut takes_part, said.asked);
        }
    }
    Ok(takes_part)
}

/// Notes that a name takes part.
fn note(takes_part: &mut [bool], name: usize) {
    if let Some(mark) = takes_part.get_mut(name) {
        *mark = true;
    }
}

/// The demands of a candidate that are used.
fn demands_of(
    alloc: Global,
    documents: &Documents,
    used: &Used,
    name: usize,
    candidate: usize,
) -> Result<Vec<Demand>> {
    let mut demands = Vec::new(alloc);
    if let Some(list) = used.by_name.get(name) {
        for demand in documents.demands(name, candidate) {
            let asked = demand.name;
            if list.contains(&Said { candidate, asked }) {
                demands.push(*demand)?;
            }
        }
    }
    Ok(demands)
}

// ---- copies

/// The ranges of the demands of a root and of packages. All others allow nothing.
fn ranges_of(
    alloc: Global,
    root: &[Demand],
    packages: &[Package],
    documents: &Documents,
) -> Result<Vec<Range>> {
    let mut ranges = Vec::with_capacity(alloc, documents.ranges.len())?;
    for _ in &documents.ranges {
        ranges.push(Range {
            allowed: Vec::new(alloc),
        })?;
    }
    copy_all(alloc, &mut ranges, root, documents)?;
    for package in packages {
        for candidate in &package.candidates {
            copy_all(alloc, &mut ranges, &candidate.demands, documents)?;
        }
    }
    Ok(ranges)
}

/// Copies the ranges of demands.
fn copy_all(
    alloc: Global,
    ranges: &mut [Range],
    demands: &[Demand],
    documents: &Documents,
) -> Result<()> {
    for demand in demands {
        let range = ranges.get_mut(demand.range);
        if let (Some(range), Some(known)) = (range, documents.ranges.get(demand.range)) {
            range.allowed = Vec::from_slice(alloc, &known.allowed)?;
        }
    }
    Ok(())
}

/// The demands of all packages, each once for a name.
fn all_asked(alloc: Global, packages: &[Package]) -> Result<Vec<Asked>> {
    let mut all = Vec::new(alloc);
    for (owner, package) in packages.iter().enumerate() {
        let from = all.len();
        for candidate in &package.candidates {
            for demand in &candidate.demands {
                add_asked(&mut all, from, owner, *demand)?;
            }
        }
    }
    Ok(all)
}

/// Adds a demand of a name, unless it is there from a place on.
fn add_asked(all: &mut Vec<Asked>, from: usize, owner: usize, demand: Demand) -> Result<()> {
    let one = Asked { owner, demand };
    if let Some(own) = all.get(from..) {
        if own.contains(&one) {
            return Ok(());
        }
    }
    all.push(one)?;
    Ok(())
}

/// The packages without a demand.
fn packages_without(alloc: Global, packages: &[Package], one: Asked) -> Result<Vec<Package>> {
    let mut others = Vec::with_capacity(alloc, packages.len())?;
    for (owner, package) in packages.iter().enumerate() {
        let mut candidates = Vec::with_capacity(alloc, package.candidates.len())?;
        for candidate in &package.candidates {
            let mut demands = Vec::with_capacity(alloc, candidate.demands.len())?;
            for demand in &candidate.demands {
                if owner != one.owner || *demand != one.demand {
                    demands.push(*demand)?;
                }
            }
            candidates.push(Candidate { demands })?;
        }
        others.push(Package { candidates })?;
    }
    Ok(others)
}

/// The documents with the demands of each candidate in the opposite order.
pub fn turned(alloc: Global, documents: &Documents) -> Result<Documents> {
    let mut packages = Vec::with_capacity(alloc, documents.packages.len())?;
    for package in &documents.packages {
        let mut candidates = Vec::with_capacity(alloc, package.candidates.len())?;
        for candidate in &package.candidates {
            let mut demands = Vec::from_slice(alloc, &candidate.demands)?;
            demands.reverse();
            candidates.push(Candidate { demands })?;
        }
        packages.push(Package { candidates })?;
    }
    let mut ranges = Vec::with_capacity(alloc, documents.ranges.len())?;
    for range in &documents.ranges {
        ranges.push(Range {
            allowed: Vec::from_slice(alloc, &range.allowed)?,
        })?;
    }
    Ok(Documents { packages, ranges })
}
