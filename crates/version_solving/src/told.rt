//! What a search says of its answer.
use crate::certificate::{Claim, Lesson, Move, Step, Term, Values};
use crate::nogoods::Nogoods;
use crate::seek::Seeker;
use crate::trail::{Reason, Search};
use crate::words::{has, number};
use crate::{Choice, Demand, Documents, Result};
use std::alloc::Global;

/// A claim, and the lessons that it rests on.
#[derive(Drop)]
pub(crate) struct Told {
    pub(crate) claim: Claim,
    pub(crate) lessons: Vec<Lesson>,
}

/// Searches, and says what was found.
pub(crate) fn claim_of(
    alloc: Global,
    root: &[Demand],
    documents: &Documents,
    steps: u64,
) -> Result<Told> {
    let mut seeker = Seeker::new(alloc, documents, steps)?;
    match seeker.seek(root, documents)? {
        Some(true) => selected(alloc, &seeker),
        Some(false) => Ok(Told {
            claim: Claim::Undecided,
            lessons: Vec::new(alloc),
        }),
        None => refuted(alloc, &seeker.search),
    }
}

/// Searches for any selection, and says what was found.
pub(crate) fn any_of(
    alloc: Global,
    root: &[Demand],
    documents: &Documents,
    steps: u64,
) -> Result<Told> {
    let mut seeker = Seeker::new(alloc, documents, steps)?;
    match seeker.seek_any(root, documents)? {
        Some(true) => Ok(Told {
            claim: Claim::Fitting(fitting(alloc, &seeker.search)?),
            lessons: Vec::new(alloc),
        }),
        Some(false) => Ok(Told {
            claim: Claim::Undecided,
            lessons: Vec::new(alloc),
        }),
        None => refuted(alloc, &seeker.search),
    }
}

/// What is left of the names that are needed.
fn fitting(alloc: Global, search: &Search) -> Result<Vec<Choice>> {
    let mut choices = Vec::new(alloc);
    for name in 0..search.tables.names.len() {
        if search.is_needed(name) {
            let candidate = search.least(name).wrapping_sub(1);
            choices.push(Choice { name, candidate })?;
        }
    }
    Ok(choices)
}

/// The last nogood, and those that it rests on.
fn refuted(alloc: Global, search: &Search) -> Result<Told> {
    let mut used = unused(alloc, &search.nogoods)?;
    if let Some(last) = used.last_mut() {
        *last = true;
    }
    mark_all(&mut used, &search.nogoods);
    let numbers = numbers_of(alloc, &used)?;
    Ok(Told {
        claim: Claim::NoSelection,
        lessons: lessons_of(alloc, search, &used, &numbers)?,
    })
}

/// The choices and the events, in their order, and the nogoods that they rest on.
fn selected(alloc: Global, seeker: &Seeker) -> Result<Told> {
    let search = &seeker.search;
    let mut used = unused(alloc, &search.nogoods)?;
    for event in &search.events {
        if let Reason::Learnt(nogood) = event.reason {
            mark(&mut used, nogood);
        }
    }
    mark_all(&mut used, &search.nogoods);
    let numbers = numbers_of(alloc, &used)?;
    let mut moves = Vec::with_capacity(alloc, search.events.len())?;
    let mut next = 0;
    for chosen in &seeker.chosen {
        add_events(&mut moves, search, next, chosen.events, &numbers)?;
        moves.push(Move::Choose(chosen.choice))?;
        next = chosen.events;
    }
    Ok(Told {
        claim: Claim::Selected(moves),
        lessons: lessons_of(alloc, search, &used, &numbers)?,
    })
}

/// Adds the steps of some events.
fn add_events(
    moves: &mut Vec<Move>,
    search: &Search,
    from: usize,
    to: usize,
    numbers: &[usize],
) -> Result<()> {
    for at in from..to {
        if let Some(step) = step_of(search, at, numbers) {
            moves.push(Move::Step(step))?;
        }
    }
    Ok(())
}

/// The step of an event, if it is no choice.
fn step_of(search: &Search, at: usize, numbers: &[usize]) -> Option<Step> {
    let event = search.event(at);
    match event.reason {
        Reason::Choice => None,
        Reason::Ask(place) => Some(Step::Ask(place)),
        Reason::Own => Some(Step::Own(event.name)),
        Reason::Forward(place) => {
            let pair = search.tables.pair(place);
            Some(Step::Forward(pair.asker, pair.asked))
        }
        Reason::Backward(place) => {
            let pair = search.tables.pair(place);
            Some(Step::Backward(pair.asker, pair.asked))
        }
        Reason::Learnt(nogood) => Some(Step::Learnt(number(numbers, nogood), event.name)),
    }
}

/// No nogood.
fn unused(alloc: Global, nogoods: &Nogoods) -> Result<Vec<bool>> {
    let mut used = Vec::with_capacity(alloc, nogoods.list.len())?;
    for _ in &nogoods.list {
        used.push(false)?;
    }
    Ok(used)
}

fn mark(used: &mut [bool], nogood: usize) {
    if let Some(place) = used.get_mut(nogood) {
        *place = true;
    }
}

/// Marks the nogoods that those marked rest on, which came before them.
fn mark_all(used: &mut [bool], nogoods: &Nogoods) {
    for place in (0..nogoods.list.len()).rev() {
        if let Some(true) = used.get(place) {
            let nogood = nogoods.nogood(place);
            for at in nogood.steps_from..nogood.steps_to {
                if let Some(Step::Learnt(other, _)) = nogoods.steps.get(at) {
                    mark(used, *other);
                }
            }
        }
    }
}

/// The number of each nogood among those that are used.
fn numbers_of(alloc: Global, used: &[bool]) -> Result<Vec<usize>> {
    let mut numbers = Vec::with_capacity(alloc, used.len())?;
    let mut next = 0_usize;
    for is_used in used {
        numbers.push(next)?;
        if *is_used {
            next = next.wrapping_add(1);
        }
    }
    Ok(numbers)
}

/// The nogoods that are used.
fn lessons_of(
    alloc: Global,
    search: &Search,
    used: &[bool],
    numbers: &[usize],
) -> Result<Vec<Lesson>> {
    let mut lessons = Vec::new(alloc);
    for (place, is_used) in used.iter().enumerate() {
        if *is_used {
            lessons.push(Lesson {
                terms: terms_of(alloc, search, place)?,
                steps: steps_of(alloc, &search.nogoods, place, numbers)?,
            })?;
        }
    }
    Ok(lessons)
}

/// The terms of a nogood.
fn terms_of(alloc: Global, search: &Search, place: usize) -> Result<Vec<Term>> {
    let nogood = search.nogoods.nogood(place);
    let mut terms = Vec::new(alloc);
    for at in nogood.from..nogood.to {
        let term = search.nogoods.term(at);
        let count = search.tables.name(term.name).count;
        terms.push(Term {
            name: term.name,
            values: values_of(alloc, &search.nogoods.bits, term.bits, count)?,
        })?;
    }
    Ok(terms)
}

/// A set of values.
fn values_of(alloc: Global, words: &[u64], first: usize, count: usize) -> Result<Values> {
    let mut candidates = Vec::with_capacity(alloc, count)?;
    for candidate in 0..count {
        candidates.push(has(words, first, candidate.wrapping_add(1)))?;
    }
    Ok(Values {
        none: has(words, first, 0),
        candidates,
    })
}

/// The steps of a nogood, the first one first.
fn steps_of(
    alloc: Global,
    nogoods: &Nogoods,
    place: usize,
    numbers: &[usize],
) -> Result<Vec<Step>> {
    let nogood = nogoods.nogood(place);
    let mut steps = Vec::new(alloc);
    for at in (nogood.steps_from..nogood.steps_to).rev() {
        match nogoods.steps.get(at) {
            Some(Step::Learnt(other, name)) => {
                steps.push(Step::Learnt(number(numbers, *other), *name))?;
            }
            Some(step) => steps.push(*step)?,
            None => {}
        }
    }
    Ok(steps)
}
