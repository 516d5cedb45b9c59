//! Which reasons are printed, and in which order.
//!
//! What versions of a name ask for is one line. A line that one other line alone needs is left out if that one still follows from few
//! lines: in its place it follows from those of the line that is left out. So no line says more than the reasons do.
use crate::Result;
use crate::sentence::lines_of;
use crate::text::has_document;
use npm_resolve::{Document, Reason, Source};
use std::alloc::Global;
use std::mem;

/// A line for which others are left out follows from so many lines at most.
const MOST: usize = 7;

/// A line that is printed.
#[derive(Drop)]
pub(crate) struct Step {
    /// The place of its reason. What versions of a name ask for is printed at the first of these reasons.
    pub(crate) place: usize,
    /// The numbers of the lines from which it follows. The first line has the number 1.
    pub(crate) numbers: Vec<usize>,
}

/// For each reason the places of those from which it follows, and whether it is left out.
#[derive(Drop)]
struct Joint {
    sources: Vec<Vec<usize>>,
    is_left_out: Vec<bool>,
}

/// Returns the lines that are printed.
pub(crate) fn steps_of<'r>(
    alloc: Global,
    documents: &[Document],
    reasons: &'r [Reason<'r>],
) -> Result<Vec<Step>> {
    let Joint {
        sources,
        is_left_out,
    } = joint_of(alloc, documents, reasons)?;
    let mut order = Vec::with_capacity(alloc, reasons.len())?;
    let mut numbers = zeros(alloc, reasons.len())?;
    for (place, reason) in reasons.iter().enumerate() {
        if is_step(reason) && !is_marked(&is_left_out, place) {
            number_all(&mut order, &mut numbers, places_at(&sources, place))?;
            number_all(&mut order, &mut numbers, &[place])?;
        }
    }
    let mut steps = Vec::with_capacity(alloc, order.len())?;
    for place in order {
        let numbers = numbers_at(alloc, &numbers, places_at(&sources, place))?;
        steps.push(Step { place, numbers })?;
    }
    Ok(steps)
}

/// Leaves lines out, the first ones first.
fn joint_of<'r>(alloc: Global, documents: &[Document], reasons: &'r [Reason<'r>]) -> Result<Joint> {
    let uses = uses_of(alloc, reasons)?;
    let mut sources: Vec<Vec<usize>> = Vec::with_capacity(alloc, reasons.len())?;
    let mut is_left_out = Vec::with_capacity(alloc, reasons.len())?;
    for reason in reasons {
        let mut own = firsts_of(alloc, reasons, lines_of(reason))?;
        let others = dispensable(alloc, documents, reasons, &uses, lines_of(reason))?;
        take_in(alloc, &mut own, &others, &sources, &mut is_left_out)?;
        for other in &others {
            take_in(alloc, &mut own, &[*other], &sources, &mut is_left_out)?;
        }
        sources.push(own)?;
        is_left_out.push(false)?;
    }
    Ok(Joint {
        sources,
        is_left_out,
    })
}

/// Replaces lines by those from which they follow, if all are few then.
fn take_in(
    alloc: Global,
    own: &mut Vec<usize>,
    lines: &[usize],
    sources: &[Vec<usize>],
    is_left_out: &mut [bool],
) -> Result<()> {
    let mut others = Vec::with_capacity(alloc, own.len())?;
    for place in own.iter() {
        if lines.contains(place) {
            add_all(&mut others, places_at(sources, *place))?;
        } else {
            add_all(&mut others, &[*place])?;
        }
    }
    if others.len() <= MOST {
        mem::swap(own, &mut others);
        mark_all(is_left_out, lines);
    }
    Ok(())
}

/// Those of some lines that one line alone needs, and that follow from others by a name that has a document. Of a name without a document
/// a line says that it has none.
fn dispensable<'r>(
    alloc: Global,
    documents: &[Document],
    reasons: &'r [Reason<'r>],
    uses: &[usize],
    lines: &[usize],
) -> Result<Vec<usize>> {
    let mut found = Vec::new(alloc);
    for line in lines {
        if let Some(Source::Lines(name, _)) = source_at(reasons, *line) {
            if number_at(uses, *line) == 1 && has_document(documents, name) {
                found.push(*line)?;
            }
        }
    }
    Ok(found)
}

fn source_at<'r>(reasons: &'r [Reason<'r>], line: usize) -> Option<&'r Source<'r>> {
    match reasons.get(line) {
        Some(reason) => Some(&reason.source),
        None => None,
    }
}

/// Returns `true` for a line that follows from others.
fn is_step(reason: &Reason<'_>) -> bool {
    match &reason.source {
        Source::Lines(..) => true,
        Source::Root(_) | Source::Versions(..) => false,
    }
}

/// For each reason how many reasons follow from it.
fn uses_of(alloc: Global, reasons: &[Reason<'_>]) -> Result<Vec<usize>> {
    let mut uses = zeros(alloc, reasons.len())?;
    for reason in reasons {
        for line in lines_of(reason) {
            if let Some(count) = uses.get_mut(*line) {
                *count = count.saturating_add(1);
            }
        }
    }
    Ok(uses)
}

/// The places of lines; of what versions of a name ask for that of the first line about them.
fn firsts_of<'r>(alloc: Global, reasons: &'r [Reason<'r>], lines: &[usize]) -> Result<Vec<usize>> {
    let mut places = Vec::with_capacity(alloc, lines.len())?;
    for line in lines {
        add_all(&mut places, &[first_of(reasons, *line)])?;
    }
    Ok(places)
}

/// The place of a line, or of the first one about what versions of the same name ask for.
fn first_of<'r>(reasons: &'r [Reason<'r>], line: usize) -> usize {
    let Some(name) = asker_at(reasons, line) else {
        return line;
    };
    for place in 0..line {
        if let Some(other) = asker_at(reasons, place) {
            if other == name {
                return place;
            }
        }
    }
    line
}

/// The name about whose versions a line is.
fn asker_at<'r>(reasons: &'r [Reason<'r>], line: usize) -> Option<&'r str> {
    match source_at(reasons, line) {
        Some(Source::Versions(name, _, _)) => Some(*name),
        Some(Source::Root(_) | Source::Lines(..)) | None => None,
    }
}

// ---- lists

/// Adds places, unless they are there.
fn add_all(places: &mut Vec<usize>, others: &[usize]) -> Result<()> {
    for other in others {
        if !places.contains(other) {
            places.push(*other)?;
        }
    }
    Ok(())
}

/// Gives places the next numbers, unless they have one.
fn number_all(order: &mut Vec<usize>, numbers: &mut [usize], places: &[usize]) -> Result<()> {
    for place in places {
        if let Some(number) = numbers.get_mut(*place) {
            if *number == 0 {
                order.push(*place)?;
                *number = order.len();
            }
        }
    }
    Ok(())
}

/// The numbers at places, the least one first.
fn numbers_at(alloc: Global, numbers: &[usize], places: &[usize]) -> Result<Vec<usize>> {
    let mut found = Vec::with_capacity(alloc, places.len())?;
    for place in places {
        found.push(number_at(numbers, *place))?;
    }
    found.sort_unstable();
    Ok(found)
}

fn number_at(numbers: &[usize], place: usize) -> usize {
    match numbers.get(place) {
        Some(number) => *number,
        None => 0,
    }
}

fn places_at(lists: &[Vec<usize>], place: usize) -> &[usize] {
    match lists.get(place) {
        Some(list) => list.as_slice(),
        None => &[],
    }
}

fn zeros(alloc: Global, count: usize) -> Result<Vec<usize>> {
    let mut numbers = Vec::with_capacity(alloc, count)?;
    for _ in 0..count {
        numbers.push(0)?;
    }
    Ok(numbers)
}

fn mark_all(marks: &mut [bool], places: &[usize]) {
    for place in places {
        if let Some(mark) = marks.get_mut(*place) {
            *mark = true;
        }
    }
}

fn is_marked(marks: &[bool], place: usize) -> bool {
    match marks.get(place) {
        Some(mark) => *mark,
        None => false,
    }
}
