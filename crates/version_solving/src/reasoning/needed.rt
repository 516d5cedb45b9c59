//! The lines that the last one needs.

use crate::{Reason, Source};
use std::alloc::{AllocError, Global};

/// Marks the lines from which a line follows.
fn mark(used: &mut Vec<bool>, reason: &Reason) {
    if let Source::Lines(_, lines) = &reason.source {
        for line in lines {
            if let Some(place) = used.get_mut(*line) {
                *place = true;
            }
        }
    }
}

/// Returns for each line whether the last one needs it.
fn used_of(alloc: Global, reasons: &[Reason]) -> Result<Vec<bool>, AllocError> {
    let mut used = Vec::new(alloc);
    for _ in reasons {
        used.push(false)?;
    }
    if let Some(last) = used.last_mut() {
        *last = true;
    }
    for line in (0..reasons.len()).rev() {
        if let Some(true) = used.get(line) {
            mark(&mut used, &reasons[line]);
        }
    }
    Ok(used)
}

/// Returns the source with other numbers of lines.
fn renumbered(alloc: Global, source: Source, numbers: &[usize]) -> Result<Source, AllocError> {
    match source {
        Source::Root(demand) => Ok(Source::Root(demand)),
        Source::Candidates(name, wish) => Ok(Source::Candidates(name, wish)),
        Source::Lines(name, lines) => {
            let mut found = Vec::new(alloc);
            for line in &lines {
                if let Some(number) = numbers.get(*line) {
                    found.push(*number)?;
                }
            }
            Ok(Source::Lines(name, found))
        }
    }
}

/// Returns the lines that the last one needs.
pub fn needed_lines(alloc: Global, reasons: Vec<Reason>) -> Result<Vec<Reason>, AllocError> {
    let used = used_of(alloc, &reasons)?;
    let mut numbers = Vec::new(alloc);
    let mut kept: Vec<Reason> = Vec::new(alloc);
    for reason in reasons {
        let line = numbers.len();
        numbers.push(kept.len())?;
        if let Some(true) = used.get(line) {
            let source = renumbered(alloc, reason.source, &numbers)?;
            kept.push(Reason {
                source,
                terms: reason.terms,
            })?;
        }
    }
    Ok(kept)
}
