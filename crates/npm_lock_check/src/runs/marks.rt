//! Which exceptions may apply to something: each excepted hit marks its exception, so that no exception is looked up among all hits.

use crate::StopError;
use npm_lock_reports::{Excepted, Report};
use std::alloc::{AllocError, Global};

/// For each of so many exceptions, whether it applied to a package of a lock file, or a lock file was not checked.
pub fn marks_of(
    alloc: Global,
    count: usize,
    outcomes: &[Result<Report, StopError>],
) -> Result<Vec<bool>, AllocError> {
    let mut marks = all_alike(alloc, false, count)?;
    for outcome in outcomes {
        match outcome {
            Ok(report) => mark_all(&mut marks, &report.excepted),
            Err(_) => return all_alike(alloc, true, count),
        }
    }
    Ok(marks)
}

/// So many marks, all of them set, or none.
fn all_alike(alloc: Global, are_set: bool, count: usize) -> Result<Vec<bool>, AllocError> {
    vec![in alloc; are_set; count]
}

/// Marks the exceptions by which these are excepted.
fn mark_all(marks: &mut Vec<bool>, excepted: &[Excepted]) {
    for one in excepted {
        mark(marks, one.place);
    }
}

/// Marks one exception.
fn mark(marks: &mut Vec<bool>, place: usize) {
    if let Some(mark) = marks.get_mut(place) {
        *mark = true;
    }
}
