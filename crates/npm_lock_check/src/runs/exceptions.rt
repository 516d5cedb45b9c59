//! What is said of exceptions after all lock files are checked.

use crate::StopError;
use crate::runs::marks::marks_of;
use npm_lock_reports::{Date, Exception, ExceptionSentence, Report};
use std::alloc::{AllocError, Global};

/// Returns what is said of each exception that is over, or that applied to nothing, in their order. Nothing is said of one that may apply
/// to a lock file that was not checked, unless it is over.
///
/// # Errors
///
/// An allocation failed.
///
/// # Memory
///
/// Allocates the list, and for the time of the call a mark for each exception.
pub fn sentences_of<'a>(
    alloc: Global,
    exceptions: &'a [Exception],
    today: Date,
    outcomes: &[Result<Report, StopError>],
) -> Result<Vec<ExceptionSentence<'a>>, AllocError> {
    let marks = marks_of(alloc, exceptions.len(), outcomes)?;
    let mut said = Vec::new(alloc);
    for place in 0..exceptions.len() {
        let may_apply = match marks.get(place) {
            Some(mark) => *mark,
            None => true,
        };
        if let Some(sentence) = sentence_of(&exceptions[place], today, may_apply) {
            said.push(sentence)?;
        }
    }
    Ok(said)
}

/// What is said of an exception that may apply to something, or that applied to nothing.
fn sentence_of<'a>(
    exception: &'a Exception,
    today: Date,
    may_apply: bool,
) -> Option<ExceptionSentence<'a>> {
    let is_over = exception.is_over(today);
    if is_over || !may_apply {
        Some(ExceptionSentence { exception, is_over })
    } else {
        None
    }
}
