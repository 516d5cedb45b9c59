//! The lines on standard error.

use crate::runs::{lock_subject, sentences_of, subject_of};
use crate::{Arguments, StopError};
use npm_lock_reports::{Excepted, Exceptions, Reading, Report, push_excepted_sentence};
use std::alloc::{AllocError, Global};

/// Writes the lines of each lock file on standard error, and then those of exceptions that applied to nothing. Returns `true` if all were
/// written.
pub fn write_lines(
    rt: &HostRuntime,
    asked: &Arguments<'_>,
    outcomes: &[Result<Report, StopError>],
    exceptions: Option<Exceptions<'_>>,
) -> bool {
    let mut is_said = true;
    for (file, outcome) in asked.files.iter().zip(outcomes) {
        let line = match outcome {
            Ok(report) if asked.has_several() => eprintln!(rt; "{}{report}", lock_subject(*file)),
            Ok(report) => eprintln!(rt; "{report}"),
            Err(error) => eprintln!(rt;
                "npm_lock_check: {}{error}",
                subject_of(asked.paths, *file, error)
            ),
        };
        if line.is_err() {
            is_said = false;
        }
        if let Ok(report) = outcome {
            let file = if asked.has_several() {
                Some(*file)
            } else {
                None
            };
            is_said = write_excepted(rt, file, report) && is_said;
        }
    }
    match exceptions {
        Some(exceptions) => write_unused(rt, outcomes, exceptions) && is_said,
        None => is_said,
    }
}

/// Writes a line for each hit of a lock file that is excepted. Returns `true` if all were written.
fn write_excepted(rt: &HostRuntime, file: Option<&str>, report: &Report) -> bool {
    let mut is_said = true;
    for excepted in &report.excepted {
        let Ok(sentence) = excepted_line(rt.alloc(), excepted) else {
            return false;
        };
        let line = match file {
            Some(file) => eprintln!(rt; "{}{sentence}", lock_subject(file)),
            None => eprintln!(rt; "{sentence}"),
        };
        if line.is_err() {
            is_said = false;
        }
    }
    is_said
}

/// The line of a hit that is excepted.
fn excepted_line(alloc: Global, excepted: &Excepted) -> Result<String, AllocError> {
    let mut line = Vec::from_slice(alloc, b"excepted: ")?;
    push_excepted_sentence(alloc, &mut line, Reading::Terminal, excepted)?;
    String::from_utf8(line).map_err(|_| AllocError)
}

/// Writes a line for each exception that is over or applied to nothing. Returns `true` if all were written.
fn write_unused(
    rt: &HostRuntime,
    outcomes: &[Result<Report, StopError>],
    exceptions: Exceptions<'_>,
) -> bool {
    let Ok(sentences) = sentences_of(rt.alloc(), exceptions.list, exceptions.today, outcomes) else {
        return false;
    };
    let mut is_said = true;
    for sentence in &sentences {
        let line = eprintln!(rt; "{sentence}");
        if line.is_err() {
            is_said = false;
        }
    }
    is_said
}
