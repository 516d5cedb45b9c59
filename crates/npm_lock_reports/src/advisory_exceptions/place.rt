//! Where in a file of exceptions a fault is.
//!
//! The values of a file have no places, so keys are looked for in its lines. The place is told to a person, and nothing rests on it.
ghost use Rattle.std.specs.Prelude.{◌≡◌};
ghost use Rattle.npm_lock_reports.specs.Private.Placed.{without_place};

use crate::advisory_exceptions::error::{ExceptionFault, ExceptionsError};

/// Returns the error with the line and the column of its fault.
pub(crate) fn placed(text: &str, error: ExceptionsError) -> ExceptionsError
    ensures { without_place result ≡ without_place error }
{
    match error {
        ExceptionsError::Faulty(fault, _, _) => {
            let (line, column) = place_of(text, wanted_of(&fault));
            ExceptionsError::Faulty(fault, line, column)
        }
        error => error,
    }
}

/// A key of the file, or of the exception at this place.
#[derive(Clone, Copy)]
struct Wanted<'f> {
    place: Option<usize>,
    key: &'f str,
}

/// The key that a fault is about.
fn wanted_of(fault: &ExceptionFault) -> Wanted<'_> {
    let (place, key) = match fault {
        ExceptionFault::Key(key) => (None, key.as_str()),
        ExceptionFault::List => (None, "exceptions"),
        ExceptionFault::Table(place) => (Some(*place), "exceptions"),
        ExceptionFault::ExceptionKey(place, key) => (Some(*place), key.as_str()),
        ExceptionFault::Id(place) => (Some(*place), "id"),
        ExceptionFault::Package(place) => (Some(*place), "package"),
        ExceptionFault::Reason(place) => (Some(*place), "reason"),
        ExceptionFault::Until(place) => (Some(*place), "until"),
    };
    Wanted { place, key }
}

/// How many exceptions have begun, and what a line belongs to.
#[derive(Clone, Copy)]
struct Reached {
    exceptions: usize,
    part: Part,
}

/// What a key belongs to.
#[derive(Clone, Copy, PartialEq, Eq)]
enum Part {
    File,
    Exception,
    Other,
}

/// The line and the column of a key. If it is missing, those of its exception, or else those of `exceptions`, or else the beginning.
fn place_of(text: &str, wanted: Wanted<'_>) -> (usize, usize) {
    let mut found = (1, 1);
    let mut reached = Reached {
        exceptions: 0,
        part: Part::File,
    };
    let mut mark = None;
    let mut number: usize = 0;
    for line in text.split('\n') {
        number = number.saturating_add(1);
        if mark.is_none() {
            if let Some(name) = name_of(line.trim()) {
                reached = after(reached, name);
                if is_wanted(reached, name, wanted) {
                    return (number, column_of(line));
                }
                if is_above(reached, name, wanted) {
                    found = (number, column_of(line));
                }
            }
        }
        mark = mark_after(mark, line);
    }
    found
}

/// The column of the first character of a line that is no white space.
fn column_of(line: &str) -> usize {
    let white = line.len().saturating_sub(line.trim_start().len());
    white.saturating_add(1)
}

/// The name of a table or of a key, at the beginning of a line.
#[derive(Clone, Copy)]
struct Name<'t> {
    is_table: bool,
    text: &'t str,
}

/// The name in a line: in `[[exceptions]]`, in `[a]` or before `=`.
fn name_of(line: &str) -> Option<Name<'_>> {
    if line.starts_with("#") {
        return None;
    }
    if let Some(header) = line.strip_prefix("[") {
        let inner = header.strip_prefix("[").unwrap_or(header);
        let (text, _) = inner.split_once("]")?;
        return Some(Name {
            is_table: true,
            text: unquoted(text.trim()),
        });
    }
    let (text, _) = line.split_once("=")?;
    Some(Name {
        is_table: false,
        text: unquoted(text.trim()),
    })
}

/// A name without the quotation marks around it.
fn unquoted(name: &str) -> &str {
    let name = name.strip_prefix("\"").unwrap_or(name);
    name.strip_suffix("\"").unwrap_or(name)
}

/// What is reached at a line with this name.
fn after(reached: Reached, name: Name<'_>) -> Reached {
    if !name.is_table {
        return reached;
    }
    if name.text == "exceptions" {
        Reached {
            exceptions: reached.exceptions.saturating_add(1),
            part: Part::Exception,
        }
    } else {
        Reached {
            exceptions: reached.exceptions,
            part: Part::Other,
        }
    }
}

/// Returns `true` if the name is the key that is wanted.
fn is_wanted(reached: Reached, name: Name<'_>, wanted: Wanted<'_>) -> bool {
    name.text == wanted.key
        && match wanted.place {
            None => name.is_table || reached.part == Part::File,
            Some(place) => !name.is_table && is_in(reached, place),
        }
}

/// Returns `true` if the name is that of the exception that the wanted key belongs to, or that of all exceptions.
fn is_above(reached: Reached, name: Name<'_>, wanted: Wanted<'_>) -> bool {
    let Some(place) = wanted.place else {
        return false;
    };
    if name.is_table {
        is_in(reached, place)
    } else {
        name.text == "exceptions" && reached.part == Part::File
    }
}

/// Returns `true` if the exception at this place is reached.
fn is_in(reached: Reached, place: usize) -> bool {
    reached.part == Part::Exception && reached.exceptions.saturating_sub(1) == place
}

/// The quotation mark of a text of several lines that a line leaves open: three of them begin and end it.
fn mark_after(mark: Option<u8>, line: &str) -> Option<u8> {
    let mut mark = mark;
    let mut last: u8 = 0;
    let mut run: usize = 0;
    for byte in line.as_bytes() {
        if *byte == last {
            run = run.saturating_add(1);
        } else {
            run = 1;
        }
        last = *byte;
        if run == 3 && (last == b'"' || last == b'\'') {
            mark = mark_with(mark, last);
            run = 0;
        }
    }
    mark
}

/// The mark that is open after three marks of this kind.
fn mark_with(mark: Option<u8>, kind: u8) -> Option<u8> {
    match mark {
        None => Some(kind),
        Some(open) if open == kind => None,
        Some(open) => Some(open),
    }
}
