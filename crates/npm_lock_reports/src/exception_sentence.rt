//! What is said of exceptions that except nothing, for a person.

use crate::advisory_exceptions::{Date, Exception};
use command_lines::write_shown;
use std::fmt;

/// An exception that excepts nothing: it is over, or it is about no advisory that hits a package.
#[derive(Clone, Copy)]
pub struct ExceptionSentence<'a> {
    pub exception: &'a Exception,
    pub is_over: bool,
}

/// Prints `exception: GHSA-1 of lodash is used up, since its last day was 2026-01-01: only used to build`, or `exception: GHSA-1 of
/// lodash applies to nothing: only used to build`, in printable ASCII alone. Format options such as a width are ignored.
impl fmt::Display for ExceptionSentence<'_> {
    fn fmt<W: fmt::Write>(&self, f: &mut fmt::Formatter<W>) -> fmt::Result {
        write_named(f, self.exception)?;
        write_standing(f, self.exception, self.is_over)?;
        write_why(f, self.exception)
    }
}

/// Prints the exception.
fn write_named<W: fmt::Write>(f: &mut fmt::Formatter<W>, exception: &Exception) -> fmt::Result {
    f.write_str("exception: ")?;
    write_shown(f, exception.id.as_bytes())?;
    f.write_str(" of ")?;
    write_shown(f, exception.name.as_bytes())
}

/// Prints its reason.
fn write_why<W: fmt::Write>(f: &mut fmt::Formatter<W>, exception: &Exception) -> fmt::Result {
    f.write_str(": ")?;
    write_shown(f, exception.reason.as_bytes())
}

/// Prints why it excepts nothing.
fn write_standing<W: fmt::Write>(
    f: &mut fmt::Formatter<W>,
    exception: &Exception,
    is_over: bool,
) -> fmt::Result {
    if is_over {
        write_over(f, exception.until)
    } else {
        f.write_str(" applies to nothing")
    }
}

/// Prints that an exception is over.
fn write_over<W: fmt::Write>(f: &mut fmt::Formatter<W>, until: Option<Date>) -> fmt::Result {
    match until {
        Some(last) => write!(f, " is used up, since its last day was {last}"),
        None => f.write_str(" is used up"),
    }
}
