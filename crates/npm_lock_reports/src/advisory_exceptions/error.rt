//! Why a file of exceptions was not read.
use command_lines::{InputError, Quoted};
use std::fmt;
use thiserror::Error;

/// What is wrong with a file that is TOML.
#[derive(Debug, PartialEq, Eq, Drop)]
pub enum ExceptionFault {
    /// A key at the top of the file is not `exceptions`.
    Key(String),
    /// `exceptions` is no list.
    List,
    /// The exception at this place is no table.
    Table(usize),
    /// A key of the exception at this place is not `id`, `package`, `reason` or `until`.
    ExceptionKey(usize, String),
    /// The exception at this place has no `id`, or one that is no string or is white space alone.
    Id(usize),
    /// The exception at this place has no `package`, or one that is no string or is white space alone.
    Package(usize),
    /// The exception at this place has no `reason`, or one that is no string or is white space alone.
    Reason(usize),
    /// `until` of the exception at this place is no day.
    Until(usize),
}

/// Why a file of exceptions was not read.
#[derive(Debug, PartialEq, Eq, Drop, Error)]
pub enum ExceptionsError {
    /// The file was not opened, or a read failed.
    #[error("{0}")]
    Input(InputError),
    /// What was read is no text in UTF-8.
    #[error("the exceptions are no TOML: they are not in UTF-8")]
    NoUtf8,
    /// What was read is no TOML, for this reason. The fault is in this line and column, which count from 1; a column counts characters.
    #[error("the exceptions are no TOML: {2} (line {0}, column {1})")]
    NoToml(usize, usize, String),
    /// The TOML is no exceptions. The fault is in this line and column.
    #[error("the exceptions are not read: {0} (line {1}, column {2})")]
    Faulty(ExceptionFault, usize, usize),
    /// The day is not known.
    #[error("the clock is not read, so it is not known which exceptions are over")]
    Clock,
    /// An allocation failed.
    #[error("out of memory")]
    Memory,
}

/// Prints the fault, and the place of the exception: `` `until` is no day, as 2027-03-01; exception 1, counted from 0 ``.
impl fmt::Display for ExceptionFault {
    fn fmt<W: fmt::Write>(&self, f: &mut fmt::Formatter<W>) -> fmt::Result {
        match self {
            ExceptionFault::Key(key) => write!(f, "no such key: {}", quoted(key)),
            ExceptionFault::List => write!(f, "`exceptions` is no list"),
            ExceptionFault::Table(place) => write!(f, "it is no table{}", At(*place)),
            ExceptionFault::ExceptionKey(place, key) => {
                write!(f, "no such key: {}{}", quoted(key), At(*place))
            }
            ExceptionFault::Id(place) => write!(f, "it has no text as `id`{}", At(*place)),
            ExceptionFault::Package(place) => write!(
                f,
                "it has no text as `package`{}",
                At(*place)
            ),
            ExceptionFault::Reason(place) => write!(f, "it has no text as `reason`{}", At(*place)),
            ExceptionFault::Until(place) => {
                write!(f, "`until` is no day, as 2027-03-01{}", At(*place))
            }
        }
    }
}

/// The place of an exception.
#[derive(Clone, Copy)]
struct At(usize);

impl fmt::Display for At {
    fn fmt<W: fmt::Write>(&self, f: &mut fmt::Formatter<W>) -> fmt::Result {
        write!(f, "; exception {}, counted from 0", self.0)
    }
}

/// A key in quotes, in printable ASCII alone.
fn quoted(key: &String) -> Quoted<'_> {
    Quoted { text: key.as_str() }
}
