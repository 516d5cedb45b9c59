//! A step of a path, with a name of its own.

use crate::faults::Result;
use command_lines::write_quoted;
use json_places::Step;
use std::alloc::Global;
use std::fmt;

/// A step of a path, as [`Step`] is one, with a name of its own.
#[derive(Debug, PartialEq, Eq, Drop)]
pub enum ShownStep {
    /// To the member of this name.
    Member(String),
    /// To the item at this position of a list, counted from 0.
    Item(usize),
}

/// Prints `"packages"`, or `[3]`. Format options such as a width are ignored.
impl fmt::Display for ShownStep {
    fn fmt<W: fmt::Write>(&self, f: &mut fmt::Formatter<W>) -> fmt::Result {
        match self {
            ShownStep::Member(name) => write_quoted(f, name.as_bytes()),
            ShownStep::Item(position) => write!(f, "[{position}]"),
        }
    }
}

/// Copies of these steps.
pub(crate) fn copies(alloc: Global, steps: &[Step<'_>]) -> Result<Vec<ShownStep>> {
    let mut made = Vec::new(alloc);
    for step in steps {
        made.push(copy(alloc, *step)?)?;
    }
    Ok(made)
}

/// A copy of a step.
fn copy(alloc: Global, step: Step<'_>) -> Result<ShownStep> {
    match step {
        Step::Member(name) => Ok(ShownStep::Member(String::from_str(alloc, name)?)),
        Step::Item(position) => Ok(ShownStep::Item(position)),
    }
}
