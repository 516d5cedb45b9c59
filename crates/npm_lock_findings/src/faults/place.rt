//! A path in a text, and its place.

use crate::faults::Result;
use crate::faults::step::{ShownStep, copies};
use json_places::{Path, Place, places_of};
use std::alloc::Global;
use std::fmt;

/// A path in a text, and its place. It prints what follows the sentence that it is about:
/// `: "packages", "node_modules/a" (line 12, column 8)`. The items of a list are counted from 0: `: "affected", [3] (line 12, column 8)`.
#[derive(Debug, PartialEq, Eq, Drop)]
pub struct ShownPlace {
    /// The steps from the value of the text inwards.
    pub steps: Vec<ShownStep>,
    /// The line of what the last step leads to, counted from 1.
    pub line: usize,
    /// The column of it, counted from 1 in characters.
    pub column: usize,
}

impl ShownPlace {
    /// Returns the place of what a path leads to in this text, or that of the beginning of the text if the path has no step or leads to
    /// nothing there. The text is read once.
    ///
    /// # Errors
    ///
    /// An allocation failed.
    ///
    /// # Memory
    ///
    /// Allocates the steps with their names, and while the place is looked up what [`places_of`](json_places::places_of) does.
    pub fn of_path(alloc: Global, text: &str, path: Path<'_>) -> Result<ShownPlace> {
        let steps = copies(alloc, &path.steps)?;
        let place = place_in(alloc, text, path)?;
        Ok(ShownPlace {
            steps,
            line: place.line,
            column: place.column,
        })
    }

    /// The same of the member that these names lead to.
    pub(crate) fn of_names(alloc: Global, text: &str, names: &[&str]) -> Result<ShownPlace> {
        ShownPlace::of_path(alloc, text, Path::of_members(alloc, names, 0, 0)?)
    }

    /// A place without a path: the beginning of the file. Does not allocate.
    pub fn of_file(alloc: Global) -> ShownPlace {
        ShownPlace {
            steps: Vec::new(alloc),
            line: 1,
            column: 1,
        }
    }
}

/// The place of what a path leads to, or of the beginning.
fn place_in(alloc: Global, text: &str, path: Path<'_>) -> Result<Place> {
    let found = places_of(alloc, text, &[path])?;
    let Some(Some(place)) = found.first() else {
        return Ok(Place::START);
    };
    Ok(*place)
}

/// Prints the path and the place. Format options such as a width are ignored.
impl fmt::Display for ShownPlace {
    fn fmt<W: fmt::Write>(&self, f: &mut fmt::Formatter<W>) -> fmt::Result {
        let mut before = ": ";
        for step in &self.steps {
            write!(f, "{before}{step}")?;
            before = ", ";
        }
        let line = self.line;
        let column = self.column;
        write!(f, " (line {line}, column {column})")
    }
}
