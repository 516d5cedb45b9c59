//! Which advisory has a fault, and where in a file it is, in the line of an error.

use command_lines::write_quoted;
use npm_advisories::FaultKind;
use std::fmt;

/// The name that a list of advisories stands under, and the id of the one with a fault. In OSV's form the name is that of the first
/// installed package that the advisory is about, and empty if there is none.
#[derive(Debug, PartialEq, Eq, Drop)]
pub struct ListName {
    pub text: String,
    pub id: Option<String>,
}

/// Prints `, of "lodash", with id "GHSA-1"`, without the empty name and an id that is absent. Format options such as a width are
/// ignored.
impl fmt::Display for ListName {
    fn fmt<W: fmt::Write>(&self, f: &mut fmt::Formatter<W>) -> fmt::Result {
        write_list(f, self.text.as_str())?;
        write_id(f, &self.id)
    }
}

/// Prints the name of a list, if it is not empty.
fn write_list<W: fmt::Write>(f: &mut fmt::Formatter<W>, name: &str) -> fmt::Result {
    if name.is_empty() {
        return Ok(());
    }
    f.write_str(", of ")?;
    write_quoted(f, name.as_bytes())
}

/// Prints the id of an advisory, if it has one.
fn write_id<W: fmt::Write>(f: &mut fmt::Formatter<W>, id: &Option<String>) -> fmt::Result {
    match id {
        Some(id) => {
            f.write_str(", with id ")?;
            write_quoted(f, id.as_bytes())
        }
        None => Ok(()),
    }
}

/// A fault of advisories, and where in the file it is.
#[derive(Clone, Copy, Drop)]
pub struct PlacedFault<'a> {
    pub kind: FaultKind,
    pub name: &'a ListName,
    /// The place of the advisory in its list.
    pub place: usize,
}

/// Prints the fault, and where it is: `; advisory 1, counted from 0, of "lodash", with id "7"`. Of a list that is none it prints the name, and of
/// a file that is none no more. Format options such as a width are ignored.
impl<'a> fmt::Display for PlacedFault<'a> {
    fn fmt<W: fmt::Write>(&self, f: &mut fmt::Formatter<W>) -> fmt::Result {
        let kind = self.kind;
        write!(f, "{kind}")?;
        write_place(f, kind, self.name, self.place)
    }
}

/// Prints where a fault of this kind is.
fn write_place<W: fmt::Write>(
    f: &mut fmt::Formatter<W>,
    kind: FaultKind,
    name: &ListName,
    place: usize,
) -> fmt::Result {
    match kind {
        FaultKind::File => Ok(()),
        FaultKind::List => {
            f.write_str("; the name is ")?;
            write_quoted(f, name.text.as_bytes())
        }
        _ => write!(f, "; advisory {place}, counted from 0{name}"),
    }
}
