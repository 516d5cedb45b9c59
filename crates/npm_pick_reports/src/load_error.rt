//! Why the document of a package was not read.
ghost use Rattle.std.specs.Prelude.{Some, string_bytes};
ghost use Rattle.command_lines.specs.Shown as Shown;

use command_lines::{InputError, write_quoted};
use std::fmt;
use thiserror::Error;

/// The name of a package, in the line of an error.
#[derive(Debug, PartialEq, Eq, Drop)]
pub struct PackageName {
    pub text: String,
}

/// Prints the name between quotation marks, in printable ASCII alone. Format options such as a width are ignored.
impl fmt::Display for PackageName {
    ghost output = { λ name. Some (Shown.quoted (string_bytes name.text)) };

    fn fmt<W: fmt::Write>(&self, f: &mut fmt::Formatter<W>) -> fmt::Result {
        write_quoted(f, self.text.as_bytes())
    }
}

/// Why the document of a package was not read.
#[derive(Debug, PartialEq, Eq, Drop, Error)]
pub enum LoadError {
    /// The document of this package was not read.
    #[error("the document of {0}: {1}")]
    Package(PackageName, InputError),
    /// An allocation failed.
    #[error("out of memory")]
    Memory,
}
