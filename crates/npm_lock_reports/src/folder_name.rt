//! The folder of a manifest, in the line of an error.

use command_lines::write_shown;
use std::fmt;

/// The folder of a workspace, or of another package that a link names.
#[derive(Debug, PartialEq, Eq, Drop)]
pub struct FolderName {
    pub text: String,
}

/// Prints the folder in printable ASCII alone, as sentences do. Format options such as a width are ignored.
impl fmt::Display for FolderName {
    fn fmt<W: fmt::Write>(&self, f: &mut fmt::Formatter<W>) -> fmt::Result {
        write_shown(f, self.text.as_bytes())
    }
}
