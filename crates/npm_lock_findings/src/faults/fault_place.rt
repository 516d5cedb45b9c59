//! A fault, and where it is in the text of a file.
ghost use Rattle.std.specs.Prelude.{◌≡◌, IfOk};

use crate::faults::fault_path::FaultPath;
use crate::faults::{Result, ShownPlace};
use npm_packages::Fault;
use std::alloc::Global;
use std::fmt;

/// A fault of a file, and where it is in the file's text. It prints the fault, the path and the place:
/// `a dependency of a package is no string: "packages", "node_modules/a", "dependencies", "b" (line 12, column 8)`.
#[derive(Debug, PartialEq, Eq, Drop)]
pub struct FaultPlace {
    pub fault: Fault,
    /// The path of members, as in [`FaultPath`], and the place of the last name.
    pub place: ShownPlace,
}

impl FaultPlace {
    /// Returns the place of a fault in this text: of the last name of its path, or of the beginning of the text if the path has no name
    /// or is not found there. The text is read once.
    ///
    /// # Errors
    ///
    /// An allocation failed.
    ///
    /// # Memory
    ///
    /// Allocates what [`ShownPlace::of_path`](crate::ShownPlace::of_path) does, and a copy of the path.
    pub fn in_text(alloc: Global, text: &str, found: &FaultPath<'_>) -> Result<FaultPlace>
        ensures { IfOk result (λ made. made.fault ≡ found.now.fault) }
    {
        Ok(FaultPlace {
            fault: found.fault,
            place: ShownPlace::of_names(alloc, text, &found.names)?,
        })
    }
}

/// Prints the fault, and where it is. Format options such as a width are ignored.
impl fmt::Display for FaultPlace {
    fn fmt<W: fmt::Write>(&self, f: &mut fmt::Formatter<W>) -> fmt::Result {
        let fault = self.fault;
        write!(f, "{fault}{}", self.place)
    }
}
