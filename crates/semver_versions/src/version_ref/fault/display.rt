//! How faults of version texts are printed.
ghost use Rattle.semver_versions.specs.VersionFault.{fault_text};

use crate::VersionFault;
use std::error::Error;
use std::fmt;

/// Prints the kind of the fault, as a [`SemverError`](crate::SemverError) does.
///
/// # Examples
///
/// `Failed to parse version.` for the fault of `1.2`.
impl fmt::Display for VersionFault {
    ghost output = { fault_text };

    fn fmt<W: fmt::Write>(&self, f: &mut fmt::Formatter<W>) -> fmt::Result {
        self.kind().fmt(f)
    }
}

impl Error for VersionFault {}
