//! The settings of a check.
use crate::checks::format::Format;
use crate::checks::kinds::Kinds;
use node_semver::Version;
use npm_advisories::{Date, Severity};
use npm_lock_reports::{Exceptions, Omissions};
use serde_json::Value;

/// The settings of a check.
#[derive(Clone, Copy, Drop)]
pub struct Wanted<'a, 'f> {
    /// The manifest of the root.
    pub manifest: Option<&'a Value>,
    /// Mismatches count for the status.
    pub exact: bool,
    /// Security advisories, as `npm_advisories` reads them.
    pub advisories: Option<&'a Value>,
    /// The text of their file, or the empty one.
    pub advisories_text: &'a str,
    /// The day on which advisories are asked: those that are withdrawn by then do not count.
    pub today: Date,
    /// Advisories that are less severe are left out.
    pub level: Severity,
    /// Advisories that do not count for a package.
    pub exceptions: Option<Exceptions<'a>>,
    /// The groups of packages that are left out.
    pub omissions: Omissions,
    /// The version of Node that each package is checked with.
    pub node: Option<&'a Version>,
    /// The kinds of problems that are left out.
    pub ignored: Kinds<'a>,
    /// What is suspicious in where packages come from counts.
    pub sources: bool,
    /// The registries that packages come from, or none if any will do.
    pub registries: &'a [String],
    /// What is not checked counts for the status.
    pub strict: bool,
    /// Dependencies that are not checked are listed too.
    pub unchecked: bool,
    pub format: Format,
    /// The absolute path of the folder in which npm finds the lock file, or the empty one if it is not known.
    pub project: &'a str,
    /// The path of the lock file, as findings name it.
    pub file: &'f str,
    /// The lock file is one of several, and each line names it.
    pub named: bool,
}
