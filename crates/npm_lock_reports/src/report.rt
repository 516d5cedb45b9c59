//! The report of a lock file, and the line of its counts.
ghost use Rattle.std.specs.Prelude.{◌≡◌, ◌↔◌, IsTrue};
ghost use Rattle.npm_lock_reports.specs.Report.{IsChecked, IsClean};

use crate::Excepted;
use crate::unread::Unread;
use npm_lock::{Dependency, Mismatch, Problems, Source};
use std::fmt;

/// The report of a lock file.
#[derive(Debug, PartialEq, Eq, Drop)]
pub struct Report {
    /// The manifest and the lock file were compared.
    pub compared: bool,
    /// The mismatches of the manifest, but not if their kind is left out.
    pub mismatches: Vec<Mismatch>,
    /// Mismatches count for the status.
    pub exact: bool,
    /// What is not checked counts for the status.
    pub strict: bool,
    /// What was not looked at: manifests of linked packages, workspaces on disk, and what the root depends on.
    pub unread: Vec<Unread>,
    /// The problems of the lock file but those of kinds that are left out, with the counts of all.
    pub problems: Problems,
    /// What is suspicious in where packages come from, if it counts.
    pub sources: Vec<Source>,
    /// What is needed, but left out.
    pub needed: Vec<Dependency>,
    /// Advisories were looked up.
    pub audited: bool,
    /// How many advisories were read.
    pub advisories: usize,
    /// How many installed packages an advisory hits.
    pub hits: usize,
    /// What is excepted, and does not count.
    pub excepted: Vec<Excepted>,
    /// How many packages are left out, if a group is.
    pub omitted: Option<usize>,
    /// A line was written for each dependency that is not checked.
    pub listed: bool,
}

impl Report {
    /// Returns `true` if nothing was found that counts for the status.
    pub fn is_clean(&self) -> bool
        ensures { IsTrue result ↔ IsClean self.now }
    {
        let is_same = !self.exact || self.mismatches.is_empty();
        is_same
            && self.problems.list.is_empty()
            && self.sources.is_empty()
            && self.needed.is_empty()
            && self.hits == 0
            && self.is_checked()
    }

    /// Returns `true` if nothing that is not checked counts for the status.
    fn is_checked(&self) -> bool
        ensures { IsTrue result ↔ IsChecked self.now }
    {
        !self.strict || (self.problems.unchecked.is_empty() && self.unread.is_empty())
    }

    /// How many manifests were not read.
    fn unread_manifests(&self) -> usize {
        let mut count: usize = 0;
        for unread in &self.unread {
            if let Unread::Manifest(_) = unread {
                count = count.saturating_add(1);
            }
        }
        count
    }

    /// Returns `true` if workspaces were not looked for.
    fn leaves_workspaces(&self) -> bool {
        let unread = &self.unread;
        unread.iter().any(|one| matches!(one, Unread::Workspaces))
    }

    /// Returns `true` if the lock file has no root.
    fn has_no_root(&self) -> bool {
        let unread = &self.unread;
        unread.iter().any(|one| matches!(one, Unread::Root))
    }
}

/// Prints the counts. Those of mismatches and of packages that are hit are left out if nothing was looked for. If dependencies
/// that are not checked were not listed, names the option that lists them. Says so if workspaces were not looked for, if the lock
/// file has no root, if something is suspicious in where packages come from, and if something is needed, but left out. Last are the number of exceptions that applied, if one did, and that of packages that are left out, if a group is.
impl fmt::Display for Report {
    fn fmt<W: fmt::Write>(&self, f: &mut fmt::Formatter<W>) -> fmt::Result {
        let problems = &self.problems;
        write!(
            f,
            "{} packages, {} dependencies, {} problems, {} not checked",
            problems.packages,
            problems.dependencies,
            problems.list.len(),
            problems.unchecked.len()
        )?;
        if !self.listed && !problems.unchecked.is_empty() {
            write!(f, " (see --unchecked)")?;
        }
        if self.compared {
            write!(f, ", {} mismatches", self.mismatches.len())?;
        }
        let manifests = self.unread_manifests();
        if manifests > 0 {
            write!(f, ", {manifests} manifests not read (see --outside)")?;
        }
        let see = if self.listed {
            ""
        } else {
            " (see --unchecked)"
        };
        if self.leaves_workspaces() {
            write!(f, ", workspaces not looked for{see}")?;
        }
        if self.has_no_root() {
            write!(f, ", the root not known{see}")?;
        }
        if !self.sources.is_empty() {
            write!(f, ", {} suspicious sources", self.sources.len())?;
        }
        if !self.needed.is_empty() {
            write!(f, ", {} needed but omitted", self.needed.len())?;
        }
        if self.audited {
            let read = if self.advisories == 1 {
                "advisory"
            } else {
                "advisories"
            };
            write!(f, ", {} hit, {} {read} read", self.hits, self.advisories)?;
        }
        if !self.excepted.is_empty() {
            write!(f, ", {} excepted", self.excepted.len())?;
        }
        match self.omitted {
            Some(omitted) => write!(f, ", {omitted} packages omitted"),
            None => Ok(()),
        }
    }
}
