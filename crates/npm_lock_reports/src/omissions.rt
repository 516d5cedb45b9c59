//! Which packages are left out.
ghost use Rattle.std.specs.Prelude.{◌≡◌, ◌||◌};
ghost use Rattle.serde_json.specs.View.{view};
ghost use Rattle.npm_lock.specs.Outcomes.{dependency_value};
ghost use Rattle.npm_lock_reports.specs.Omissions as Omitted;

use crate::workspace::is_in_project;
use npm_lock::{Dependency, is_marked, member_at};
use npm_texts::has_true;
use serde_json::Value;

/// The groups of packages that are left out.
#[derive(Clone, Copy, Debug, PartialEq, Eq, Drop)]
pub struct Omissions {
    /// Packages for development alone.
    pub dev: bool,
    /// Packages that need not be installed.
    pub optional: bool,
}

impl Omissions {
    /// Returns `true` if a group is left out.
    pub fn has_some(self) -> bool
        ensures { result ≡ (self.dev || self.optional) }
    {
        self.dev || self.optional
    }

    /// Returns `true` if the package in this folder of the lock file is left out. The root never is, and neither is what npm installs
    /// for a linked folder that is no workspace.
    ///
    /// # Source
    ///
    /// npm's documentation of "npm audit" and of "npm ci", "omit".
    pub fn has(self, lock: &Value, folder: &str, member: &Value) -> bool
        ensures { result ≡ Omitted.is_omitted self (view lock.now) folder.now (view member.now) }
    {
        !folder.is_empty() && self.has_marked(member) && is_in_project(lock, folder)
    }

    /// Returns `true` if a package with the marks of this one is left out.
    pub(crate) fn has_marked(self, member: &Value) -> bool
        ensures { result ≡ Omitted.is_marked_out self (view member.now) }
    {
        (self.dev && has_true(member, "dev"))
            || (self.optional && has_true(member, "optional"))
            || (self.dev && self.optional && has_true(member, "devOptional"))
    }

    /// Returns `true` if the package in this folder of the lock file is left out.
    pub(crate) fn has_at(self, lock: &Value, folder: &str) -> bool
        ensures { result ≡ Omitted.is_omitted_at self (view lock.now) folder.now }
    {
        match member_at(lock, folder) {
            Some(member) => self.has(lock, folder, member),
            None => false,
        }
    }

    /// Returns `true` if the dependency is left out: the package that asks is, or the dependency is in a group that is.
    pub(crate) fn has_dependency(self, lock: &Value, dependency: &Dependency) -> bool
        ensures { result ≡ Omitted.is_left_out self (view lock.now) (dependency_value dependency.now) }
    {
        let from = dependency.from.as_str();
        self.has_at(lock, from)
            || (self.dev && is_so(lock, from, "dev", dependency.dev))
            || (self.optional && is_so(lock, from, "optional", dependency.optional))
    }
}

/// Returns `true` if the dependency itself is so. That of a root with this mark is not, since npm reads no marks of the root.
fn is_so(lock: &Value, from: &str, mark: &str, is_so: bool) -> bool
    ensures { result ≡ Omitted.is_so mark.now (view lock.now) from.now is_so }
{
    is_so && !(from.is_empty() && is_marked(lock, from, mark))
}
