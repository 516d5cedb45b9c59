//! What a finding is about.

use crate::annotations::most_severe;
use crate::pages::order::Part;
use npm_advisories::{About, Severity};
use npm_lock::Dependency;
use npm_lock_reports::{Excepted, Thing, Unread, last_name};

/// What a finding is about.
#[derive(Clone, Copy, Drop)]
pub struct Subject<'a> {
    pub part: Part,
    /// The heading that it stands under: the name of a package.
    pub group: &'a str,
    /// The folder of a package, `""` for the root.
    pub folder: &'a str,
    /// The advisories, if it is about some.
    pub hits: Option<&'a [About<'a>]>,
    /// The id that an exception has of an advisory, or `""`.
    pub exception: &'a str,
}

impl<'a> Subject<'a> {
    /// Returns what is about no advisory.
    pub fn new(part: Part, group: &'a str, folder: &'a str) -> Subject<'a> {
        Subject {
            part,
            group,
            folder,
            hits: None,
            exception: "",
        }
    }

    /// Returns what a thing is about.
    pub fn of_thing(thing: Thing<'a>) -> Subject<'a> {
        match thing {
            Thing::Mismatch(mismatch) => Subject::new(
                Part::Mismatches,
                mismatch.name.as_str(),
                mismatch.from.as_str(),
            ),
            Thing::Problem(problem) => of_dependency(Part::Problems, &problem.dependency),
            Thing::Hit(found) => Subject {
                part: part_of_severity(most_severe(&found.hits)),
                group: found.name,
                folder: found.folder,
                hits: Some(found.hits.as_slice()),
                exception: "",
            },
            Thing::Source(source) => {
                let folder = source.folder.as_str();
                Subject::new(Part::Problems, last_name(folder).unwrap_or(folder), folder)
            }
            Thing::LeftOut(dependency) => of_dependency(Part::Problems, dependency),
            Thing::Unchecked(unchecked) => of_dependency(Part::Unchecked, &unchecked.dependency),
            Thing::Unread(unread) => {
                Subject::new(Part::Unchecked, unread_group(unread), unread.folder())
            }
        }
    }

    /// Returns what a hit that is excepted is about.
    pub fn of_excepted(excepted: &'a Excepted) -> Subject<'a> {
        Subject {
            part: Part::Excepted,
            group: excepted.name.as_str(),
            folder: excepted.folder.as_str(),
            hits: None,
            exception: excepted.id.as_str(),
        }
    }
}

/// Returns what a dependency is about.
fn of_dependency<'a>(part: Part, dependency: &'a Dependency) -> Subject<'a> {
    Subject::new(part, dependency.name.as_str(), dependency.from.as_str())
}

/// Returns the heading of something that was not looked at.
fn unread_group(unread: &Unread) -> &str {
    match unread {
        Unread::Manifest(folder) => folder.text.as_str(),
        Unread::Workspaces => "workspaces",
        Unread::Root => "the root",
    }
}

/// Returns the part of packages whose most severe advisory has this severity.
fn part_of_severity(severity: Severity) -> Part {
    match severity {
        Severity::Critical => Part::Critical,
        Severity::High => Part::High,
        Severity::Moderate => Part::Moderate,
        Severity::Low => Part::Low,
        Severity::Info => Part::Info,
        Severity::Unknown => Part::Unrated,
    }
}
