//! The report of a lock file as a JSON object.

use crate::call_error::CallError;
use crate::text::{joined, json_lines, json_string, push_item, word_of};
use npm_advisories::Found;
use npm_lock::Problems;
use npm_lock_reports::{Excepted, LineStyle, Report, ReportFormat, lines_of};
use std::alloc::{AllocError, Global};

/// A report in which nothing was looked for.
pub(crate) fn empty_report(alloc: Global) -> Report {
    Report {
        compared: false,
        mismatches: Vec::new(alloc),
        exact: false,
        strict: false,
        unread: Vec::new(alloc),
        problems: Problems {
            packages: 0,
            dependencies: 0,
            list: Vec::new(alloc),
            unchecked: Vec::new(alloc),
        },
        sources: Vec::new(alloc),
        needed: Vec::new(alloc),
        audited: false,
        advisories: 0,
        hits: 0,
        excepted: Vec::new(alloc),
        omitted: None,
        listed: false,
    }
}

/// The object of a report, of which the member of this name has what was found.
pub(crate) fn report_text(
    alloc: Global,
    report: &Report,
    found: &[Found<'_, '_>],
    name: &'static str,
) -> Result<String, CallError> {
    let style = LineStyle {
        format: ReportFormat::Json,
        file: None,
    };
    let lines = lines_of(alloc, report, found, style)?;
    let counts = if report.audited {
        audit_counts(alloc, report)?
    } else {
        check_counts(alloc, report)?
    };
    let items = json_lines(alloc, lines)?;
    let pieces = [
        "{\"clean\":",
        word_of(report.is_clean()),
        counts.as_str(),
        ",\"",
        name,
        "\":[",
        items.as_str(),
        "]}",
    ];
    Ok(joined(alloc, &pieces)?)
}

/// How much was checked, and how much was not.
fn check_counts(alloc: Global, report: &Report) -> Result<String, AllocError> {
    let dependencies = report.problems.dependencies.to_string(alloc)?;
    let packages = report.problems.packages.to_string(alloc)?;
    let unchecked = report.problems.unchecked.len().to_string(alloc)?;
    let pieces = [
        ",\"dependencies\":",
        dependencies.as_str(),
        ",\"not_checked\":",
        unchecked.as_str(),
        ",\"packages\":",
        packages.as_str(),
    ];
    joined(alloc, &pieces)
}

/// How many advisories were read, and what is excepted.
fn audit_counts(alloc: Global, report: &Report) -> Result<String, AllocError> {
    let advisories = report.advisories.to_string(alloc)?;
    let excepted = excepted_text(alloc, &report.excepted)?;
    let pieces = [
        ",\"advisories\":",
        advisories.as_str(),
        ",\"excepted\":[",
        excepted.as_str(),
        "]",
    ];
    joined(alloc, &pieces)
}

/// What is excepted, as items of a JSON list.
fn excepted_text(alloc: Global, all: &[Excepted]) -> Result<String, AllocError> {
    let mut items = String::new(alloc);
    for one in all {
        push_item(&mut items, one_excepted(alloc, one)?.as_str())?;
    }
    Ok(items)
}

/// An advisory that is excepted for a package.
fn one_excepted(alloc: Global, one: &Excepted) -> Result<String, AllocError> {
    let folder = json_string(alloc, one.folder.as_str())?;
    let id = json_string(alloc, one.id.as_str())?;
    let name = json_string(alloc, one.name.as_str())?;
    let reason = json_string(alloc, one.reason.as_str())?;
    let pieces = [
        "{\"folder\":",
        folder.as_str(),
        ",\"id\":",
        id.as_str(),
        ",\"name\":",
        name.as_str(),
        ",\"reason\":",
        reason.as_str(),
        "}",
    ];
    joined(alloc, &pieces)
}
