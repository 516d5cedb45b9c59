//! How many of each thing a report has.

use npm_lock_reports::Report;

/// How many there are of something.
#[derive(Clone, Copy, Drop)]
pub struct Count {
    /// What is counted.
    pub what: &'static str,
    /// How many there are, if they were looked for.
    pub number: Option<usize>,
}

/// Returns the counts of a report.
pub fn counts_of(report: &Report) -> [Count; 8] {
    let problems = &report.problems;
    [
        known("packages", problems.packages),
        known("dependencies", problems.dependencies),
        looked_for("hit by advisories", report.audited, report.hits),
        looked_for("excepted", report.audited, report.excepted.len()),
        known("problems", problems.list.len()),
        looked_for("mismatches", report.compared, report.mismatches.len()),
        known("not checked", problems.unchecked.len()),
        known("not read", report.unread.len()),
    ]
}

/// Returns a count of what is always looked for.
fn known(what: &'static str, number: usize) -> Count {
    Count {
        what,
        number: Some(number),
    }
}

/// Returns a count of what may not have been looked for.
fn looked_for(what: &'static str, is_looked_for: bool, number: usize) -> Count {
    Count {
        what,
        number: if is_looked_for { Some(number) } else { None },
    }
}
