//! The parts of a page, and the order of findings in it.
ghost use Rattle.std.specs.Prelude.{◌≡◌, IfOk, map};
ghost use Rattle.std.specs.List.Sorted.{IsPermutation};
ghost use Rattle.npm_lock_findings.specs.Forms.{message_of};
ghost use Rattle.npm_lock_findings.specs.Private.Said.{row_message};

use crate::finding::{Finding, Level};
use crate::pages::subject::Subject;
use std::alloc::{AllocError, Global};

/// A part of what is said of a file. The parts stand in this order.
#[derive(Clone, Copy, Drop)]
pub enum Part {
    /// Packages that an advisory of critical severity hits.
    Critical,
    High,
    Moderate,
    Low,
    Info,
    /// Packages that an advisory hits whose severity is not known.
    Unrated,
    Problems,
    Mismatches,
    Unchecked,
    /// Packages that an advisory hits which is excepted.
    Excepted,
}

impl Part {
    /// Returns the heading of the part.
    pub fn heading(self) -> &'static str {
        match self {
            Part::Critical => "Advisories: critical",
            Part::High => "Advisories: high",
            Part::Moderate => "Advisories: moderate",
            Part::Low => "Advisories: low",
            Part::Info => "Advisories: info",
            Part::Unrated => "Advisories: severity not known",
            Part::Problems => "Problems",
            Part::Mismatches => "Mismatches with a manifest",
            Part::Unchecked => "Not checked",
            Part::Excepted => "Excepted",
        }
    }

    /// Returns the word by which links name the part.
    pub fn word(self) -> &'static str {
        match self {
            Part::Critical => "critical",
            Part::High => "high",
            Part::Moderate => "moderate",
            Part::Low => "low",
            Part::Info => "info",
            Part::Unrated => "unrated",
            Part::Problems => "problems",
            Part::Mismatches => "mismatches",
            Part::Unchecked => "unchecked",
            Part::Excepted => "excepted",
        }
    }

    /// Returns the place of the part in their order, counted from 0.
    pub fn place(self) -> u8 {
        match self {
            Part::Critical => 0,
            Part::High => 1,
            Part::Moderate => 2,
            Part::Low => 3,
            Part::Info => 4,
            Part::Unrated => 5,
            Part::Problems => 6,
            Part::Mismatches => 7,
            Part::Unchecked => 8,
            Part::Excepted => 9,
        }
    }
}

/// The row of a finding on a page. Rows are ordered by their parts, then by their headings, and then by their places in the file.
#[derive(PartialEq, Eq, PartialOrd, Ord, Drop)]
pub struct Row<'a, 'f> {
    pub part: u8,
    pub group: &'a str,
    pub line: usize,
    pub column: usize,
    /// The index of the finding.
    pub index: usize,
    pub rule: &'f str,
    pub message: &'f [u8],
    pub is_error: bool,
}

/// Returns the rows of findings about these subjects, sorted. A finding without a subject stands among the problems.
pub fn rows_of<'a, 'f>(
    alloc: Global,
    subjects: &[Subject<'a>],
    findings: &'f [Finding<'f>],
) -> Result<Vec<Row<'a, 'f>>, AllocError>
    ensures { IfOk result (λ rows. IsPermutation (map message_of findings.now) (map row_message rows.items)) }
{
    let mut rows = unsorted(alloc, subjects, findings)?;
    rows.sort()?;
    Ok(rows)
}

/// Returns the rows of findings in the order of the findings.
fn unsorted<'a, 'f>(
    alloc: Global,
    subjects: &[Subject<'a>],
    findings: &'f [Finding<'f>],
) -> Result<Vec<Row<'a, 'f>>, AllocError>
    ensures { IfOk result (λ rows. map row_message rows.items ≡ map message_of findings.now) }
{
    let mut rows = Vec::new(alloc);
    for index in 0..findings.len() {
        rows.push(row_of(subject_at(subjects, index), &findings[index], index))?;
    }
    Ok(rows)
}

/// Returns the row of a finding.
fn row_of<'a, 'f>(subject: Subject<'a>, finding: &'f Finding<'f>, index: usize) -> Row<'a, 'f>
    ensures { row_message result ≡ message_of finding.now }
{
    Row {
        part: subject.part.place(),
        group: subject.group,
        line: finding.line,
        column: finding.column,
        index,
        rule: finding.rule,
        message: &finding.message,
        is_error: is_error(finding.level),
    }
}

/// Returns `true` if a level is that of errors.
pub fn is_error(level: Level) -> bool {
    match level {
        Level::Error => true,
        Level::Warning | Level::Note => false,
    }
}

/// Returns the subject at an index, or one of no name among the problems.
pub fn subject_at<'a>(subjects: &[Subject<'a>], index: usize) -> Subject<'a> {
    match subjects.get(index) {
        Some(subject) => *subject,
        None => Subject::new(Part::Problems, "", ""),
    }
}
