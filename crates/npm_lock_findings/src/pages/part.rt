//! The part of one lock file.
ghost use Rattle.std.specs.Prelude.{IfOk, map};
ghost use Rattle.std.specs.List.Sorted.{IsPermutation};
ghost use Rattle.npm_lock_findings.specs.Forms.{message_of, messages_in, piece_value};
ghost use Rattle.npm_lock_findings.specs.Private.Said.{row_message, said_in};

use crate::annotations::findings_of;
use crate::finding::Finding;
use crate::forms::{Form, Piece, push_pieces};
use crate::pages::format::PageFormat;
use crate::pages::junit::suite_pieces;
use crate::pages::order::{Row, rows_of};
use crate::pages::section::section_pieces;
use crate::pages::subject::Subject;
use npm_advisories::Found;
use npm_lock_reports::{Report, things_of};
use std::alloc::{AllocError, Global};

/// Returns the part of a lock file at this path, with this text.
///
/// On a page it is a section that says whether the check of the file failed, with the counts of the report and its findings: the packages
/// that an advisory hits by the severity of the advisory, the problems, the mismatches, what is not checked and what is excepted. They
/// stand under the names of packages, with the message, the line and the column of each. In a JUnit report it is a suite with a test case
/// for each finding, which failed if the finding is an error and was skipped if it is a warning or a note, or with one that passed if
/// there is none.
///
/// # Errors
///
/// An allocation failed.
///
/// # Memory
///
/// Allocates the part, and for the time of the call the findings, lists as long as they are, and a list of the pieces.
pub fn part_of<'a>(
    alloc: Global,
    format: PageFormat,
    text: &str,
    file: &'a str,
    report: &'a Report,
    found: &'a [Found<'a, 'a>],
) -> Result<Vec<u8>, AllocError> {
    let findings = findings_of(alloc, text, file, report, found)?;
    let made = part_with(alloc, format, file, report, found, &findings)?;
    Ok(made)
}

/// Returns the part of a lock file with these findings, which may live for a shorter time than the rest.
fn part_with<'a, 'f>(
    alloc: Global,
    format: PageFormat,
    file: &'a str,
    report: &'a Report,
    found: &'a [Found<'a, 'a>],
    findings: &'f [Finding<'f>],
) -> Result<Vec<u8>, AllocError> {
    part_in(alloc, format, file, report, found, findings)
}

/// Returns the part of a lock file with these findings.
fn part_in<'a>(
    alloc: Global,
    format: PageFormat,
    file: &'a str,
    report: &'a Report,
    found: &'a [Found<'a, 'a>],
    findings: &'a [Finding<'a>],
) -> Result<Vec<u8>, AllocError> {
    let pieces = part_pieces(alloc, format, file, report, found, findings)?;
    let mut part = Vec::new(alloc);
    push_pieces(&mut part, Form::Markup, &pieces)?;
    Ok(part)
}

/// Returns the pieces of the part of a lock file with these findings, with the message of each finding once.
///
/// # Errors
///
/// An allocation failed.
pub fn part_pieces<'a>(
    alloc: Global,
    format: PageFormat,
    file: &'a str,
    report: &'a Report,
    found: &'a [Found<'a, 'a>],
    findings: &'a [Finding<'a>],
) -> Result<Vec<Piece<'a>>, AllocError>
    ensures { IfOk result (λ pieces. IsPermutation (map message_of findings.now) (messages_in (map piece_value pieces.items))) }
{
    let subjects = subjects_of(alloc, report, found)?;
    let rows = rows_of(alloc, &subjects, findings)?;
    pieces_of(alloc, format, file, report, &subjects, &rows, findings)
}

/// Returns what each finding of a report and of the packages that are hit is about.
fn subjects_of<'a>(
    alloc: Global,
    report: &'a Report,
    found: &'a [Found<'a, 'a>],
) -> Result<Vec<Subject<'a>>, AllocError> {
    let mut subjects = Vec::new(alloc);
    let things = things_of(alloc, report, found)?;
    for thing in &things {
        subjects.push(Subject::of_thing(*thing))?;
    }
    for one in &report.excepted {
        subjects.push(Subject::of_excepted(one))?;
    }
    Ok(subjects)
}

/// Returns the pieces of a part.
fn pieces_of<'a>(
    alloc: Global,
    format: PageFormat,
    file: &'a str,
    report: &Report,
    subjects: &[Subject<'a>],
    rows: &[Row<'a, 'a>],
    findings: &'a [Finding<'a>],
) -> Result<Vec<Piece<'a>>, AllocError>
    requires { IsPermutation (map message_of findings.now) (map row_message rows.now) }
    ensures { IfOk result (λ pieces. IsPermutation (map message_of findings.now) (said_in pieces.items)) }
{
    match format {
        PageFormat::Html => section_pieces(alloc, file, report, subjects, rows),
        PageFormat::Junit => suite_pieces(alloc, file, subjects, findings),
    }
}
