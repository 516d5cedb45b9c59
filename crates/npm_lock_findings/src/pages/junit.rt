//! A JUnit report, as Jenkins and GitLab read it.
//!
//! See docs/DECISIONS.md, "A warning is a test case that was skipped".
ghost use Rattle.std.specs.Prelude.{◌≡◌, ◌++◌, ◌∷◌, [], IfOk, OnOk, map};
ghost use Rattle.npm_lock_findings.specs.Private.Said.{said_in};
ghost use Rattle.npm_lock_findings.specs.Forms.{message_of};

use crate::finding::Finding;
use crate::forms::Piece;
use crate::pages::order::{is_error, subject_at};
use crate::pages::subject::Subject;
use crate::pages::whole::TOOL;
use std::alloc::{AllocError, Global};

/// Returns the pieces of the suite of a file that was checked: a test case for each finding, or one that passed if there is none. That of an
/// error failed, and that of a warning or a note was skipped, so that the suite has a failure exactly if there is an error.
pub fn suite_pieces<'a>(
    alloc: Global,
    file: &'a str,
    subjects: &[Subject<'a>],
    findings: &'a [Finding<'a>],
) -> Result<Vec<Piece<'a>>, AllocError>
    ensures { IfOk result (λ pieces. said_in pieces.items ≡ map message_of findings.now) }
{
    let failures = failures(findings);
    let head = [
        Piece::Fixed("<testsuite name=\""),
        Piece::Text(file.as_bytes()),
        Piece::Fixed("\" tests=\""),
        Piece::Number(findings.len().max(1)),
        Piece::Fixed("\" failures=\""),
        Piece::Number(failures),
        Piece::Fixed("\" errors=\"0\" skipped=\""),
        Piece::Number(findings.len().saturating_sub(failures)),
        Piece::Fixed("\">\n"),
    ];
    let mut pieces = Vec::new(alloc);
    pieces.extend_from_slice(&head)?;
    if findings.is_empty() {
        push_passed(&mut pieces, file)?;
    }
    push_cases(&mut pieces, subjects, findings)?;
    pieces.extend_from_slice(&[Piece::Fixed("</testsuite>\n")])?;
    Ok(pieces)
}

/// Adds a test case for each finding.
fn push_cases<'a>(
    pieces: &mut Vec<Piece<'a>>,
    subjects: &[Subject<'a>],
    findings: &'a [Finding<'a>],
) -> Result<(), AllocError>
    ensures { OnOk result (said_in pieces.new.items ≡ said_in pieces.old.items ++ map message_of findings.now) }
{
    for index in 0..findings.len() {
        push_case(pieces, subject_at(subjects, index), &findings[index])?;
    }
    Ok(())
}

/// Returns how many findings are errors.
fn failures(findings: &[Finding<'_>]) -> usize {
    let mut count: usize = 0;
    for finding in findings {
        if is_error(finding.level) {
            count = count.saturating_add(1);
        }
    }
    count
}

/// Adds a test case that passed.
fn push_passed<'a>(pieces: &mut Vec<Piece<'a>>, file: &'a str) -> Result<(), AllocError>
    ensures { OnOk result (said_in pieces.new.items ≡ said_in pieces.old.items) }
{
    let one = [
        Piece::Fixed("<testcase classname=\""),
        Piece::Fixed(TOOL),
        Piece::Fixed("\" name=\"nothing is found\" file=\""),
        Piece::Text(file.as_bytes()),
        Piece::Fixed("\"/>\n"),
    ];
    pieces.extend_from_slice(&one)
}

/// Adds the test case of a finding. Its name has no version, so that it stays as long as the finding does.
fn push_case<'a>(
    pieces: &mut Vec<Piece<'a>>,
    subject: Subject<'a>,
    finding: &'a Finding<'a>,
) -> Result<(), AllocError>
    ensures { OnOk result (said_in pieces.new.items ≡ said_in pieces.old.items ++ (message_of finding.now ∷ [])) }
{
    let one = [
        Piece::Fixed("<testcase classname=\""),
        Piece::Fixed(TOOL),
        Piece::Fixed("."),
        Piece::Text(finding.rule.as_bytes()),
        Piece::Fixed("\" name=\""),
        Piece::Text(finding.rule.as_bytes()),
        Piece::Fixed(": "),
        Piece::Text(subject.group.as_bytes()),
        Piece::Fixed(" in "),
        Piece::Fixed(root_words(subject.folder)),
        Piece::Text(subject.folder.as_bytes()),
        Piece::Fixed(if subject.exception.is_empty() {
            ""
        } else {
            ", excepted: "
        }),
        Piece::Text(subject.exception.as_bytes()),
        Piece::Fixed("\" file=\""),
        Piece::Text(finding.file.as_bytes()),
        Piece::Fixed("\" line=\""),
        Piece::Number(finding.line),
        Piece::Fixed("\">"),
    ];
    pieces.extend_from_slice(&one)?;
    push_outcome(pieces, finding)
}

/// What stands for the folder of the root, which is empty.
fn root_words(folder: &str) -> &'static str {
    if folder.is_empty() { "the root" } else { "" }
}

/// Adds how the test case of a finding ended, and the end of it.
fn push_outcome<'a>(pieces: &mut Vec<Piece<'a>>, finding: &'a Finding<'a>) -> Result<(), AllocError>
    ensures { OnOk result (said_in pieces.new.items ≡ said_in pieces.old.items ++ (message_of finding.now ∷ [])) }
{
    let one = if is_error(finding.level) {
        [
            Piece::Fixed("<failure type=\""),
            Piece::Text(finding.rule.as_bytes()),
            Piece::Fixed("\">"),
            Piece::Message(&finding.message),
            Piece::Fixed("</failure></testcase>\n"),
        ]
    } else {
        [
            Piece::Fixed("<skipped"),
            Piece::Fixed(""),
            Piece::Fixed(">"),
            Piece::Message(&finding.message),
            Piece::Fixed("</skipped></testcase>\n"),
        ]
    };
    pieces.extend_from_slice(&one)
}
