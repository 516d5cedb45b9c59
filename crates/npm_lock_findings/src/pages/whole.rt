//! What stands before and after the parts of lock files.
ghost use Rattle.std.specs.Prelude.{◌≡◌, ◌++◌, ◌∷◌, [], IfOk, OnOk, map};
ghost use Rattle.npm_lock_findings.specs.Private.Said.{said_in};
ghost use Rattle.npm_lock_findings.specs.Forms.{message_of};

use crate::finding::Finding;
use crate::forms::Piece;
use crate::pages::format::PageFormat;
use crate::pages::head::{HEAD, REST};
use std::alloc::{AllocError, Global};

/// The name of the program.
pub const TOOL: &str = "npm_lock_check";

/// How the check of a lock file ended.
#[derive(Clone, Copy, Drop)]
pub struct CheckedFile<'a> {
    /// The path of the lock file.
    pub file: &'a str,
    /// The exit status for this file alone: 0 if nothing was found, 1 if something was, and 2 if it was not checked.
    pub status: u8,
}

/// Returns the pieces before the parts of a page or of a report, with those of the files that were refused.
pub fn begin_pieces<'a>(
    alloc: Global,
    format: PageFormat,
    checked: &[CheckedFile<'a>],
    refused: &'a [Finding<'a>],
    is_complete: bool,
) -> Result<Vec<Piece<'a>>, AllocError>
    ensures { IfOk result (λ pieces. said_in pieces.items ≡ map message_of refused.now) }
{
    let mut pieces = Vec::new(alloc);
    match format {
        PageFormat::Html => {
            push_verdict(&mut pieces, checked, is_complete)?;
            push_contents(&mut pieces, checked, refused)?;
            push_stops(&mut pieces, refused)?;
        }
        PageFormat::Junit => {
            push_report(&mut pieces)?;
            push_errors(&mut pieces, refused)?;
        }
    }
    Ok(pieces)
}

/// Adds what is said on a page of the files that were refused.
fn push_stops<'a>(pieces: &mut Vec<Piece<'a>>, refused: &'a [Finding<'a>]) -> Result<(), AllocError>
    ensures { OnOk result (said_in pieces.new.items ≡ said_in pieces.old.items ++ map message_of refused.now) }
{
    for finding in refused {
        push_stop(pieces, finding)?;
    }
    Ok(())
}

/// Adds the suites of the files that were refused.
fn push_errors<'a>(
    pieces: &mut Vec<Piece<'a>>,
    refused: &'a [Finding<'a>],
) -> Result<(), AllocError>
    ensures { OnOk result (said_in pieces.new.items ≡ said_in pieces.old.items ++ map message_of refused.now) }
{
    for finding in refused {
        push_error(pieces, finding)?;
    }
    Ok(())
}

/// Adds the head of a page, and in its first line whether the check failed.
fn push_verdict<'a>(
    pieces: &mut Vec<Piece<'a>>,
    checked: &[CheckedFile<'a>],
    is_complete: bool,
) -> Result<(), AllocError>
    ensures { OnOk result (said_in pieces.new.items ≡ said_in pieces.old.items) }
{
    let said = if has_passed(checked, is_complete) {
        ("The check passed", "fine")
    } else {
        ("The check failed", "bad")
    };
    let one = [
        Piece::Fixed(HEAD),
        Piece::Fixed(said.0),
        Piece::Fixed(REST),
        Piece::Fixed("<h1 class=\""),
        Piece::Fixed(said.1),
        Piece::Fixed("\">"),
        Piece::Fixed(said.0),
        Piece::Fixed("</h1>\n"),
        Piece::Fixed(completeness(is_complete)),
    ];
    pieces.extend_from_slice(&one)
}

/// Returns `true` if each lock file was checked, and nothing was found that counts.
fn has_passed(checked: &[CheckedFile<'_>], is_complete: bool) -> bool {
    for one in checked {
        if one.status != 0 {
            return false;
        }
    }
    is_complete
}

/// Whether every lock file was checked.
fn completeness(is_complete: bool) -> &'static str {
    if is_complete {
        "<p>Every lock file was checked.</p>\n"
    } else {
        "<p class=\"bad\">Not every lock file was checked.</p>\n"
    }
}

/// Adds the list of lock files, with links to their sections and to what was refused.
fn push_contents<'a>(
    pieces: &mut Vec<Piece<'a>>,
    checked: &[CheckedFile<'a>],
    refused: &'a [Finding<'a>],
) -> Result<(), AllocError>
    ensures { OnOk result (said_in pieces.new.items ≡ said_in pieces.old.items) }
{
    pieces.extend_from_slice(&[Piece::Fixed("<nav>\n<ul>\n")])?;
    push_refused_links(pieces, refused)?;
    push_checked_links(pieces, checked)?;
    pieces.extend_from_slice(&[Piece::Fixed("</ul>\n</nav>\n")])
}

/// Adds links to what was refused.
fn push_refused_links<'a>(
    pieces: &mut Vec<Piece<'a>>,
    refused: &'a [Finding<'a>],
) -> Result<(), AllocError>
    ensures { OnOk result (said_in pieces.new.items ≡ said_in pieces.old.items) }
{
    for finding in refused {
        push_link(pieces, finding.file, ": refused")?;
    }
    Ok(())
}

/// Adds links to the sections of lock files.
fn push_checked_links<'a>(
    pieces: &mut Vec<Piece<'a>>,
    checked: &[CheckedFile<'a>],
) -> Result<(), AllocError>
    ensures { OnOk result (said_in pieces.new.items ≡ said_in pieces.old.items) }
{
    for one in checked {
        if one.status < 2 {
            push_link(pieces, one.file, outcome(one.status))?;
        }
    }
    Ok(())
}

/// How a lock file that was checked stands in the list.
fn outcome(status: u8) -> &'static str {
    if status == 0 { ": passed" } else { ": failed" }
}

/// Adds the link to the section of a file, and these words.
fn push_link<'a>(
    pieces: &mut Vec<Piece<'a>>,
    file: &'a str,
    said: &'static str,
) -> Result<(), AllocError>
    ensures { OnOk result (said_in pieces.new.items ≡ said_in pieces.old.items) }
{
    let one = [
        Piece::Fixed("<li><a href=\"#"),
        Piece::Address(file.as_bytes()),
        Piece::Fixed("\">"),
        Piece::Text(file.as_bytes()),
        Piece::Fixed("</a>"),
        Piece::Fixed(said),
        Piece::Fixed("</li>\n"),
    ];
    pieces.extend_from_slice(&one)
}

/// Adds what is said on a page of a file that was refused.
fn push_stop<'a>(pieces: &mut Vec<Piece<'a>>, refused: &'a Finding<'a>) -> Result<(), AllocError>
    ensures { OnOk result (said_in pieces.new.items ≡ said_in pieces.old.items ++ (message_of refused.now ∷ [])) }
{
    let one = [
        Piece::Fixed("<section id=\""),
        Piece::Address(refused.file.as_bytes()),
        Piece::Fixed("\">\n<h2>"),
        Piece::Text(refused.file.as_bytes()),
        Piece::Fixed("</h2>\n<p class=\"bad\">Not checked</p>\n<p class=\"row\">"),
        Piece::Message(&refused.message),
        Piece::Fixed("</p>\n</section>\n"),
    ];
    pieces.extend_from_slice(&one)
}

/// Adds the beginning of a JUnit report.
fn push_report<'a>(pieces: &mut Vec<Piece<'a>>) -> Result<(), AllocError>
    ensures { OnOk result (said_in pieces.new.items ≡ said_in pieces.old.items) }
{
    let one = [
        Piece::Fixed("<?xml version=\"1.0\" encoding=\"UTF-8\"?>\n<testsuites name=\""),
        Piece::Fixed(TOOL),
        Piece::Fixed("\">\n"),
    ];
    pieces.extend_from_slice(&one)
}

/// Adds the suite of a file that was refused: one test case with an error.
fn push_error<'a>(pieces: &mut Vec<Piece<'a>>, refused: &'a Finding<'a>) -> Result<(), AllocError>
    ensures { OnOk result (said_in pieces.new.items ≡ said_in pieces.old.items ++ (message_of refused.now ∷ [])) }
{
    let file = refused.file.as_bytes();
    let one = [
        Piece::Fixed("<testsuite name=\""),
        Piece::Text(file),
        Piece::Fixed(
            "\" tests=\"1\" failures=\"0\" errors=\"1\" skipped=\"0\">\n<testcase classname=\"",
        ),
        Piece::Fixed(TOOL),
        Piece::Fixed("\" name=\"the file is checked\" file=\""),
        Piece::Text(file),
        Piece::Fixed("\"><error type=\"refused\">"),
        Piece::Message(&refused.message),
        Piece::Fixed("</error></testcase>\n</testsuite>\n"),
    ];
    pieces.extend_from_slice(&one)
}

/// Returns the pieces after the parts of a page or of a report of this version of the program.
pub fn end_pieces(format: PageFormat, version: &str) -> [Piece<'_>; 5]
    ensures { said_in result ≡ [] }
{
    match format {
        PageFormat::Html => [
            Piece::Fixed("<p class=\"soft\">Written by "),
            Piece::Fixed(TOOL),
            Piece::Fixed(" "),
            Piece::Text(version.as_bytes()),
            Piece::Fixed(".</p>\n</main>\n</body>\n</html>\n"),
        ],
        PageFormat::Junit => [
            Piece::Fixed("</testsuites>\n"),
            Piece::Fixed(""),
            Piece::Fixed(""),
            Piece::Fixed(""),
            Piece::Fixed(""),
        ],
    }
}
