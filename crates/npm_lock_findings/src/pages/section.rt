//! The section of one lock file on a page.
//!
//! See docs/DECISIONS.md, "A page is made of fixed pieces and of texts".
ghost use Rattle.std.specs.Prelude.{◌≡◌, ◌++◌, ◌∷◌, [], IfOk, OnOk, map};
ghost use Rattle.npm_lock_findings.specs.Private.Said.{row_message, said_in};

use crate::forms::Piece;
use crate::pages::counts::{Count, counts_of};
use crate::pages::order::{Row, subject_at};
use crate::pages::subject::Subject;
use npm_advisories::About;
use npm_lock_reports::Report;
use std::alloc::{AllocError, Global};

/// Returns the pieces of a section: whether the check failed, the counts, a list of its parts, and the findings in their order. A heading
/// stands before the first finding of each part, and one before the first of each group.
pub fn section_pieces<'a>(
    alloc: Global,
    file: &'a str,
    report: &Report,
    subjects: &[Subject<'a>],
    rows: &[Row<'a, 'a>],
) -> Result<Vec<Piece<'a>>, AllocError>
    ensures { IfOk result (λ pieces. said_in pieces.items ≡ map row_message rows.now) }
{
    let head = [
        Piece::Fixed("<section id=\""),
        Piece::Address(file.as_bytes()),
        Piece::Fixed("\">\n<h2>"),
        Piece::Text(file.as_bytes()),
        Piece::Fixed("</h2>\n"),
        Piece::Fixed(verdict(report.is_clean())),
        Piece::Fixed("<div class=\"counts\">\n"),
    ];
    let mut pieces = Vec::new(alloc);
    pieces.extend_from_slice(&head)?;
    push_counts(&mut pieces, &counts_of(report))?;
    pieces.extend_from_slice(&[Piece::Fixed("</div>\n")])?;
    push_contents(&mut pieces, file, subjects, rows)?;
    push_rows(&mut pieces, file, subjects, rows)?;
    pieces.extend_from_slice(&[Piece::Fixed("</section>\n")])?;
    Ok(pieces)
}

/// Whether a lock file passed.
fn verdict(is_clean: bool) -> &'static str {
    if is_clean {
        "<p class=\"fine\">Passed</p>\n"
    } else {
        "<p class=\"bad\">Failed</p>\n"
    }
}

/// Adds counts.
fn push_counts<'a>(pieces: &mut Vec<Piece<'a>>, counts: &[Count]) -> Result<(), AllocError>
    ensures { OnOk result (said_in pieces.new.items ≡ said_in pieces.old.items) }
{
    for count in counts {
        push_count(pieces, *count)?;
    }
    Ok(())
}

/// Adds a count.
fn push_count<'a>(pieces: &mut Vec<Piece<'a>>, count: Count) -> Result<(), AllocError>
    ensures { OnOk result (said_in pieces.new.items ≡ said_in pieces.old.items) }
{
    let one = match count.number {
        Some(number) => [
            Piece::Fixed("<p><b>"),
            Piece::Number(number),
            Piece::Fixed("</b>"),
            Piece::Fixed(count.what),
            Piece::Fixed("</p>\n"),
        ],
        None => [
            Piece::Fixed("<p><b>"),
            Piece::Fixed("&ndash;"),
            Piece::Fixed("</b>"),
            Piece::Fixed(count.what),
            Piece::Fixed(": not looked for</p>\n"),
        ],
    };
    pieces.extend_from_slice(&one)
}

/// Adds the list of the parts, with links to them, or that nothing was found.
fn push_contents<'a>(
    pieces: &mut Vec<Piece<'a>>,
    file: &'a str,
    subjects: &[Subject<'a>],
    rows: &[Row<'a, 'a>],
) -> Result<(), AllocError>
    ensures { OnOk result (said_in pieces.new.items ≡ said_in pieces.old.items) }
{
    if rows.is_empty() {
        return pieces.extend_from_slice(&[Piece::Fixed(
            "<p class=\"fine\">Nothing was found.</p>\n",
        )]);
    }
    pieces.extend_from_slice(&[Piece::Fixed("<nav>\n<ul>\n")])?;
    push_links(pieces, file, subjects, rows)?;
    pieces.extend_from_slice(&[Piece::Fixed("</ul>\n</nav>\n")])
}

/// Adds a link for each part.
fn push_links<'a>(
    pieces: &mut Vec<Piece<'a>>,
    file: &'a str,
    subjects: &[Subject<'a>],
    rows: &[Row<'a, 'a>],
) -> Result<(), AllocError>
    ensures { OnOk result (said_in pieces.new.items ≡ said_in pieces.old.items) }
{
    for index in 0..rows.len() {
        if begins_part(rows, index) {
            let subject = subject_at(subjects, rows[index].index);
            push_link(pieces, file, subject)?;
        }
    }
    Ok(())
}

/// Returns `true` if the row at an index is the first one of its part.
fn begins_part(rows: &[Row<'_, '_>], index: usize) -> bool {
    match before(rows, index) {
        Some((last, row)) => last.part != row.part,
        None => true,
    }
}

/// Returns `true` if the row at an index is the first one under its heading.
fn begins_group(rows: &[Row<'_, '_>], index: usize) -> bool {
    match before(rows, index) {
        Some((last, row)) => last.part != row.part || last.group != row.group,
        None => true,
    }
}

/// Returns the row before an index, and the row there.
fn before<'r, 'a>(
    rows: &'r [Row<'a, 'a>],
    index: usize,
) -> Option<(&'r Row<'a, 'a>, &'r Row<'a, 'a>)> {
    let last = rows.get(index.checked_sub(1)?)?;
    let row = rows.get(index)?;
    Some((last, row))
}

/// Adds the link to the part of what a finding is about.
fn push_link<'a>(
    pieces: &mut Vec<Piece<'a>>,
    file: &'a str,
    subject: Subject<'a>,
) -> Result<(), AllocError>
    ensures { OnOk result (said_in pieces.new.items ≡ said_in pieces.old.items) }
{
    let one = [
        Piece::Fixed("<li><a href=\"#"),
        Piece::Address(file.as_bytes()),
        Piece::Fixed(":"),
        Piece::Fixed(subject.part.word()),
        Piece::Fixed("\">"),
        Piece::Fixed(subject.part.heading()),
        Piece::Fixed("</a></li>\n"),
    ];
    pieces.extend_from_slice(&one)
}

/// Adds the rows, with their headings.
fn push_rows<'a>(
    pieces: &mut Vec<Piece<'a>>,
    file: &'a str,
    subjects: &[Subject<'a>],
    rows: &[Row<'a, 'a>],
) -> Result<(), AllocError>
    ensures { OnOk result (said_in pieces.new.items ≡ said_in pieces.old.items ++ map row_message rows.now) }
{
    for index in 0..rows.len() {
        let row = &rows[index];
        let subject = subject_at(subjects, row.index);
        push_headings(pieces, file, rows, index, subject)?;
        push_row(pieces, file, subject, row)?;
    }
    Ok(())
}

/// Adds the headings before the row at an index.
fn push_headings<'a>(
    pieces: &mut Vec<Piece<'a>>,
    file: &'a str,
    rows: &[Row<'a, 'a>],
    index: usize,
    subject: Subject<'a>,
) -> Result<(), AllocError>
    ensures { OnOk result (said_in pieces.new.items ≡ said_in pieces.old.items) }
{
    if begins_part(rows, index) {
        push_part(pieces, file, subject)?;
    }
    if begins_group(rows, index) {
        push_group(pieces, subject)?;
    }
    Ok(())
}

/// Adds the heading of a part.
fn push_part<'a>(
    pieces: &mut Vec<Piece<'a>>,
    file: &'a str,
    subject: Subject<'a>,
) -> Result<(), AllocError>
    ensures { OnOk result (said_in pieces.new.items ≡ said_in pieces.old.items) }
{
    let one = [
        Piece::Fixed("<h3 id=\""),
        Piece::Address(file.as_bytes()),
        Piece::Fixed(":"),
        Piece::Fixed(subject.part.word()),
        Piece::Fixed("\">"),
        Piece::Fixed(subject.part.heading()),
        Piece::Fixed("</h3>\n"),
    ];
    pieces.extend_from_slice(&one)
}

/// Adds the heading of a group.
fn push_group<'a>(pieces: &mut Vec<Piece<'a>>, subject: Subject<'a>) -> Result<(), AllocError>
    ensures { OnOk result (said_in pieces.new.items ≡ said_in pieces.old.items) }
{
    let one = [
        Piece::Fixed("<h4>"),
        Piece::Text(subject.group.as_bytes()),
        Piece::Fixed("</h4>\n"),
    ];
    pieces.extend_from_slice(&one)
}

/// Adds the row of a finding: its message, its kind, its place, and the addresses of its advisories.
fn push_row<'a>(
    pieces: &mut Vec<Piece<'a>>,
    file: &'a str,
    subject: Subject<'a>,
    row: &Row<'a, 'a>,
) -> Result<(), AllocError>
    ensures { OnOk result (said_in pieces.new.items ≡ said_in pieces.old.items ++ (row_message row.now ∷ [])) }
{
    let one = [
        Piece::Fixed(row_begin(row.is_error)),
        Piece::Message(row.message),
        Piece::Fixed("<small>"),
        Piece::Text(row.rule.as_bytes()),
        Piece::Fixed(" &middot; "),
        Piece::Text(file.as_bytes()),
        Piece::Fixed(", line "),
        Piece::Number(row.line),
        Piece::Fixed(", column "),
        Piece::Number(row.column),
        Piece::Fixed("</small>"),
    ];
    pieces.extend_from_slice(&one)?;
    if let Some(hits) = subject.hits {
        push_addresses(pieces, hits)?;
    }
    pieces.extend_from_slice(&[Piece::Fixed("</p>\n")])
}

/// Returns the markup that begins the row of an error, or of another finding.
fn row_begin(is_error: bool) -> &'static str {
    if is_error {
        "<p class=\"row\">"
    } else {
        "<p class=\"row note\">"
    }
}

/// Adds links to the pages of advisories.
fn push_addresses<'a>(pieces: &mut Vec<Piece<'a>>, hits: &'a [About<'a>]) -> Result<(), AllocError>
    ensures { OnOk result (said_in pieces.new.items ≡ said_in pieces.old.items) }
{
    for about in hits {
        push_address(pieces, *about)?;
    }
    Ok(())
}

/// Adds a link to the page of an advisory, if its address is one of the web.
fn push_address<'a>(pieces: &mut Vec<Piece<'a>>, about: About<'a>) -> Result<(), AllocError>
    ensures { OnOk result (said_in pieces.new.items ≡ said_in pieces.old.items) }
{
    let Some(url) = about.url else {
        return Ok(());
    };
    if !url.starts_with("https://") && !url.starts_with("http://") {
        return Ok(());
    }
    let one = [
        Piece::Fixed("<small><a rel=\"noreferrer\" href=\""),
        Piece::Text(url.as_bytes()),
        Piece::Fixed("\">"),
        Piece::Text(url.as_bytes()),
        Piece::Fixed("</a></small>"),
    ];
    pieces.extend_from_slice(&one)
}
