//! The lines that are written about a lock file.
ghost use Rattle.std.specs.Prelude.{◌≡◌, ◌+◌, IfOk, OnOk, map};
ghost use Rattle.npm_advisories.specs.Audit.{found_value};
ghost use Rattle.npm_lock_reports.specs.Lines.{line_count, thing_count};

use crate::format::ReportFormat;
use crate::piece::Reading;
use crate::report::Report;
use crate::style::{LineStyle, push_file, push_object};
use crate::thing::{Thing, things_of};
use crate::vague::Vague;
use npm_advisories::Found;
use std::alloc::{AllocError, Global};

/// Returns the lines of a report and of the packages that are hit, one for each of the [`things_of`] them.
///
/// # Errors
///
/// An allocation failed.
///
/// # Memory
///
/// Allocates the lines, and for the time of the call a list of the things, another of what is not checked, and for each line its text and
/// in JSON the object.
pub fn lines_of<'a>(
    alloc: Global,
    report: &'a Report,
    found: &'a [Found<'a, 'a>],
    style: LineStyle<'_>,
) -> Result<Vec<u8>, AllocError>
    ensures { IfOk result (λ text. line_count text.items ≡ thing_count report.now (map found_value found.now)) }
{
    let things = things_of(alloc, report, found)?;
    let vague = Vague::of(alloc, report)?;
    let mut lines = Vec::new(alloc);
    for thing in &things {
        let line = line_of(alloc, *thing, &vague, style)?;
        push_line(&mut lines, &line)?;
    }
    Ok(lines)
}

/// The line of one thing.
fn line_of(
    alloc: Global,
    thing: Thing<'_>,
    vague: &Vague<'_>,
    style: LineStyle<'_>,
) -> Result<Vec<u8>, AllocError> {
    let mut line = Vec::new(alloc);
    match style.format {
        ReportFormat::Text => {
            push_file(&mut line, style.file)?;
            thing.push_sentence(alloc, &mut line, Reading::Terminal, vague)?;
        }
        ReportFormat::Json => push_object(alloc, &mut line, thing.to_json(alloc)?, style.file)?,
    }
    Ok(line)
}

/// Adds a line and a newline byte. A newline byte in the line is written as a blank, so that no line is divided.
fn push_line(lines: &mut Vec<u8>, line: &[u8]) -> Result<(), AllocError>
    ensures { OnOk result (line_count lines.new.items ≡ line_count lines.old.items + 1) }
{
    for byte in line {
        lines.push(if *byte == b'\n' { b' ' } else { *byte })?;
    }
    lines.push(b'\n')?;
    Ok(())
}
