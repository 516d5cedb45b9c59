//! The output for one lock file.
ghost use Rattle.std.specs.Prelude.{◌≡◌, IfOk, map};
ghost use Rattle.npm_advisories.specs.Audit.{found_value};
ghost use Rattle.npm_lock_check.specs.Written.{IsOutput};
ghost use Rattle.npm_lock_reports.specs.Lines.{line_count, thing_count};

use crate::checks::format::Format;
use crate::checks::output::Output;
use crate::checks::wanted::Wanted;
use npm_advisories::Found;
use npm_lock_findings::{findings_of, part_of};
use npm_lock_reports::{LineStyle, Report, ReportFormat, lines_of};
use std::alloc::{AllocError, Global};

/// Returns the lines, the findings or the part of a page, of a report and of the packages that are hit. `text` is the text of the lock file, and counts only
/// for a format with places.
pub(crate) fn output_of<'f>(
    alloc: Global,
    text: &str,
    report: &Report,
    found: &[Found<'_, '_>],
    wanted: Wanted<'_, 'f>,
) -> Result<Output<'f>, AllocError>
    ensures { IfOk result (IsOutput wanted.entry.format report.now (map found_value found.now)) }
{
    match wanted.format {
        Format::Report(format) => Ok(Output {
            lines: lines_in(alloc, report, found, format, wanted)?,
            findings: Vec::new(alloc),
        }),
        Format::Annotations(_) => Ok(Output {
            lines: Vec::new(alloc),
            findings: findings_of(alloc, text, wanted.file, report, found)?,
        }),
        Format::Pages(format) => Ok(Output {
            lines: part_of(alloc, format, text, wanted.file, report, found)?,
            findings: Vec::new(alloc),
        }),
    }
}

/// Returns the lines of a report.
fn lines_in(
    alloc: Global,
    report: &Report,
    found: &[Found<'_, '_>],
    format: ReportFormat,
    wanted: Wanted<'_, '_>,
) -> Result<Vec<u8>, AllocError>
    ensures { IfOk result (λ lines. line_count lines.items ≡ thing_count report.now (map found_value found.now)) }
{
    let file = named_file(wanted);
    lines_of(alloc, report, found, LineStyle { format, file })
}

/// Returns the path of the lock file, if each line names it.
fn named_file<'f>(wanted: Wanted<'_, 'f>) -> Option<&'f str> {
    if wanted.named {
        Some(wanted.file)
    } else {
        None
    }
}
