//! The output for lock files, before it is written.
ghost use Rattle.std.specs.Prelude.{◌≡◌, IfOk};
ghost use Rattle.std.specs.List.{flat_map};
ghost use Rattle.npm_lock_check.specs.Written.{IsWritten};

use crate::runs::refused::{Refusal, push_findings_of};
use crate::{Format, NUMBER, Output};
use npm_lock_findings::{CheckedFile, PageFormat, push_findings, push_page};
use std::alloc::{AllocError, Global};

/// Returns the text that is written for lock files: their lines, or all their findings and then those of the files that were refused. A
/// log and a page also say whether every lock file was checked, and a page how each check ended.
///
/// # Memory
///
/// Allocates the text, and a list of all findings.
pub(crate) fn text_of<'f>(
    alloc: Global,
    format: Format,
    outputs: Vec<Output<'f>>,
    refusals: &'f [Refusal],
    checked: &[CheckedFile<'_>],
    is_complete: bool,
) -> Result<Vec<u8>, AllocError>
    ensures { IfOk result (λ text. IsWritten format outputs.entry.items text.items) }
{
    let mut all = joined(alloc, outputs)?;
    match format {
        Format::Report(_) => Ok(all.lines),
        Format::Annotations(format) => {
            push_findings_of(alloc, &mut all.findings, refusals)?;
            let mut text = Vec::new(alloc);
            push_findings(alloc, &mut text, format, NUMBER, &all.findings, is_complete)?;
            Ok(text)
        }
        Format::Pages(format) => {
            push_findings_of(alloc, &mut all.findings, refusals)?;
            page_of(alloc, format, &all, checked, is_complete)
        }
    }
}

/// Returns a page with these parts, and with these findings of files that were refused.
fn page_of(
    alloc: Global,
    format: PageFormat,
    all: &Output<'_>,
    checked: &[CheckedFile<'_>],
    is_complete: bool,
) -> Result<Vec<u8>, AllocError> {
    let mut text = Vec::new(alloc);
    push_page(
        alloc,
        &mut text,
        format,
        NUMBER,
        &all.lines,
        checked,
        &all.findings,
        is_complete,
    )?;
    Ok(text)
}

/// Returns the lines of all and the findings of all. Those of the first are not copied.
fn joined<'f>(alloc: Global, outputs: Vec<Output<'f>>) -> Result<Output<'f>, AllocError>
    ensures { IfOk result (λ all. all.lines.items ≡ flat_map (λ output. output.lines.items) outputs.entry.items) }
{
    let mut others = outputs.into_iter();
    let Some(first) = others.next() else {
        return Ok(Output {
            lines: Vec::new(alloc),
            findings: Vec::new(alloc),
        });
    };
    let mut all = first;
    for output in others {
        let mut output = output;
        all.lines.append(&mut output.lines)?;
        all.findings.append(&mut output.findings)?;
    }
    Ok(all)
}
