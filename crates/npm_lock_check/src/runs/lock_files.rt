//! A run over several lock files.
//!
//! See docs/DECISIONS.md, "Several lock files are written after the last one is checked".
ghost use Rattle.std.specs.Prelude.{◌≡◌, ◌≢◌, ℕ, List, IfErr, IfOk, IsErrOf, IsSome, OnOk, map};
ghost use Rattle.std.specs.Fn.{FnReturnsAt};
ghost use Rattle.std.specs.Io.KnownBytes.{Appends};
ghost use Rattle.npm_lock_check.specs.Files.{AreChecked, IsAdded};
ghost use Rattle.npm_lock_check.specs.Written.{IsWritten};
ghost use Rattle.npm_lock_check.specs.declared.checks.output.Output.{Output};

use crate::runs::outputs::text_of;
use crate::runs::refused::{push_refusal, refusals_of};
use crate::runs::status::one_status;
use crate::{Format, Output, Paths, RunError, StopError};
use command_lines::Watched;
use npm_lock_findings::CheckedFile;
use npm_lock_reports::Report;
use std::alloc::{AllocError, Global};
use std::io::Write;

/// The report of each lock file, or why it was not checked, and the output of those that were checked.
#[derive(Drop)]
pub struct Outcomes<'f> {
    pub outcomes: Vec<Result<Report, StopError>>,
    pub outputs: Vec<Output<'f>>,
}

/// How the output of lock files is written.
#[derive(Clone, Copy, Drop)]
pub struct Writing<'a> {
    pub format: Format,
    pub asked: Paths<'a>,
    /// The folder of the root's manifest.
    pub outer: &'a str,
}

/// Checks lock files in their order, and then writes the output of all. `check` checks one, and returns its report and its output.
/// Returns the report of each lock file, or why it was not checked. The others are checked nevertheless. In a format with places
/// each file that was refused has a finding.
///
/// # Errors
///
/// - `Memory`: an allocation failed, and nothing was written.
/// - `Write`: a write failed. A beginning may have been written.
///
/// # Memory
///
/// Keeps the output of all lock files until the last one is checked: one SARIF log has the findings of all.
pub fn run<'f, W: Write, F: Fn(&'f str) -> Result<(Report, Output<'f>), StopError>>(
    alloc: Global,
    writer: &mut Watched<W>,
    files: &[&'f str],
    writing: Writing<'_>,
    check: F,
) -> Result<Vec<Result<Report, StopError>>, RunError>
    requires { F.IsAlwaysCallable check }
    ensures written { IfOk result (λ outcomes. (outputs : List Output) × (text : List ℕ)
        × AreChecked (FnReturnsAt F.Fn check) (map (λ file. file.now) files.now) outcomes.items outputs
        × IsWritten writing.entry.format outputs text
        × Appends (W.contents writer.old.inner) (W.contents writer.new.inner) text) }
    ensures error { IfErr result (λ error. error ≢ RunError.Write → (error ≡ RunError.Memory) × (writer.new ≡ writer.old)) }
    ensures failed { IsErrOf result RunError.Write → IsSome writer.new.failure }
{
    let Outcomes { outcomes, outputs } = match checked(alloc, files, check) {
        Ok(made) => made,
        Err(_) => return Err(RunError::Memory),
    };
    let text = match run_text(alloc, writing, files, &outcomes, outputs) {
        Ok(text) => text,
        Err(_) => return Err(RunError::Memory),
    };
    match writer.write_all(text.as_slice()) {
        Ok(()) => Ok(outcomes),
        Err(_) => Err(RunError::Write),
    }
}

/// Returns the text that is written where a file that all lock files need was refused. No lock file was checked.
///
/// # Memory
///
/// Allocates the text, and what is said of the file.
pub fn stop_text(
    alloc: Global,
    writing: Writing<'_>,
    error: &StopError,
) -> Result<Vec<u8>, AllocError> {
    let mut refusals = Vec::new(alloc);
    push_refusal(
        alloc,
        &mut refusals,
        writing.asked,
        writing.outer,
        "-",
        error,
    )?;
    let checked = Vec::new(alloc);
    let text = text_of(
        alloc,
        writing.format,
        Vec::new(alloc),
        &refusals,
        &checked,
        false,
    )?;
    Ok(text)
}

/// Returns the text that is written for lock files with these outcomes and outputs.
fn run_text(
    alloc: Global,
    writing: Writing<'_>,
    files: &[&str],
    outcomes: &[Result<Report, StopError>],
    outputs: Vec<Output<'_>>,
) -> Result<Vec<u8>, AllocError>
    ensures { IfOk result (λ text. IsWritten writing.entry.format outputs.entry.items text.items) }
{
    let refusals = refusals_of(alloc, writing.asked, writing.outer, files, outcomes)?;
    let checked = checked_files(alloc, files, outcomes)?;
    let is_complete = is_complete(outcomes);
    let text = text_of(
        alloc,
        writing.format,
        outputs,
        &refusals,
        &checked,
        is_complete,
    )?;
    Ok(text)
}

/// Returns how the check of each lock file ended.
fn checked_files<'f>(
    alloc: Global,
    files: &[&'f str],
    outcomes: &[Result<Report, StopError>],
) -> Result<Vec<CheckedFile<'f>>, AllocError> {
    let mut checked = Vec::new(alloc);
    for index in 0..files.len().min(outcomes.len()) {
        checked.push(CheckedFile {
            file: files[index],
            status: one_status(&outcomes[index]),
        })?;
    }
    Ok(checked)
}

/// Returns `true` if every lock file was checked.
fn is_complete(outcomes: &[Result<Report, StopError>]) -> bool {
    for outcome in outcomes {
        if outcome.is_err() {
            return false;
        }
    }
    true
}

/// Checks lock files in their order.
fn checked<'f, F: Fn(&'f str) -> Result<(Report, Output<'f>), StopError>>(
    alloc: Global,
    files: &[&'f str],
    check: F,
) -> Result<Outcomes<'f>, AllocError>
    requires { F.IsAlwaysCallable check }
    ensures { IfOk result (λ made. AreChecked (FnReturnsAt F.Fn check) (map (λ file. file.now) files.now)
        made.outcomes.items made.outputs.items) }
{
    let mut made = Outcomes {
        outcomes: Vec::new(alloc),
        outputs: Vec::new(alloc),
    };
    for file in files {
        let outcome = check(*file);
        add(&mut made, outcome)?;
    }
    Ok(made)
}

/// Adds the result of the check of one lock file.
fn add<'f>(
    made: &mut Outcomes<'f>,
    outcome: Result<(Report, Output<'f>), StopError>,
) -> Result<(), AllocError>
    ensures { OnOk result (IsAdded made.old.outcomes.items made.old.outputs.items outcome.entry made.new.outcomes.items
        made.new.outputs.items) }
{
    match outcome {
        Ok((report, output)) => {
            made.outcomes.push(Ok(report))?;
            made.outputs.push(output)?;
        }
        Err(error) => made.outcomes.push(Err(error))?,
    }
    Ok(())
}
