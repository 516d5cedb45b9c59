//! The exit status.
ghost use Rattle.std.specs.Prelude.{◌≡◌, false, true};
ghost use Rattle.npm_lock_check.specs.Files.{IsStatus, IsWorst, worse};

use crate::StopError;
use npm_lock_reports::Report;

/// Returns the exit status: the worst of all lock files, or 2 if a line on standard error was not written.
///
/// # Memory
///
/// Does not allocate.
pub fn status_of(outcomes: &[Result<Report, StopError>], is_said: bool) -> u8
    ensures worst { is_said ≡ true → IsWorst outcomes.now result }
    ensures unsaid { is_said ≡ false → result ≡ 2 }
{
    if is_said { worst_of(outcomes) } else { 2 }
}

/// Returns the worst status of these lock files.
fn worst_of(outcomes: &[Result<Report, StopError>]) -> u8
    ensures { IsWorst outcomes.now result }
{
    match outcomes.split_first() {
        Some((first, others)) => worse_of(one_status(first), worst_of(others)),
        None => 0,
    }
}

/// Returns the status of one lock file: 0 if nothing was found, 1 if something was, and 2 if the file was not checked.
pub(crate) fn one_status(outcome: &Result<Report, StopError>) -> u8
    ensures { IsStatus outcome.now result }
{
    match outcome {
        Ok(report) if report.is_clean() => 0,
        Ok(_) => 1,
        Err(_) => 2,
    }
}

/// Returns the worse of two.
fn worse_of(one: u8, other: u8) -> u8
    ensures { result ≡ worse one other }
{
    if one < other { other } else { one }
}
