//! npm's command `semver`: writes the valid versions that satisfy all ranges, in order of precedence.
//!
//! The exit status is 0 if a version was written, 1 if none is left, and 2 after an error, with a line on standard error.
#![tactic(auto)]

ghost use Rattle.std.specs.Prelude.{◌≡◌, IfErr, IfOk, false, true};
ghost use Rattle.semver_command.specs.Status.{status_of_ending};

mod answer;
mod asked;
mod chosen;
mod command_error;
mod ending;
mod explained;
mod gathered;
mod help;
mod increment;
mod input_line;
mod kept;
mod opened;
mod ranges;
mod refused_text;
mod reply;
mod set_lines;
mod stopped;
mod words;
mod writing;
mod written;

use command_error::CommandError;
use ending::Ending;
use reply::run;
use std::io::{BufReader, BufWriter};
use std::process::ExitCode;
use stopped::Stopped;
use words::words_of;

/// How many bytes are read, or written, at once: what a pipe holds.
const ROOM: usize = 65536;

/// Ends with the status of `status_of`.
fn main(rt: HostRuntime) -> ExitCode {
    let outcome = outcome_of(&rt);
    let said = match &outcome {
        Ok(Ending::Misused) => {
            eprintln!(rt; "--inc can only be used on a single version with no range")
        }
        Ok(Ending::Unexplained) => {
            eprintln!(rt; "--explain can only be used on ranges, with no version")
        }
        Ok(Ending::Written | Ending::Nothing | Ending::Refused) => Ok(()),
        Err(error) => eprintln!(rt; "semver: {error}"),
    };
    ExitCode::from(status_of(&outcome, said.is_ok()))
}

/// Replies to the words of the command line and to standard input.
fn outcome_of(rt: &HostRuntime) -> Result<Ending, CommandError> {
    let words = words_of(rt.alloc(), rt)?;
    let reader = BufReader::with_capacity(rt.alloc(), ROOM, rt.stdin());
    let writer = BufWriter::with_capacity(rt.alloc(), ROOM, rt.stdout());
    match (reader, writer) {
        (Ok(mut reader), Ok(mut writer)) => {
            let mut errors = rt.stderr();
            run(rt.alloc(), &words, &mut reader, &mut writer, &mut errors)
        },
        _ => Err(CommandError::Stopped(Stopped::Memory)),
    }
}

/// Returns the exit status: 0 if a text was written, 1 if no version is left, a range to be explained is refused, or an option
/// was misused, and 2 after an error, or if the line on standard error was not written.
fn status_of(outcome: &Result<Ending, CommandError>, is_said: bool) -> u8
    ensures ended { is_said ≡ true → IfOk outcome.now (λ ending. result ≡ status_of_ending ending) }
    ensures stopped { IfErr outcome.now (λ _. result ≡ 2) }
    ensures unsaid { is_said ≡ false → result ≡ 2 }
{
    match outcome {
        Ok(Ending::Written) if is_said => 0,
        Ok(_) if is_said => 1,
        _ => 2,
    }
}
