//! Reads pairs of lines from standard input: a range and a version. Writes for each pair whether the version satisfies
//! the range: `yes`, `no`, `bad range`, `bad version` or `missing version`.
#![tactic(auto)]

mod answering;
mod answers;
mod exit;
mod gauge;
mod laws;
mod lines;
mod open_pair;
mod piece;
mod program;
mod run_error;
#[cfg(test)]
mod tests;
mod text;
mod writing;

use exit::ending;
use gauge::Gauge;
use program::run;
use run_error::RunError;
use std::env;
use std::process::ExitCode;

/// Takes no arguments. Exits with the status of `ending`, and writes its line to standard error, if there is one. If
/// that write fails, the line is lost.
fn main(rt: HostRuntime) -> ExitCode {
    // The first word is the program's name.
    let outcome = match env::args(&rt) {
        Ok(words) => {
            if words.count() > 1 {
                None
            } else {
                let mut reader = Gauge::new(rt.stdin());
                let mut writer = Gauge::new(rt.stdout());
                Some(run(rt.alloc(), &mut reader, &mut writer))
            }
        }
        // Also if an allocation fails, since the words are copied: nothing was read.
        Err(_) => Some(Err(RunError::Read)),
    };
    let (status, line) = ending(outcome.as_ref());
    if status != 0 {
        let _ = eprintln!(rt; "{line}");
    }
    ExitCode::from(status)
}
