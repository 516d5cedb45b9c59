//! Programs that make calls by their names, for tests.
//!
//! Each line of standard input is a JSON array of strings: the name of a call and its arguments. [`run`] writes a line for each of them:
//! the answer, as a JSON string.
//!
//! With the word `twice` a program makes a call after a number of allocations, and then the same call again, for tests that refuse memory
//! or give large arguments. The lines of standard input are that number, the name of the call, and its arguments. If one allocation of
//! the run fails, the number decides which allocation of the call that is. [`run`] writes the number of allocations that succeeded before
//! the call, the answer, the number that succeeded after it, and the answer of the second call. The room of an answer is there before
//! the call, so that only the call allocates. The status is 2 if no call was made or nothing was written.
#![tactic(auto)]

mod call;
mod lines;
pub mod members;
mod twice;
pub mod words;

pub use call::{Call, CallError, Calls, Written};
use std::env;
use std::process::ExitCode;

/// Makes the calls that standard input names, and returns the status of the program.
pub fn run<C: Calls>(rt: &HostRuntime) -> ExitCode {
    match made::<C>(rt) {
        Ok(()) => ExitCode::from(0),
        Err(_) => ExitCode::from(2),
    }
}

fn made<C: Calls>(rt: &HostRuntime) -> Written {
    for word in env::args(rt)?.skip(1) {
        if word.as_str() == "twice" {
            return twice::write::<C>(rt);
        }
    }
    lines::write::<C>(rt)
}
