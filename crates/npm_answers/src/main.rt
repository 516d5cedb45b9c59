//! Makes calls of the libraries for npm's files, and writes what they return. A list has a tab after each item.
//!
//! `named_calls` says how calls are given.
#![tactic(auto)]

mod advisories;
mod checks;
mod exceptions;
mod faults;
mod folders;
mod lock_files;
mod packages;
mod picks;
mod places;
mod written;
mod written_findings;

use named_calls::words::JsonWord;
use named_calls::{CallError, Calls, Written, answer_of_first, run};
use std::alloc::{AllocError, Global};
use std::process::ExitCode;

type Call<'c> = named_calls::Call<'c, JsonWord>;

struct NpmCalls;

impl Calls for NpmCalls {
    type Word = JsonWord;

    fn word_of(alloc: Global, text: &str) -> Result<JsonWord, AllocError> {
        JsonWord::of_text(alloc, text)
    }

    fn answer(call: &Call<'_>, out: &mut String) -> Written {
        answer_of_first! { call, out, folders, exceptions, places, packages, checks, lock_files,
        faults, advisories, picks, written_findings }
    }
}

fn main(rt: HostRuntime) -> ExitCode {
    run::<NpmCalls>(&rt)
}
