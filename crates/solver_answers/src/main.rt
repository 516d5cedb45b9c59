//! Makes calls of the solver, and calls by name as other languages make them, and writes what they return.
//!
//! `named_calls` says how calls are given.
#![tactic(auto)]

mod named_call;
mod reasons;
mod solving;

use named_calls::words::JsonWord;
use named_calls::{CallError, Calls, Written, answer_of_first, run};
use std::alloc::{AllocError, Global};
use std::process::ExitCode;

type Call<'c> = named_calls::Call<'c, JsonWord>;

struct SolverCalls;

impl Calls for SolverCalls {
    type Word = JsonWord;

    fn word_of(alloc: Global, text: &str) -> Result<JsonWord, AllocError> {
        JsonWord::of_text(alloc, text)
    }

    fn answer(call: &Call<'_>, out: &mut String) -> Written {
        answer_of_first! { call, out, solving, named_call }
    }
}

fn main(rt: HostRuntime) -> ExitCode {
    run::<SolverCalls>(&rt)
}
