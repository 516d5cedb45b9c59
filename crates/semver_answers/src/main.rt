//! Makes calls of `node_semver`, `npm_semver` and `semver_keys`, and writes what they return.
//!
//! `named_calls` says how calls are given. Where a function has several forms, as one for a version and one for a version that borrows
//! its text, all are called, and an answer says that they give different results.
#![tactic(auto)]

mod borrowed;
mod errors;
mod keys;
mod lists;
mod made;
mod orders;
mod parts;
mod ranges;
mod satisfied;
mod texts;
mod two_ranges;
mod versions;
mod word;
mod written;

use named_calls::{CallError, Calls, Written, answer_of_first, run};
use std::alloc::{AllocError, Global};
use std::process::ExitCode;
use word::Word;

type Call<'c> = named_calls::Call<'c, Word>;

struct SemverCalls;

impl Calls for SemverCalls {
    type Word = Word;

    fn word_of(alloc: Global, text: &str) -> Result<Word, AllocError> {
        Word::of_text(alloc, text)
    }

    fn answer(call: &Call<'_>, out: &mut String) -> Written {
        answer_of_first! { call, out, texts, versions, ranges, two_ranges, keys, errors, made, lists }
    }
}

fn main(rt: HostRuntime) -> ExitCode {
    run::<SemverCalls>(&rt)
}
