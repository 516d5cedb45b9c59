//! What is found in a lock file and has a line: one value for each thing, in the order of the lines.
ghost use Rattle.std.specs.Prelude.{◌≡◌, ◌+◌, IfOk, OnOk, length, map};
ghost use Rattle.npm_advisories.specs.Audit.{found_value};
ghost use Rattle.npm_lock_reports.specs.Lines.{thing_count};

use crate::hit_sentence::push_hit_sentence;
use crate::piece::Reading;
use crate::report::Report;
use crate::sentence::{
    push_left_out_sentence, push_mismatch_sentence, push_sentence, push_unchecked_sentence,
};
use crate::source_sentence::push_source_sentence;
use crate::unread::{Unread, push_unread_sentence, unread_json};
use crate::vague::Vague;
use npm_advisories::Found;
use npm_lock::{Dependency, Mismatch, Problem, Source, Unchecked};
use serde_json::Value;
use std::alloc::{AllocError, Global};

/// One thing that is found.
#[derive(Clone, Copy, Drop)]
pub enum Thing<'a> {
    Mismatch(&'a Mismatch),
    Problem(&'a Problem),
    /// An installed package that an advisory hits.
    Hit(&'a Found<'a, 'a>),
    /// What is suspicious in where a package comes from.
    Source(&'a Source),
    /// A dependency that is needed and left out.
    LeftOut(&'a Dependency),
    /// A dependency that is not checked.
    Unchecked(&'a Unchecked),
    /// What was not looked at.
    Unread(&'a Unread),
}

/// Returns the things of a report and of the packages that are hit: the mismatches, the problems, the packages, what is suspicious in
/// where packages come from, what is needed and left out, and if they are listed the dependencies that are not checked and what was not
/// looked at.
///
/// # Errors
///
/// An allocation failed.
///
/// # Memory
///
/// Allocates the list.
pub fn things_of<'a>(
    alloc: Global,
    report: &'a Report,
    found: &'a [Found<'a, 'a>],
) -> Result<Vec<Thing<'a>>, AllocError>
    ensures { IfOk result (λ things. length things.items ≡ thing_count report.now (map found_value found.now)) }
{
    let mut things = Vec::new(alloc);
    for mismatch in &report.mismatches {
        things.push(Thing::Mismatch(mismatch))?;
    }
    for problem in &report.problems.list {
        things.push(Thing::Problem(problem))?;
    }
    for one in found {
        things.push(Thing::Hit(one))?;
    }
    for source in &report.sources {
        things.push(Thing::Source(source))?;
    }
    for dependency in &report.needed {
        things.push(Thing::LeftOut(dependency))?;
    }
    if report.listed {
        push_listed(&mut things, report)?;
    }
    Ok(things)
}

/// Adds what is not checked and what was not looked at.
fn push_listed<'a>(things: &mut Vec<Thing<'a>>, report: &'a Report) -> Result<(), AllocError>
    ensures { OnOk result (length things.new.items ≡ length things.old.items
        + (length report.now.problems.unchecked.items + length report.now.unread.items)) }
{
    for unchecked in &report.problems.unchecked {
        things.push(Thing::Unchecked(unchecked))?;
    }
    for unread in &report.unread {
        things.push(Thing::Unread(unread))?;
    }
    Ok(())
}

impl<'a> Thing<'a> {
    /// Adds the sentence of the thing.
    ///
    /// # Errors
    ///
    /// An allocation failed. Then a beginning of it may have been added.
    pub fn push_sentence(
        self,
        alloc: Global,
        line: &mut Vec<u8>,
        reading: Reading,
        vague: &Vague<'_>,
    ) -> Result<(), AllocError> {
        match self {
            Thing::Mismatch(mismatch) => push_mismatch_sentence(line, reading, mismatch),
            Thing::Problem(problem) => push_sentence(line, reading, problem),
            Thing::Hit(found) => push_hit_sentence(alloc, line, reading, found, vague),
            Thing::Source(source) => push_source_sentence(line, reading, source),
            Thing::LeftOut(dependency) => push_left_out_sentence(line, reading, dependency),
            Thing::Unchecked(unchecked) => push_unchecked_sentence(line, reading, unchecked),
            Thing::Unread(unread) => push_unread_sentence(line, reading, unread),
        }
    }

    /// Returns the JSON object of the thing.
    ///
    /// # Errors
    ///
    /// An allocation failed.
    pub fn to_json(self, alloc: Global) -> Result<Value, AllocError> {
        match self {
            Thing::Mismatch(mismatch) => mismatch.to_json(alloc),
            Thing::Problem(problem) => problem.to_json(alloc),
            Thing::Hit(found) => found.to_json(alloc),
            Thing::Source(source) => source.to_json(alloc),
            Thing::LeftOut(dependency) => dependency.to_json(alloc, "problem", "left-out"),
            Thing::Unchecked(unchecked) => unchecked.to_json(alloc),
            Thing::Unread(unread) => unread_json(alloc, unread),
        }
    }
}
