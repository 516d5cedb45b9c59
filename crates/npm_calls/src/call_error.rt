//! Why a call has no answer.
ghost use Rattle.std.specs.Prelude.{◌≡◌};
ghost use Rattle.npm_calls.specs.declared.call_error.CallError.TheVariants.{Memory};

use crate::fault::Fault;
use crate::text::{joined, json_string, push_item};
use json_places::{Path, Step};
use npm_lock_findings::{ShownPlace, ShownStep};
use std::alloc::{AllocError, Global};

/// Why a call has no answer.
#[derive(Drop)]
pub enum CallError {
    Refused(Refusal),
    /// An allocation failed.
    Memory,
}

impl From<AllocError> for CallError {
    ghost from_gives = { λ _ error. error ≡ Memory };

    fn from(_error: AllocError) -> CallError {
        CallError::Memory
    }
}

/// What is wrong with a call, and where.
#[derive(Drop)]
pub struct Refusal {
    fault: Fault,
    /// The steps to the member, and its line and column: in the text of the call, or in that of a document which is given as a string.
    place: ShownPlace,
}

impl Refusal {
    /// Returns the JSON object of the refusal: the name of what is wrong, the path of the member, its place, and a sentence for a person. For
    /// a manifest or a lock file `fault` is the name of its fault.
    ///
    /// # Examples
    ///
    /// `{"column":15,"line":1,"member":["tagg"],"message":"the call has no such member","name":"unknown_member"}`
    pub fn text(&self, alloc: Global) -> Result<String, AllocError> {
        let column = self.place.column.to_string(alloc)?;
        let line = self.place.line.to_string(alloc)?;
        let member = steps_text(alloc, &self.place.steps)?;
        let sentence = self.fault.sentence(alloc)?;
        let message = json_string(alloc, sentence.as_str())?;
        let (front, part, end) = match self.fault.part() {
            Some(part) => (",\"fault\":\"", part, "\""),
            None => ("", "", ""),
        };
        let pieces = [
            "{\"column\":",
            column.as_str(),
            front,
            part,
            end,
            ",\"line\":",
            line.as_str(),
            ",\"member\":[",
            member.as_str(),
            "],\"message\":",
            message.as_str(),
            ",\"name\":\"",
            self.fault.name(),
            "\"}",
        ];
        joined(alloc, &pieces)
    }
}

/// The steps of a path, as items of a JSON list.
fn steps_text(alloc: Global, steps: &[ShownStep]) -> Result<String, AllocError> {
    let mut items = String::new(alloc);
    for step in steps {
        push_item(&mut items, step_text(alloc, step)?.as_str())?;
    }
    Ok(items)
}

/// A step, as a JSON value.
fn step_text(alloc: Global, step: &ShownStep) -> Result<String, AllocError> {
    match step {
        ShownStep::Member(name) => json_string(alloc, name.as_str()),
        ShownStep::Item(position) => position.to_string(alloc),
    }
}

/// The error of a call that has no member at fault.
pub(crate) fn refused_at_start(alloc: Global, fault: Fault) -> CallError {
    refused_at(alloc, fault, 1, 1)
}

/// The same, at this line and column of its text.
pub(crate) fn refused_at(alloc: Global, fault: Fault, line: usize, column: usize) -> CallError {
    CallError::Refused(Refusal {
        fault,
        place: ShownPlace {
            steps: Vec::new(alloc),
            line,
            column,
        },
    })
}

/// The error at what these steps lead to, in this text.
pub(crate) fn refused_in(
    alloc: Global,
    fault: Fault,
    text: &str,
    steps: Vec<Step<'_>>,
) -> CallError {
    let path = Path {
        steps,
        subject: 0,
        rank: 0,
    };
    match ShownPlace::of_path(alloc, text, path) {
        Ok(place) => CallError::Refused(Refusal { fault, place }),
        Err(_) => CallError::Memory,
    }
}

/// The same error, of which the steps begin at this member.
pub(crate) fn inside(alloc: Global, error: CallError, name: &str) -> CallError {
    match error {
        CallError::Refused(refusal) => match below(alloc, refusal, name) {
            Ok(refusal) => CallError::Refused(refusal),
            Err(_) => CallError::Memory,
        },
        CallError::Memory => CallError::Memory,
    }
}

/// The refusal, of which the steps begin at this member.
fn below(alloc: Global, refusal: Refusal, name: &str) -> Result<Refusal, AllocError> {
    let Refusal { fault, place } = refusal;
    let ShownPlace {
        steps,
        line,
        column,
    } = place;
    let mut later = steps;
    let mut all = Vec::new(alloc);
    all.push(ShownStep::Member(String::from_str(alloc, name)?))?;
    all.append(&mut later)?;
    Ok(Refusal {
        fault,
        place: ShownPlace {
            steps: all,
            line,
            column,
        },
    })
}
