//! What a call is asked: the members of its object, each of which is taken once.

use crate::call_error::{CallError, refused_at_start, refused_in};
use crate::document::{Document, value_of};
use crate::fault::Fault;
use json_places::Step;
use serde_json::{Map, Value};
use std::alloc::{AllocError, Global};

/// The members of a call that are not taken yet.
#[derive(Drop)]
pub(crate) struct Asked<'t> {
    pub(crate) alloc: Global,
    text: &'t str,
    members: Map<String, Value>,
}

impl<'t> Asked<'t> {
    /// Reads the text of a call.
    pub(crate) fn of(alloc: Global, text: &'t str) -> Result<Asked<'t>, CallError> {
        match value_of(alloc, text)? {
            Value::Object(members) => Ok(Asked {
                alloc,
                text,
                members,
            }),
            _other => Err(refused_at_start(alloc, Fault::Object)),
        }
    }

    /// Takes a member. One that is `null` counts as absent.
    pub(crate) fn take(&mut self, name: &str) -> Option<Value> {
        match self.members.remove(name) {
            Some(Value::Null) | None => None,
            Some(value) => Some(value),
        }
    }

    /// The error of a member.
    pub(crate) fn refused(&self, fault: Fault, name: &str) -> CallError {
        match one_step(self.alloc, name) {
            Ok(steps) => refused_in(self.alloc, fault, self.text, steps),
            Err(_) => CallError::Memory,
        }
    }

    /// The error of an item of a list.
    pub(crate) fn refused_item(&self, fault: Fault, name: &str, place: usize) -> CallError {
        match item_steps(self.alloc, name, place) {
            Ok(steps) => refused_in(self.alloc, fault, self.text, steps),
            Err(_) => CallError::Memory,
        }
    }

    /// The error of a member of an item of a list.
    pub(crate) fn refused_part(
        &self,
        fault: Fault,
        name: &str,
        place: usize,
        part: &str,
    ) -> CallError {
        match part_steps(self.alloc, name, place, part) {
            Ok(steps) => refused_in(self.alloc, fault, self.text, steps),
            Err(_) => CallError::Memory,
        }
    }

    /// Takes a document, if there is one.
    pub(crate) fn document_if_any(
        &mut self,
        name: &'static str,
    ) -> Result<Option<Document<'t>>, CallError> {
        match self.take(name) {
            Some(value) => Ok(Some(Document::of(self.alloc, self.text, name, value)?)),
            None => Ok(None),
        }
    }

    /// Takes a document that must be there.
    pub(crate) fn document(&mut self, name: &'static str) -> Result<Document<'t>, CallError> {
        match self.document_if_any(name)? {
            Some(document) => Ok(document),
            None => Err(self.refused(Fault::Missing, name)),
        }
    }

    /// Fails if a member is left that the call does not have.
    pub(crate) fn end(&self) -> Result<(), CallError> {
        match self.members.first_key_value() {
            Some((name, _)) => Err(self.refused(Fault::Unknown, name.as_str())),
            None => Ok(()),
        }
    }
}

/// The step to a member.
fn one_step<'n>(alloc: Global, name: &'n str) -> Result<Vec<Step<'n>>, AllocError> {
    let steps = [Step::Member(name)];
    Vec::from_slice(alloc, &steps)
}

/// The steps to an item of a member.
fn item_steps<'n>(alloc: Global, name: &'n str, place: usize) -> Result<Vec<Step<'n>>, AllocError> {
    let steps = [Step::Member(name), Step::Item(place)];
    Vec::from_slice(alloc, &steps)
}

/// The steps to a member of an item of a member.
fn part_steps<'n>(
    alloc: Global,
    name: &'n str,
    place: usize,
    part: &'n str,
) -> Result<Vec<Step<'n>>, AllocError> {
    let steps = [Step::Member(name), Step::Item(place), Step::Member(part)];
    Vec::from_slice(alloc, &steps)
}
