//! Documents: JSON values, or strings with the text of one.

use crate::call_error::{CallError, inside, refused_at, refused_in};
use crate::fault::Fault;
use json_places::Step;
use serde_json::Value;
use std::alloc::{AllocError, Global};

/// A document, and the member that it is.
#[derive(Drop)]
pub(crate) struct Document<'t> {
    pub(crate) name: &'static str,
    pub(crate) value: Value,
    /// The text of the call.
    around: &'t str,
    /// Its text, if it is given as a string.
    own: Option<String>,
}

impl<'t> Document<'t> {
    /// The document of a value. Fails if that is a string which is no JSON.
    pub(crate) fn of(
        alloc: Global,
        around: &'t str,
        name: &'static str,
        value: Value,
    ) -> Result<Document<'t>, CallError> {
        match value {
            Value::String(text) => {
                let value = read(alloc, name, text.as_str())?;
                Ok(Document {
                    name,
                    value,
                    around,
                    own: Some(text),
                })
            }
            value => Ok(Document {
                name,
                value,
                around,
                own: None,
            }),
        }
    }

    /// The error at what these steps lead to inside the document.
    pub(crate) fn refused(&self, alloc: Global, fault: Fault, steps: Vec<Step<'_>>) -> CallError {
        match &self.own {
            Some(text) => inside(
                alloc,
                refused_in(alloc, fault, text.as_str(), steps),
                self.name,
            ),
            None => match with_member(alloc, self.name, steps) {
                Ok(all) => refused_in(alloc, fault, self.around, all),
                Err(_) => CallError::Memory,
            },
        }
    }

    /// The error at the member of these names inside the document.
    pub(crate) fn refused_at_names(
        &self,
        alloc: Global,
        fault: Fault,
        names: &[&str],
    ) -> CallError {
        match steps_of(alloc, names) {
            Ok(steps) => self.refused(alloc, fault, steps),
            Err(_) => CallError::Memory,
        }
    }

    /// The error at this member of the document.
    pub(crate) fn refused_at_name(&self, alloc: Global, fault: Fault, name: &str) -> CallError {
        let mut steps = Vec::new(alloc);
        match steps.push(Step::Member(name)) {
            Ok(()) => self.refused(alloc, fault, steps),
            Err(_) => CallError::Memory,
        }
    }

    /// Fails if the document is no object.
    pub(crate) fn check_object(&self, alloc: Global) -> Result<(), CallError> {
        if self.value.is_object() {
            Ok(())
        } else {
            Err(self.refused(alloc, Fault::Object, Vec::new(alloc)))
        }
    }
}

/// The value of the text of a document.
fn read(alloc: Global, name: &str, text: &str) -> Result<Value, CallError> {
    match value_of(alloc, text) {
        Ok(value) => Ok(value),
        Err(error) => Err(inside(alloc, error, name)),
    }
}

/// The value of a text.
pub(crate) fn value_of(alloc: Global, text: &str) -> Result<Value, CallError> {
    match Value::from_str(alloc, text) {
        Ok(value) => Ok(value),
        Err(error) => Err(json_error(alloc, &error)),
    }
}

/// The error of a text that is no JSON.
fn json_error(alloc: Global, error: &serde_json::Error) -> CallError {
    if error.is_memory() {
        CallError::Memory
    } else {
        refused_at(alloc, Fault::Json, error.line(), error.column())
    }
}

/// The steps to members of these names.
fn steps_of<'n>(alloc: Global, names: &[&'n str]) -> Result<Vec<Step<'n>>, AllocError> {
    let mut steps = Vec::new(alloc);
    for name in names {
        steps.push(Step::Member(*name))?;
    }
    Ok(steps)
}

/// The steps, after one to this member.
fn with_member<'n>(
    alloc: Global,
    name: &'n str,
    steps: Vec<Step<'n>>,
) -> Result<Vec<Step<'n>>, AllocError> {
    let mut later = steps;
    let mut all = Vec::new(alloc);
    all.push(Step::Member(name))?;
    all.append(&mut later)?;
    Ok(all)
}
