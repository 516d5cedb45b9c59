//! Exceptions to advisories.

use crate::asked::Asked;
use crate::call_error::CallError;
use crate::day::day_of;
use crate::fault::Fault;
use crate::text::add;
use npm_lock_reports::{Date, Exception};
use serde_json::Value;

/// Where the members of an exception are: an item of the list.
#[derive(Clone, Copy)]
struct Item<'a> {
    value: &'a Value,
    place: usize,
}

const NAME: &str = "exceptions";

/// Takes the exceptions.
pub(crate) fn exceptions_of(asked: &mut Asked<'_>) -> Result<Vec<Exception>, CallError> {
    let list = asked.list(NAME)?;
    let mut exceptions = Vec::new(asked.alloc);
    for (place, value) in list.iter().enumerate() {
        let exception = exception_of(asked, Item { value, place })?;
        add(&mut exceptions, exception)?;
    }
    Ok(exceptions)
}

/// The exception of an item.
fn exception_of(asked: &Asked<'_>, item: Item<'_>) -> Result<Exception, CallError> {
    check_members(asked, item)?;
    let id = text_in(asked, item, "id")?;
    let name = text_in(asked, item, "package")?;
    let reason = text_in(asked, item, "reason")?;
    let until = until_in(asked, item)?;
    Ok(Exception {
        id,
        name,
        reason,
        until,
    })
}

/// Fails if an item is no object, or has a member that an exception has not.
fn check_members(asked: &Asked<'_>, item: Item<'_>) -> Result<(), CallError> {
    let Some(members) = item.value.as_object() else {
        return Err(asked.refused_item(Fault::Object, NAME, item.place));
    };
    for name in members.keys() {
        let name = name.as_str();
        if !is_part(name) {
            return Err(asked.refused_part(Fault::Unknown, NAME, item.place, name));
        }
    }
    Ok(())
}

/// Returns `true` if an exception has this member.
fn is_part(name: &str) -> bool {
    matches!(name, "id" | "package" | "reason" | "until")
}

/// The text of a member.
fn text_in(asked: &Asked<'_>, item: Item<'_>, name: &str) -> Result<String, CallError> {
    match item.value.get(name) {
        Some(value) => match value.as_str() {
            Some(text) => Ok(String::from_str(asked.alloc, text)?),
            None => Err(asked.refused_part(Fault::Text, NAME, item.place, name)),
        },
        None => Err(asked.refused_part(Fault::Missing, NAME, item.place, name)),
    }
}

/// The last day of an exception, if it has one.
fn until_in(asked: &Asked<'_>, item: Item<'_>) -> Result<Option<Date>, CallError> {
    let Some(value) = item.value.get("until") else {
        return Ok(None);
    };
    match value.as_str().and_then(day_of) {
        Some(day) => Ok(Some(day)),
        None if value.is_null() => Ok(None),
        None => Err(asked.refused_part(Fault::Day, NAME, item.place, "until")),
    }
}
