//! JSON objects of what is found.

use crate::Result;
use npm_texts::put_text;
use serde_json::{Map, Value, put};
use std::alloc::Global;

/// A member of an object: its name, and its value.
#[derive(Clone, Copy, Drop)]
pub enum Member<'a> {
    Text(&'a str, &'a str),
    /// A text, or no member.
    TextIfAny(&'a str, Option<&'a String>),
    Flag(&'a str, bool),
}

/// Returns the object with these members.
///
/// # Errors
///
/// An allocation failed.
pub fn object_of(alloc: Global, members: &[Member<'_>]) -> Result<Value> {
    let mut map = Map::new(alloc);
    for member in members {
        put_member(&mut map, alloc, *member)?;
    }
    Ok(Value::Object(map))
}

/// Adds a member.
fn put_member(map: &mut Map<String, Value>, alloc: Global, member: Member<'_>) -> Result<()> {
    match member {
        Member::Text(name, text) => put_text(map, alloc, name, text),
        Member::TextIfAny(name, Some(text)) => put_text(map, alloc, name, text.as_str()),
        Member::TextIfAny(_, None) => Ok(()),
        Member::Flag(name, flag) => put(map, alloc, name, Value::Bool(flag)),
    }
}
