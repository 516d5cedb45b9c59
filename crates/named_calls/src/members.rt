//! Members and items of the JSON values that arguments are.
use crate::list_of;
use serde_json::Value;
use std::alloc::{AllocError, Global};

/// The text of a member, or an empty one.
pub fn text_in<'v>(value: &'v Value, name: &str) -> &'v str {
    text_if_any(value, name).unwrap_or("")
}

pub fn text_if_any<'v>(value: &'v Value, name: &str) -> Option<&'v str> {
    value.get(name)?.as_str()
}

/// The whole number of a member, or 0.
pub fn number_in(value: &Value, name: &str) -> usize {
    value.get(name).and_then(number_of).unwrap_or(0)
}

pub fn number_of(value: &Value) -> Option<usize> {
    usize::try_from(value.as_u64()?).ok()
}

/// Whether a member is `true`.
pub fn is_set(value: &Value, name: &str) -> bool {
    value.get(name).and_then(Value::as_bool).unwrap_or(false)
}

/// The items of a list, and none of another value.
pub fn items_of(value: &Value) -> &[Value] {
    match value.as_array() {
        Some(items) => items.as_slice(),
        None => &[],
    }
}

/// The items of a member.
pub fn items_in<'v>(value: &'v Value, name: &str) -> &'v [Value] {
    match value.get(name) {
        Some(list) => items_of(list),
        None => &[],
    }
}

/// The texts of a list.
pub fn texts_of<'v>(alloc: Global, list: &'v [Value]) -> Result<Vec<&'v str>, AllocError> {
    Ok(list_of!(alloc, list, item => item.as_str().unwrap_or("")))
}

/// The value at a place of a list.
pub fn items_at(list: &Value, place: usize) -> &[Value] {
    match list.get(place) {
        Some(list) => items_of(list),
        None => &[],
    }
}

/// The number at a place of a list, or 0 if another value is there.
pub fn number_at(list: &Value, place: usize) -> usize {
    list.get(place).and_then(number_of).unwrap_or(0)
}

pub fn is_true_at(list: &Value, place: usize) -> bool {
    list.get(place).and_then(Value::as_bool).unwrap_or(false)
}
