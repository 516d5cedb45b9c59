//! JSON texts of pieces.

use crate::Result;
use serde_json::Value;
use std::alloc::Global;

/// Adds an item to a list.
pub(crate) fn add<T: Drop>(list: &mut Vec<T>, item: T) -> Result<()> {
    Ok(list.push(item)?)
}

/// A text of these pieces.
pub(crate) fn joined(alloc: Global, pieces: &[&str]) -> Result<String> {
    let mut text = String::new(alloc);
    for piece in pieces {
        text.push_str(piece)?;
    }
    Ok(text)
}

/// A text as a JSON string.
pub(crate) fn json_string(alloc: Global, text: &str) -> Result<String> {
    Value::try_from_str(alloc, text)?.to_string(alloc)
}

/// The JSON list of these texts.
pub(crate) fn json_list(alloc: Global, texts: &[&str]) -> Result<String> {
    let mut items = Vec::with_capacity(alloc, texts.len())?;
    for text in texts {
        items.push(Value::try_from_str(alloc, text)?)?;
    }
    Value::Array(items).to_string(alloc)
}

/// The JSON list of owned texts.
pub(crate) fn json_strings(alloc: Global, texts: &[String]) -> Result<String> {
    let mut items = Vec::with_capacity(alloc, texts.len())?;
    for text in texts {
        items.push(Value::try_from_str(alloc, text.as_str())?)?;
    }
    Value::Array(items).to_string(alloc)
}

/// Adds an item to those of a JSON list.
pub(crate) fn push_item(items: &mut String, item: &str) -> Result<()> {
    if !items.is_empty() {
        items.push(',')?;
    }
    items.push_str(item)
}

/// The values of which each stands in a line, as items of a JSON list.
pub(crate) fn json_lines(alloc: Global, lines: Vec<u8>) -> Result<String> {
    let mut items = String::new(alloc);
    if let Ok(whole) = String::from_utf8(lines) {
        for line in whole.as_str().lines() {
            push_item(&mut items, line)?;
        }
    }
    Ok(items)
}

/// `true` or `false`.
pub(crate) fn word_of(value: bool) -> &'static str {
    if value { "true" } else { "false" }
}
