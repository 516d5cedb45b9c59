//! The words of a call, and the JSON values that they are.
use crate::{Call, CallError};
use serde_json::Value;
use std::alloc::{AllocError, Global};

/// A word, and the JSON value that it is, if it is one. The empty word is `null`.
#[derive(Drop)]
pub struct JsonWord {
    text: String,
    value: Option<Value>,
}

impl JsonWord {
    pub fn of_text(alloc: Global, text: &str) -> Result<JsonWord, AllocError> {
        let value = match text {
            "" => Some(Value::Null),
            text => Value::from_str(alloc, text).ok(),
        };
        Ok(JsonWord {
            text: String::from_str(alloc, text)?,
            value,
        })
    }
}

/// The text of the word at a place, or the empty text.
pub fn text_at<'c>(call: &'c Call<'c, JsonWord>, place: usize) -> &'c str {
    match call.words.get(place) {
        Some(word) => word.text.as_str(),
        None => "",
    }
}

pub fn value_at<'c>(call: &'c Call<'c, JsonWord>, place: usize) -> Result<&'c Value, CallError> {
    let value = call.words.get(place).and_then(|word| word.value.as_ref());
    value.ok_or(CallError::Words)
}

/// The JSON value at a place, if it is not the empty word.
pub fn value_if_any<'c>(call: &'c Call<'c, JsonWord>, place: usize) -> Option<&'c Value> {
    match text_at(call, place) {
        "" => None,
        _ => value_at(call, place).ok(),
    }
}
