//! The words of a call, and what each is read as.
use crate::{Call, parts};
use named_calls::CallError;
use node_semver::{Identifier, Range, SemverError, Version};
use serde_json::Value;
use std::alloc::{AllocError, Global};

/// A word, and all that it can be read as.
#[derive(Drop)]
pub(crate) struct Word {
    pub(crate) text: String,
    pub(crate) version: Result<Version, SemverError>,
    pub(crate) range: Result<Range, SemverError>,
    pub(crate) identifier: Identifier,
    pub(crate) bytes: Option<Vec<u8>>,
    pub(crate) value: Option<Value>,
}

impl Word {
    pub(crate) fn of_text(alloc: Global, text: &str) -> Result<Word, AllocError> {
        Ok(Word {
            text: String::from_str(alloc, text)?,
            version: version_of(alloc, text),
            range: range_of(alloc, text),
            identifier: parts::identifier_of(alloc, text)?,
            bytes: bytes_of(alloc, text),
            value: Value::from_str(alloc, text).ok(),
        })
    }
}

/// The version of a text, and after `=` the version of its parts, which no text may write.
pub(crate) fn version_of(alloc: Global, text: &str) -> Result<Version, SemverError> {
    match text
        .strip_prefix('=')
        .and_then(|parts| parts::version_of(alloc, parts))
    {
        Some(version) => Ok(version),
        None => Version::parse(alloc, text),
    }
}

/// The range of a text, and of `any` the range of all cuts.
pub(crate) fn range_of(alloc: Global, text: &str) -> Result<Range, SemverError> {
    if text == "any" {
        if let Ok(range) = Range::any(alloc) {
            return Ok(range);
        }
    }
    Range::parse(alloc, text)
}

fn bytes_of(alloc: Global, text: &str) -> Option<Vec<u8>> {
    let mut bytes = Vec::new(alloc);
    for word in text.split_whitespace() {
        bytes.push(word.parse::<u8>().ok()?).ok()?;
    }
    Some(bytes)
}

pub(crate) fn word_at<'c>(call: &'c Call<'c>, place: usize) -> Result<&'c Word, CallError> {
    call.words.get(place).ok_or(CallError::Words)
}

/// The text of the word at a place, or the empty text.
pub(crate) fn text_at<'c>(call: &'c Call<'c>, place: usize) -> &'c str {
    match call.words.get(place) {
        Some(word) => word.text.as_str(),
        None => "",
    }
}

pub(crate) fn version_at<'c>(call: &'c Call<'c>, place: usize) -> Result<&'c Version, CallError> {
    word_at(call, place)?
        .version
        .as_ref()
        .ok()
        .ok_or(CallError::Words)
}

pub(crate) fn range_at<'c>(call: &'c Call<'c>, place: usize) -> Result<&'c Range, CallError> {
    word_at(call, place)?
        .range
        .as_ref()
        .ok()
        .ok_or(CallError::Words)
}

pub(crate) fn number_at(call: &Call<'_>, place: usize) -> Result<u64, CallError> {
    parts::number_of(text_at(call, place)).ok_or(CallError::Words)
}
