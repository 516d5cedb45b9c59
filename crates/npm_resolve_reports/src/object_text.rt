//! The text of a JSON object, which other languages read.
use crate::Result;
use crate::json::json_text;
use crate::reasons_json::push_texts;
use npm_resolve::{Document, Resolution};
use std::alloc::{AllocError, Global};

/// Returns the JSON object of a resolution, without spaces and without a newline.
///
/// # Errors
///
/// An allocation failed.
///
/// # Memory
///
/// Allocates the text.
///
/// # Examples
///
/// Where `a` is selected in version 1.0.0, it returns
/// `{"outcome":"selected","packages":[{"name":"a","package":"a","version":"1.0.0"}]}`.
pub fn resolution_text(
    alloc: Global,
    documents: &[Document],
    resolution: &Resolution<'_>,
) -> Result<String> {
    text_of(json_text(alloc, documents, resolution)?)
}

/// Returns the JSON object that takes the place of a lock file if rules in `overrides` are not read: it has the names of these rules.
///
/// # Errors
///
/// An allocation failed.
///
/// # Memory
///
/// Allocates the text.
///
/// # Examples
///
/// For the name `a` it returns `{"outcome":"unread","overrides":["a"]}`.
pub fn unread_text(alloc: Global, unread: &[&str]) -> Result<String> {
    let mut text = Vec::new(alloc);
    text.extend_from_slice(b"{\"outcome\":\"unread\",\"overrides\":")?;
    push_texts(alloc, &mut text, unread)?;
    text.extend_from_slice(b"}")?;
    text_of(text)
}

/// The text of these bytes. All pieces of JSON are in UTF-8.
fn text_of(bytes: Vec<u8>) -> Result<String> {
    match String::from_utf8(bytes) {
        Ok(text) => Ok(text),
        Err(_) => Err(AllocError),
    }
}
