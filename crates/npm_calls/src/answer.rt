//! Calls of bytes, as C makes them.

use crate::Result;
use crate::call_error::{CallError, refused_at_start};
use crate::calls::call;
use crate::fault::Fault;
use std::alloc::{AllocError, Global};

/// The answer to a call.
#[derive(Drop)]
pub struct Answer {
    /// The text is that of a refusal.
    pub is_refused: bool,
    /// A JSON object.
    pub text: String,
}

/// Makes the call of this name for a JSON text, as [`call`] does. If it is refused, the answer is the object of
/// [`Refusal::text`](crate::Refusal::text). So it is if the name or the text is not UTF-8.
///
/// # Errors
///
/// An allocation failed.
pub fn answer_of(alloc: Global, name: &[u8], text: &[u8]) -> Result<Answer> {
    match answered(alloc, name, text) {
        Ok(text) => Ok(Answer {
            is_refused: false,
            text,
        }),
        Err(CallError::Refused(refusal)) => Ok(Answer {
            is_refused: true,
            text: refusal.text(alloc)?,
        }),
        Err(CallError::Memory) => Err(AllocError),
    }
}

/// The text of the answer.
fn answered(alloc: Global, name: &[u8], text: &[u8]) -> Result<String, CallError> {
    match (std::str::from_utf8(name), std::str::from_utf8(text)) {
        (Ok(name), Ok(text)) => call(alloc, name, text),
        _ => Err(refused_at_start(alloc, Fault::Utf8)),
    }
}
