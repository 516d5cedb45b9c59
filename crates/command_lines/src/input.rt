//! Reads JSON values.
ghost use Rattle.std.specs.Prelude.{IfErr, IfOk, string_bytes};
ghost use Rattle.serde_json.specs.View.{view};
ghost use Rattle.command_lines.specs.Inputs.{IsInput, IsInputText, IsUnread};

use crate::input_error::{InputError, failure_error, json_error, read_error};
use crate::watched::Watched;
use serde_json::Value;
use std::alloc::Global;
use std::io::Read;

/// Reads a JSON value to the end of the input. A reader that had failed before is not read.
///
/// # Errors
///
/// `ByteOrderMark`, `NoUtf8` and `NoJson` are true of all of the input. `Read` and `Memory`: a read failed, or an allocation.
///
/// # Memory
///
/// Allocates the value. While it is read, the text is held too.
pub fn read_json<R: Read>(alloc: Global, reader: &mut Watched<R>) -> Result<Value, InputError>
    ensures value { IfOk result (λ value. IsInput R.remaining reader.old reader.new (view value)) }
    ensures refused { IfErr result (IsUnread R.remaining reader.old reader.new) }
{
    match read_json_with_text(alloc, reader) {
        Ok((value, _)) => Ok(value),
        Err(error) => Err(error),
    }
}

/// Reads a JSON value as [`read_json`] does, and returns its text too.
///
/// # Errors
///
/// Those of [`read_json`].
///
/// # Memory
///
/// Allocates the value and the text.
pub fn read_json_with_text<R: Read>(
    alloc: Global,
    reader: &mut Watched<R>,
) -> Result<(Value, String), InputError>
    ensures value { IfOk result (λ read. IsInputText R.remaining reader.old reader.new (string_bytes read.1) (view read.0)) }
    ensures refused { IfErr result (IsUnread R.remaining reader.old reader.new) }
{
    // A reader that had failed before is not read.
    if let Some(kind) = reader.failure() {
        return Err(failure_error(kind));
    }
    let mut bytes = Vec::new(alloc);
    reader.read_to_end(&mut bytes).map_err(read_error)?;
    if bytes.starts_with(MARK) {
        return Err(InputError::ByteOrderMark);
    }
    let text = match String::from_utf8(bytes) {
        Ok(text) => text,
        Err(_) => return Err(InputError::NoUtf8),
    };
    match Value::from_str(alloc, text.as_str()) {
        Ok(value) => Ok((value, text)),
        Err(error) => Err(json_error(error)),
    }
}

/// The byte order mark in UTF-8.
const MARK: &[u8] = &[239, 187, 191];
