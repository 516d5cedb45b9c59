//! How the lines of a report are written.

use crate::format::ReportFormat;
use crate::piece::{Piece, Reading, push_pieces};
use serde_json::{Value, put};
use std::alloc::{AllocError, Global};

/// How the lines of a report are written.
#[derive(Clone, Copy, Drop)]
pub struct LineStyle<'a> {
    pub format: ReportFormat,
    /// The path of the lock file, if each line names it.
    pub file: Option<&'a str>,
}

/// Adds the words before a sentence: `a/package-lock.json: `.
pub fn push_file(line: &mut Vec<u8>, file: Option<&str>) -> Result<(), AllocError> {
    match file {
        Some(file) => push_pieces(
            line,
            Reading::Terminal,
            &[Piece::First(file), Piece::Fixed(": ")],
        ),
        None => Ok(()),
    }
}

/// Adds a JSON object, with the path of the lock file as its member `file` if the line names it.
pub fn push_object(
    alloc: Global,
    line: &mut Vec<u8>,
    value: Value,
    file: Option<&str>,
) -> Result<(), AllocError> {
    let text = with_file(alloc, value, file)?.to_string(alloc)?;
    line.extend_from_slice(text.as_bytes())
}

/// Returns a JSON object with the path as its member `file`, or as it is.
fn with_file(alloc: Global, value: Value, file: Option<&str>) -> Result<Value, AllocError> {
    let Some(file) = file else {
        return Ok(value);
    };
    match value {
        Value::Object(members) => {
            let mut members = members;
            let text = String::from_str(alloc, file)?;
            put(&mut members, alloc, "file", Value::String(text))?;
            Ok(Value::Object(members))
        }
        other => Ok(other),
    }
}
