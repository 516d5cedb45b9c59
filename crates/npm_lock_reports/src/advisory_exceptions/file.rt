//! Reads a file of exceptions.
ghost use Rattle.std.specs.Prelude.{IfErr, IfOk, map};
ghost use Rattle.npm_lock_reports.specs.AdvisoryExceptions.{exception_value};
ghost use Rattle.npm_lock_reports.specs.Files.{AreExceptionsIn, IsFileRefused};

use crate::advisory_exceptions::error::ExceptionsError;
use crate::advisory_exceptions::exception::Exception;
use crate::advisory_exceptions::read::read_exceptions;
use command_lines::{Watched, failure_error};
use std::alloc::Global;
use std::io::Read;

/// Reads a file to the end, and returns its exceptions as [`read_exceptions`] does. A reader that had failed before is not read.
///
/// # Errors
///
/// - `Input`: a read failed.
/// - `NoUtf8`: what was read is no text in UTF-8.
/// - Those of [`read_exceptions`].
///
/// # Memory
///
/// Allocates the exceptions and, for the time of the call, the text and the values of the file.
pub fn read_file<R: Read>(
    alloc: Global,
    reader: &mut Watched<R>,
) -> Result<Vec<Exception>, ExceptionsError>
    ensures found { IfOk result (λ list. AreExceptionsIn R.remaining reader.old reader.new (map exception_value list.items)) }
    ensures refused { IfErr result (IsFileRefused R.remaining reader.old reader.new) }
{
    // A reader that had failed before is not read.
    if let Some(kind) = reader.failure() {
        return Err(ExceptionsError::Input(failure_error(kind)));
    }
    let mut bytes = Vec::new(alloc);
    if let Err(error) = reader.read_to_end(&mut bytes) {
        return Err(ExceptionsError::Input(failure_error(error.kind())));
    }
    let text = match String::from_utf8(bytes) {
        Ok(text) => text,
        Err(_) => return Err(ExceptionsError::NoUtf8),
    };
    match read_exceptions(alloc, text.as_str()) {
        Ok(list) => Ok(list),
        Err(error) => Err(error),
    }
}
