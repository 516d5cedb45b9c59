//! Why a file has no exceptions.
ghost use Rattle.std.specs.Prelude.{◌≡◌, None, option_map};
ghost use Rattle.toml.specs.Errors.{IsMemory};
ghost use Rattle.toml.specs.Parse.{parse_document};
ghost use Rattle.npm_lock_reports.specs.Reading.{IsKeyError, IsRefused};

use crate::advisory_exceptions::error::{ExceptionFault, ExceptionsError};
use std::alloc::Global;
use toml::de::Error;

/// The error of a text that is no TOML.
pub(crate) fn toml_error(alloc: Global, text: &str, error: Error) -> ExceptionsError
    requires { ¬ IsMemory error → parse_document text.now ≡ None }
    ensures { IsRefused text.now result }
{
    let Some(span) = error.span() else {
        return ExceptionsError::Memory;
    };
    let (line, column) = place_in(text, span.start);
    match String::from_str(alloc, error.message()) {
        Ok(said) => ExceptionsError::NoToml(line, column, said),
        Err(_) => ExceptionsError::Memory,
    }
}

/// The error of a key with another name, of the file or of the exception at this place.
pub(crate) fn key_error(alloc: Global, place: Option<usize>, key: &str) -> ExceptionsError
    ensures { IsKeyError place key.now result }
{
    let Ok(key) = String::from_str(alloc, key) else {
        return ExceptionsError::Memory;
    };
    unplaced(match place {
        Some(place) => ExceptionFault::ExceptionKey(place, key),
        None => ExceptionFault::Key(key),
    })
}

/// The error of a fault, before its place is looked for.
pub(crate) fn unplaced(fault: ExceptionFault) -> ExceptionsError
    ensures { result ≡ ExceptionsError.Faulty fault 1 1 }
{
    ExceptionsError::Faulty(fault, 1, 1)
}

/// The line and the column of a byte offset, which count from 1. A column counts characters.
fn place_in(text: &str, offset: usize) -> (usize, usize) {
    let mut line: usize = 1;
    let mut column: usize = 1;
    for byte in text.as_bytes().iter().take(offset) {
        if *byte == b'\n' {
            line = line.saturating_add(1);
            column = 1;
        } else if *byte & 0xC0 != 0x80 {
            column = column.saturating_add(1);
        }
    }
    (line, column)
}
