//! Versions as JSON strings, and what is wrong with a JSON value.
ghost use Rattle.std.specs.Prelude.{◌≡◌, ◌↔◌, IsTrue};
ghost use Rattle.semver_versions.specs.declared.json.JsonError.{JsonError};
ghost use Rattle.semver_versions.specs.Json.{json_error_text, json_error_value};

mod version;

use crate::SemverError;
use crate::laws::errors_are_equal_where_their_parts_are;
use std::fmt;
use thiserror::Error;

/// Why reading a JSON value failed.
///
/// Two errors are equal exactly if they are the same variant with equal fields. If an allocation fails, the error is
/// `Semver` with the kind `OutOfMemory`.
///
/// # Examples
///
/// The number `1` fails with `NotAString`, which prints `expected a string`. The string `1.2` fails as a version with
/// `Semver`, which prints as its error does: `Failed to parse version.`
#[derive(Debug, Drop, PartialEq, Eq, Error)]
pub enum JsonError {
    /// The JSON value is no string: it is null, a Boolean, a number, an array or an object.
    NotAString,
    /// The string failed to parse, with this error.
    Semver(SemverError),
}

/// Prints `expected a string`, or the error inside. Format options such as a width are ignored.
impl fmt::Display for JsonError {
    ghost output = { json_error_text };

    fn fmt<W: fmt::Write>(&self, f: &mut fmt::Formatter<W>) -> fmt::Result {
        match self {
            JsonError::NotAString => f.write_str("expected a string"),
            JsonError::Semver(error) => error.fmt(f),
        }
    }
}

/// Two JSON errors are equal if they are the same variant and the errors inside are equal.
///
/// This function does nothing: its contract is the law.
pub fn json_errors_are_equal_where_their_parts_are()
    ensures { (e f : JsonError) →
        IsTrue (⟦<JsonError as PartialEq>⟧.eq e f) ↔ (json_error_value e ≡ json_error_value f) }
{
    errors_are_equal_where_their_parts_are();
}
