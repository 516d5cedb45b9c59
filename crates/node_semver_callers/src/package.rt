//! A range from a JSON value, as a member of a package, with the line and column of its error.

ghost use Rattle.std.specs.Prelude.{◌≡◌, ◌↔◌, Err, IfErr, IfOk, IfSome, None};
ghost use Rattle.serde_json.specs.Find.{as_str};
ghost use Rattle.serde_json.specs.View.{view};
ghost use Rattle.node_semver_callers.specs.declared.package.MemberError.TheVariants.{NotAString};
ghost use Rattle.node_semver_callers.specs.Places.{IsPlacedIn};
ghost use Rattle.node_semver.specs.Ranges.{RangeAdmits, TextAdmits};
ghost use Rattle.node_semver.specs.Versions.{VersionValue};

use node_semver::{JsonError, Range, SemverError};
use serde_json::Value;
use std::alloc::Global;
use thiserror::Error;

/// Why a member is no range, with the line and column of the fault, counted from 0.
#[derive(Debug, Drop, Error)]
pub enum MemberError {
    /// The JSON value is no string.
    #[error("expected a string")]
    NotAString,
    /// The string is no range.
    #[error("line {line}, column {column}: {error}")]
    Refused {
        line: usize,
        column: usize,
        error: SemverError,
    },
}

/// Returns the range that a JSON string holds.
///
/// The fault of a range text is a fault of the whole text, so its place is always line 0 and column 0. The fault of a
/// version has a place in its text: read a version with `Version::from_json`, and report the place in the same way.
///
/// # Errors
///
/// Returns `NotAString` if the value is no string, and `Refused` with line, column and error if the string is no range
/// or an allocation fails.
pub fn range_of_member(alloc: Global, member: &Value) -> Result<Range, MemberError>
    ensures other { (result ≡ Err NotAString) ↔ (as_str (view member.now) ≡ None) }
    ensures means { IfSome (as_str (view member.now)) (λ text.
        IfOk result (λ r. (v : VersionValue) → RangeAdmits r v ↔ TextAdmits text v)) }
    ensures placed { IfSome (as_str (view member.now)) (λ text. IfErr result (IsPlacedIn text)) }
{
    match Range::from_json(alloc, member) {
        Ok(range) => Ok(range),
        Err(JsonError::NotAString) => Err(MemberError::NotAString),
        Err(JsonError::Semver(error)) => {
            let (line, column) = error.location();
            Err(MemberError::Refused {
                line,
                column,
                error,
            })
        }
    }
}
