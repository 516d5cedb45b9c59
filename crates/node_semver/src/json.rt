//! Ranges as JSON strings.
ghost use Rattle.std.specs.Prelude.{◌≡◌, ◌↔◌, Err, IfOk, IfSome, None};
ghost use Rattle.serde_json.specs.Data.{string};
ghost use Rattle.serde_json.specs.Find.{as_str};
ghost use Rattle.serde_json.specs.View.{view};
ghost use Rattle.semver_sets.specs.RangePrint.{range_text};
ghost use Rattle.semver_versions.specs.declared.json.JsonError.TheVariants.{NotAString};
ghost use Rattle.semver_versions.specs.Json.{PassesOn};
ghost use Rattle.node_semver.specs.RangeAnswer.{IsRangeAnswer};

use crate::{JsonError, Range};
use serde_json::Value;
use std::alloc::{AllocError, Global};

impl Range {
    /// Returns the JSON string with the range's print.
    ///
    /// [`Range::from_json`] reads it as an equal range, if no set of the range contains all cuts, and no major, minor
    /// or patch of an end is greater than `MAX_SAFE_INTEGER`.
    ///
    /// # Errors
    ///
    /// Returns `AllocError` if the allocation of the text fails.
    ///
    /// # Memory
    ///
    /// Allocates the text.
    ///
    /// # Examples
    ///
    /// The string `<1.2.3` for `<1.2.3`. The string `*` for [`Range::any`], which is read as `>=0.0.0`, a range that is
    /// not equal to it.
    ///
    /// # Source
    ///
    /// The Rust crate `node-semver` 2.2.0, `Serialize`.
    pub fn to_json(&self, alloc: Global) -> Result<Value, AllocError>
        ensures { IfOk result (λ value. view value ≡ string (range_text self.now)) }
    {
        Ok(Value::String(format!(in alloc; "{self}")?))
    }

    /// Reads a range from a JSON string, as [`Range::parse`] does from its text.
    ///
    /// # Errors
    ///
    /// - null, a Boolean, a number, an array, an object: `NotAString`;
    /// - a string: `Semver` with the error of `Range::parse`. For the empty string, it is `NoValidRanges` at 0.
    ///
    /// # Memory
    ///
    /// As `Range::parse` does for the text. Does not allocate for `NotAString`.
    ///
    /// # Examples
    ///
    /// The string `^1.2.3` is read. The number `1` fails.
    ///
    /// # Source
    ///
    /// The Rust crate `node-semver` 2.2.0, `Deserialize`.
    pub fn from_json(alloc: Global, value: &Value) -> Result<Range, JsonError>
        ensures other { (result ≡ Err NotAString) ↔ (as_str (view value.now) ≡ None) }
        ensures text { IfSome (as_str (view value.now)) (λ text. PassesOn (IsRangeAnswer text) result) }
    {
        let Some(text) = value.as_str() else {
            return Err(JsonError::NotAString);
        };
        match Range::parse(alloc, text) {
            Ok(range) => Ok(range),
            Err(error) => Err(JsonError::Semver(error)),
        }
    }
}
