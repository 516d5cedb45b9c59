//! Versions as JSON strings.
ghost use Rattle.std.specs.Prelude.{◌≡◌, ◌↔◌, Err, IfOk, IfSome, None};
ghost use Rattle.serde_json.specs.Data.{string};
ghost use Rattle.serde_json.specs.Find.{as_str};
ghost use Rattle.serde_json.specs.View.{view};
ghost use Rattle.semver_texts.specs.Print.{version_text};
ghost use Rattle.semver_versions.specs.declared.json.JsonError.TheVariants.{NotAString};
ghost use Rattle.semver_versions.specs.Json.{IsVersionAnswer, PassesOn};

use crate::{JsonError, Version};
use serde_json::Value;
use std::alloc::{AllocError, Global};

impl Version {
    /// Returns the JSON string with the version's print.
    ///
    /// [`Version::from_json`] reads it as this version, if the version was read from a text and its print has at most
    /// `MAX_LENGTH` bytes.
    ///
    /// # Errors
    ///
    /// Returns `AllocError` if the allocation of the text fails.
    ///
    /// # Memory
    ///
    /// Allocates the text.
    ///
    /// # Examples
    ///
    /// The string `1.2.34-abc.213+2` for `1.2.34-abc.213+2`, and the string `1.2.3` for `v1.2.3`.
    ///
    /// # Source
    ///
    /// The Rust crate `node-semver` 2.2.0, `Serialize`.
    pub fn to_json(&self, alloc: Global) -> Result<Value, AllocError>
        ensures { IfOk result (λ value. view value ≡ string (version_text self.now)) }
    {
        Ok(Value::String(format!(in alloc; "{self}")?))
    }

    /// Reads a version from a JSON string, as [`Version::parse`] does from its text.
    ///
    /// # Errors
    ///
    /// - null, a Boolean, a number, an array, an object: `NotAString`;
    /// - a string: `Semver` with the error of `Version::parse`. For the string `1.2`, it is `Context("version")` at 3.
    ///
    /// # Memory
    ///
    /// As `Version::parse` does for the text. Does not allocate for `NotAString`.
    ///
    /// # Examples
    ///
    /// The string `v1.2.3` is read as `1.2.3`. The number `1` fails.
    ///
    /// # Source
    ///
    /// The Rust crate `node-semver` 2.2.0, `Deserialize`.
    pub fn from_json(alloc: Global, value: &Value) -> Result<Version, JsonError>
        ensures other { (result ≡ Err NotAString) ↔ (as_str (view value.now) ≡ None) }
        ensures text { IfSome (as_str (view value.now)) (λ text. PassesOn (IsVersionAnswer text) result) }
    {
        let Some(text) = value.as_str() else {
            return Err(JsonError::NotAString);
        };
        match Version::parse(alloc, text) {
            Ok(version) => Ok(version),
            Err(error) => Err(JsonError::Semver(error)),
        }
    }
}
